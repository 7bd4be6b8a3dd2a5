// The lister's line of what was read or refused: as bytes, and as it is displayed.

#![tactic(auto)]

ghost use Rattle.std.specs.Prelude.{◌≡◌, ◌+◌, ◌≤◌, ◌++◌, length, Some};
ghost use Rattle.io.specs.Counts.{IsPrefixLen};
ghost use Rattle.points.specs.ReadInto.{over};
ghost use Rattle.head_lines.specs.HeadLines.{decimal, head_line, refusal_line};
ghost use Rattle.head_lines.specs.Appended.{Appended};

use answers::{Counts, Refusal};
use std::fmt;
use std::fmt::Display;

// The refusal that tells the points needed.
const NO_ROOM: u8 = 10;

// The first line of what was read. It goes over the front of line, and the answer is its length:
// 56 bytes at most, since a usize has at most 20 digits. The lister writes these bytes, since a
// `Display` promises its text only where it answers Ok.
pub fn head_line(points: usize, frames: usize, line: &mut [u8; 64]) -> usize
    ensures prefix_len { IsPrefixLen result line.new }
    ensures value { result ≡ length (head_line points frames) }
    ensures line_written { line.new ≡ over (head_line points frames) line.old }
{
    let at = append_number(b"points ", points, line, 0);
    let at = append_number(b" frames ", frames, line, at);
    append(b"\n", line, at)
}

// The line of a refusal. It goes over the front of line, and the answer is its length.
pub fn refusal_line(refusal: Refusal, line: &mut [u8; 64]) -> usize
    ensures prefix_len { IsPrefixLen result line.new }
    ensures value { result ≡ length (refusal_line refusal) }
    ensures line_written { line.new ≡ over (refusal_line refusal) line.old }
{
    let number = refusal.number();
    let at = append_number(b"refused ", usize::from(number), line, 0);
    if number == NO_ROOM {
        let at = append_number(b" ", refusal.points_needed(), line, at);
        append(b"\n", line, at)
    } else {
        append(b"\n", line, at)
    }
}

// Puts text into line at an index, and answers the index after the text.
fn append(text: &[u8], line: &mut [u8], at: usize) -> usize
    requires { at + length text.now ≤ length line.old }
    ensures { Appended text.now line.old at line.new result }
{
    let end = at + text.len();
    line[at..end].copy_from_slice(text);
    end
}

// Puts text and after it the decimal digits of n into line at an index, and answers the index
// after them.
fn append_number(text: &[u8], n: usize, line: &mut [u8], at: usize) -> usize
    requires { at + length text.now + 20 ≤ length line.old }
    ensures fits { result ≤ at + length text.now + 20 }
    ensures appended { Appended (text.now ++ decimal n) line.old at line.new result }
{
    let mut digits = [0u8; 20];
    let k = io::decimal(n as u64, &mut digits);
    let at = append(text, line, at);
    append(&digits[..k], line, at)
}

// The first line of what was read.
#[derive(Clone, Copy, Drop)]
pub struct HeadLine(pub Counts);

impl Display for HeadLine {
    ghost output = { λ line. Some (head_line line.0.points line.0.frames) };

    fn fmt<W: fmt::Write>(&self, f: &mut fmt::Formatter<W>) -> fmt::Result {
        let points = self.0.points;
        let frames = self.0.frames;
        write!(f, "points {points} frames {frames}\n")
    }
}

// The line of a refusal.
#[derive(Clone, Copy, Drop)]
pub struct RefusalLine(pub Refusal);

impl Display for RefusalLine {
    ghost output = { λ line. Some (refusal_line line.0) };

    fn fmt<W: fmt::Write>(&self, f: &mut fmt::Formatter<W>) -> fmt::Result {
        let number = self.0.number();
        match self.0 {
            Refusal::NoRoom(needed) => write!(f, "refused {number} {needed}\n"),
            _ => write!(f, "refused {number}\n"),
        }
    }
}
