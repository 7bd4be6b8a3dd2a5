// What the programs share: reading an input whole, writing to standard output, and saying on standard
// error what failed.

#![tactic(auto)]

ghost use Rattle.std.specs.Prelude.{◌≡◌, ◌≤◌, ◌∷◌, true, IfSome, is_ok, length};
ghost use Rattle.std.specs.Bool.{OnTrue};
ghost use Rattle.std.specs.Fmt.Cut.{EndsInDots};
ghost use Rattle.std.specs.Io.KnownBytes.{Appends, Consumes, IsAtEnd};

use input::Unread;
use std::fmt::{Display, InlineText};
use std::io::{Read, Write};
use std::{fmt, io};

// Where a program writes. A write that fails is told on standard error, and those after it are tried
// all the same: a program has always gone on to the end of its line, so that `?` would do otherwise.
#[derive(Drop)]
pub struct Console<'a, R, W> {
    pub rt: &'a R,
    pub program: &'a str,
    pub out: W,
}

impl<'a, R: Eprint, W: Write> Console<'a, R, W> {
    // Reads all of standard input into the front of buf, and answers the bytes. Where it can't, it says
    // why.
    pub fn read_whole<'b, I: Read>(&mut self, input: &mut I, buf: &'b mut [u8]) -> Option<&'b [u8]>
        ensures within { IfSome result (λ bytes. length bytes.now ≤ length buf.old) }
        ensures bytes { IfSome result (λ bytes. Consumes (I.remaining input.old) (I.remaining input.new) bytes.now) }
        ensures end { IfSome result (λ _. IsAtEnd (I.remaining input.new)) }
    {
        match input::read_whole(input, buf) {
            Ok(bytes) => Some(bytes),
            Err(Unread::TooLong) => {
                self.write(b"too long\n");
                None
            }
            Err(Unread::Failed(error)) => {
                self.fail("standard input", error);
                None
            }
        }
    }

    // Writes text, and answers whether all of it was written.
    pub fn write(&mut self, text: &[u8]) -> bool
        ensures { OnTrue result (Appends (W.contents self.old.out) (W.contents self.new.out) text.now) }
    {
        let written = self.out.write_all(text);
        self.told(written)
    }

    // Writes a value, and answers whether all of it was written. In one write, so that no other writer comes between
    // its parts: `write_fmt` makes one for each part of a number. It writes a text that may have been cut.
    pub fn print<D: Display + Drop>(&mut self, value: D) -> bool
        ensures { OnTrue result (IfSome (D.output value) (Appends (W.contents self.old.out) (W.contents self.new.out))) }
    {
        let text = InlineText::<64>::of(&value);
        let bytes = text.as_str().as_bytes();
        let printed = if may_be_cut(bytes) {
            self.out.write_fmt(value)
        } else {
            self.out.write_all(bytes)
        };
        self.told(printed)
    }

    // Writes a space and then a value, and answers whether all of it was written.
    pub fn print_next<D: Display + Drop>(&mut self, value: D) -> bool
        ensures { OnTrue result (IfSome (D.output value) (λ text. Appends (W.contents self.old.out) (W.contents self.new.out) (32 ∷ text))) }
    {
        let space = self.write(b" ");
        self.print(value) && space
    }

    fn told(&self, written: io::Result<()>) -> bool
        ensures { result ≡ is_ok written }
    {
        match written {
            Ok(()) => true,
            Err(error) => {
                self.fail("standard output", error);
                false
            }
        }
    }

    // Where that fails, too, nothing is left to be said.
    fn fail(&self, stream: &str, error: io::Error) {
        let program = self.program;
        let what = format_args!("{program}: {stream}");
        let _ = self.rt.eprintln(Failure { what, error });
    }
}

// What failed, and the system's words for why, without the number that follows them.
#[derive(Drop)]
pub struct Failure<D> {
    pub what: D,
    pub error: io::Error,
}

impl<D: Display> Display for Failure<D> {
    fn fmt<W: fmt::Write>(&self, f: &mut fmt::Formatter<W>) -> fmt::Result {
        let text = InlineText::<320>::of(self.error);
        let what = &self.what;
        let words = words(text.as_str());
        write!(f, "{what}: {words}")
    }
}

// Whether `InlineText` may have cut this text, which it then ends in dots.
fn may_be_cut(text: &[u8]) -> bool
    ensures { EndsInDots 64 text.now → result ≡ true }
{
    text.ends_with(b"...")
}

fn words(text: &str) -> &str {
    match text.split_once(" (os error ") {
        Some((words, _)) => words,
        None => text,
    }
}
