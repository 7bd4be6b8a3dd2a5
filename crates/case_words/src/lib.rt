// The words of a case, as `cases` and `point_cases` read them, and what both tell of a number.

#![tactic(auto)]

ghost use Rattle.std.specs.Prelude.{◌≡◌, ◌+◌, ◌≤◌, replicate, set, take, drop, length, fold, position, ◌==◌, ℕ, Option, Some};
ghost use Rattle.std.specs.Iterator.{YieldsFirstBy, item_count};
ghost use Rattle.std.proofs.lemmas.List.Edits.{sets};
ghost use Rattle.case_words.specs.Pattern.{pattern_of, told_of};
ghost use Rattle.case_words.specs.Words.{byte_of, bytes_of, index_of, hex_digit, laid, laid_all, decimal_value, pieces_of, with_digit, word_of, words_of};
ghost use Rattle.case_words.specs.Pieces.{pieces_left};

use std::fmt;
use std::fmt::Display;

// A line of a list of cases: what it is called, a colon, the call, its numbers, and its file's bytes.
#[derive(Clone, Copy)]
pub struct Case<'a> {
    pub name: &'a [u8],
    // From the colon on. Words are counted from the colon, which is word 0: the call is word 1, and
    // the file's length word 2.
    pub text: &'a [u8],
}

impl<'a> Case<'a> {
    // By name and no From: words and whole lists are bytes, too, and only a line is a case.
    pub fn of(line: &'a [u8]) -> Self
        ensures name { result.name.now ≡ take (index_of 58 line.now) line.now }
        ensures text { result.text.now ≡ drop (index_of 58 line.now) line.now }
    {
        let (name, text) = line.split_at(find(line, b':'));
        Case { name, text }
    }

    // The word of a rank; where there is none, an empty one.
    pub fn word(&self, rank: usize) -> &'a [u8]
        ensures { result.now ≡ word_of self.now.text.now rank }
    {
        Pieces::of(self.text, b' ').nth(rank).unwrap_or(&[])
    }

    // The number that the word of a rank is.
    pub fn number(&self, rank: usize) -> u64
        ensures { result ≡ decimal_value (word_of self.now.text.now rank) }
    {
        decimal(self.word(rank))
    }

    // Lays the bytes of all words at their places.
    pub fn lay(&self, space: &mut [u8])
        ensures { space.new ≡ laid_all space.old (words_of self.now.text.now) }
    {
        for word in Pieces::of(self.text, b' ') {
            lay_word(word, space);
        }
    }

    // The case's file, in a space that is all zeros: as many bytes as its length says, or all.
    pub fn data<'s>(&self, space: &'s mut [u8]) -> &'s [u8]
        ensures { result.now ≡ take (decimal_value (word_of self.now.text.now 2)) (laid_all space.old (words_of self.now.text.now)) }
    {
        self.lay(space);
        front(space, self.number(2))
    }
}

// The pieces of a text that a byte ends, as lines and words. The text's end ends one, too.
#[derive(Clone, Copy)]
pub struct Pieces<'a> {
    rest: &'a [u8],
    end: u8,
}

impl<'a> Pieces<'a> {
    // By name and no From: it takes two.
    pub fn of(text: &'a [u8], end: u8) -> Self
        ensures { pieces_left result ≡ pieces_of end text.now }
    {
        Pieces { rest: text, end }
    }
}

impl<'a> Iterator for Pieces<'a> {
    type Item = &'a [u8];

    ghost next_gives = { YieldsFirstBy (λ piece. piece.now) pieces_left };

    ghost remaining = { item_count pieces_left };

    #[tactic(auto, using(crate::proofs::Cuts::of_none, crate::proofs::Cuts::of_some))]
    fn next(&mut self) -> Option<&'a [u8]> {
        if self.rest.is_empty() {
            return None;
        }
        let (piece, rest) = self.rest.split_at(find(self.rest, self.end));
        self.rest = tail(rest);
        Some(piece)
    }
}

// The first place of a byte; where it is not there, the text's end.
#[tactic(auto, using(crate::proofs::Cuts::or_len))]
pub fn find(text: &[u8], byte: u8) -> usize
    ensures place { result ≡ index_of byte text.now }
    ensures within { result ≤ length text.now }
{
    first(text, byte).unwrap_or(text.len())
}

fn first(text: &[u8], byte: u8) -> Option<usize>
    ensures { result ≡ position (λ x. x == byte) text.now }
{
    text.iter().position(|b| *b == byte)
}

// What follows the first byte.
fn tail(text: &[u8]) -> &[u8]
    ensures { result.now ≡ drop 1 text.now }
{
    text.get(1..).unwrap_or(&[])
}

// The first len elements, or all of them.
pub fn front<T>(space: &[T], len: u64) -> &[T]
    ensures { result.now ≡ take len space.now }
{
    space.get(..len as usize).unwrap_or(space)
}

// Room for a list of cases.
pub fn list_buffer() -> [u8; 262144]
    ensures { result ≡ replicate 262144 0 }
{
    [0; 262144]
}

// A number that is told by its bits: itself, or those that are a number.
pub trait Number: Copy {
    ghost pattern: { Self → Option ℕ };

    fn pattern(self) -> Option<u32>
        ensures { result ≡ pattern self };
}

impl Number for f32 {
    ghost pattern = { pattern_of };

    fn pattern(self) -> Option<u32> {
        pattern_of(self)
    }
}

impl Number for u32 {
    ghost pattern = { λ bits. Some bits };

    fn pattern(self) -> Option<u32> {
        Some(self)
    }
}

// What is told of a number: its bits, and of a NaN that it is one.
#[derive(Clone, Copy, Drop)]
pub struct Told(pub Option<u32>);

impl Display for Told {
    ghost output = { λ told. Some (told_of told.0) };

    fn fmt<W: fmt::Write>(&self, f: &mut fmt::Formatter<W>) -> fmt::Result {
        match self.0 {
            Some(bits) => write!(f, "{bits:08x}"),
            None => write!(f, "nan"),
        }
    }
}

// The bits of a number; of a NaN there are none, since `f32::to_bits` is undefined there.
#[tactic(auto, unfolding(crate::specs::Pattern::pattern_of))]
pub fn pattern_of(x: f32) -> Option<u32>
    ensures { result ≡ pattern_of x }
{
    if x.is_nan() { None } else { Some(x.to_bits()) }
}

#[tactic(auto, using(crate::proofs::Hex::marked))]
fn lay_word(word: &[u8], space: &mut [u8])
    ensures { space.new ≡ laid space.old word.now }
{
    let (place, hex) = word.split_at(find(word, b'='));
    lay_hex(tail(hex), decimal(place) as usize, space);
}

fn lay_hex(hex: &[u8], at: usize, space: &mut [u8])
    ensures { space.new ≡ sets space.old at (bytes_of hex.now) }
{
    for (i, pair) in hex.chunks(2).enumerate() {
        if let [high, low] = pair {
            put(space, at, i, byte(*high, *low));
        }
    }
}

// Past the end nothing is put. By index: after `get_mut`, or an adapter of `iter_mut`, a proof knows no element, and a
// plain `for` over `iter_mut` would go through the whole space.
fn put(space: &mut [u8], at: usize, i: usize, b: u8)
    ensures { space.new ≡ set space.old (at + i) b }
{
    if at < space.len() && i < space.len() - at {
        space[at + i] = b;
    }
}

// Two digits, whatever bytes they are.
#[tactic(auto, unfolding(crate::specs::Words::hex_digit))]
fn byte(high: u8, low: u8) -> u8
    ensures { result ≡ byte_of high low }
{
    hex_digit(high) * 16 + hex_digit(low)
}

// No `to_digit`: any byte has a value, so that no word is refused.
#[tactic(auto, unfolding(crate::specs::Words::hex_digit))]
fn hex_digit(b: u8) -> u8
    ensures { result ≡ hex_digit b }
{
    if b < 58 { b % 16 } else { (b - 7) % 16 }
}

// No `parse`: any byte counts as a digit, and one for which there is no room is left out, so that no word is
// refused.
fn decimal(word: &[u8]) -> u64
    ensures { result ≡ decimal_value word.now }
{
    word.iter().fold(0, |n, b| with_digit(n, *b))
}

#[tactic(auto, unfolding(crate::specs::Words::with_digit))]
fn with_digit(n: u64, b: u8) -> u64
    ensures { result ≡ with_digit n b }
{
    if n < 1844674407370955161 {
        n * 10 + u64::from(b % 16)
    } else {
        n
    }
}
