// Runs a list of cases: what is alike in the programs that do.

#![tactic(auto)]

ghost use Rattle.std.specs.Bool.{OnTrue};
ghost use Rattle.std.specs.Io.KnownBytes.{IsAtEnd};

use case_words::{Case, Pieces};
use console::Console;
use std::io::{Read, Write};

// The calls that a program runs cases of.
pub trait Calls {
    // Tells what the call of a case tells of its file. No contract says what a program writes.
    fn tell<R: Eprint, W: Write>(&self, out: &mut Console<'_, R, W>, case: &Case<'_>, data: &[u8]);
}

// Runs a list of cases, a line for each, and answers whether it could read the whole list. A bool, as Console answers:
// why it could not has been told already.
pub fn run<C: Calls, R: Eprint, W: Write, I: Read>(
    calls: &C,
    out: &mut Console<'_, R, W>,
    input: &mut I,
) -> bool
    ensures { OnTrue result (IsAtEnd (I.remaining input.new)) }
{
    let mut space = case_words::list_buffer();
    let Some(text) = out.read_whole(input, &mut space) else {
        return false;
    };
    run_lines(calls, out, text);
    true
}

// Goes on while what is told can be written.
fn run_lines<C: Calls, R: Eprint, W: Write>(calls: &C, out: &mut Console<'_, R, W>, text: &[u8]) {
    for line in Pieces::of(text, b'\n') {
        if !run_case(calls, out, &Case::of(line)) {
            return;
        }
    }
}

// Writes what the case is called, a colon, and what its call tells.
fn run_case<C: Calls, R: Eprint, W: Write>(
    calls: &C,
    out: &mut Console<'_, R, W>,
    case: &Case<'_>,
) -> bool {
    // First, since a function's locals are zeros as it begins: after a call they would be cleared once more.
    let mut space = [0u8; 32768];
    if !out.write(case.name) {
        return false;
    }
    out.write(b":");
    calls.tell(out, case, case.data(&mut space));
    out.write(b"\n")
}
