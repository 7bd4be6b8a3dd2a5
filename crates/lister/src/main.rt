// Lists the points of a Livox file from standard input: LVX by its ten bytes, else LVX2.

#![tactic(auto)]

ghost use Rattle.std.specs.Prelude.{◌≡◌};
ghost use Rattle.points.specs.ReadInto.{answered};
ghost use Rattle.livox_header.specs.Header.{form_of};
ghost use Rattle.livox_file.specs.Livox.{read_livox_bits};

use answers::{Counts, Refusal};
use console::Console;
use std::io;
use std::io::Write;

fn main(rt: HostRuntime) {
    let mut out = Console {
        rt: &rt,
        program: "lister",
        out: io::writer(&rt),
    };
    let mut space = [0u8; 65536];
    if let Some(data) = out.read_whole(&mut rt.stdin(), &mut space) {
        list(&mut out, data);
    }
}

fn list<R: Eprint, W: Write>(out: &mut Console<'_, R, W>, data: &[u8]) {
    let mut bits = [0u32; 12288];
    let mut kinds = [0u8; 4096];
    let mut line = [0u8; 64];
    match read(data, &mut bits, &mut kinds) {
        Ok(counts) => {
            let n = head_lines::head_line(counts.points, counts.frames, &mut line);
            if out.write(&line[..n]) {
                list_points(out, &bits, &kinds[..counts.points]);
            }
        }
        Err(refusal) => {
            let n = head_lines::refusal_line(refusal, &mut line);
            out.write(&line[..n]);
        }
    }
}

// Chooses the form by the opening bytes, and reads it by pattern.
#[tactic(auto, unfolding(livox_file::specs::Livox::point_bits))]
fn read(data: &[u8], bits: &mut [u32], kinds: &mut [u8]) -> Result<Counts, Refusal>
    ensures { answered result bits.new kinds.new ≡ read_livox_bits (form_of «data».now) «data».now bits.old kinds.old }
{
    livox::read_livox(livox_header::form_of(data), data, bits, kinds)
}

// A line for each point, with the three numbers that lie at its kind's place.
fn list_points<R: Eprint, W: Write>(out: &mut Console<'_, R, W>, bits: &[u32], kinds: &[u8]) {
    for (kind, numbers) in kinds.iter().zip(bits.chunks_exact(3)) {
        let line = point_lines::point_line(*kind, numbers[0], numbers[1], numbers[2]);
        if !out.write(&line) {
            return;
        }
    }
}
