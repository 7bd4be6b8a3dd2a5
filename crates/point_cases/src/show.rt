// What a call tells, as text.

use case_words::{Number, Told};
use console::Console;
use lidar::{Refusal, StoredReading};
use std::io::Write;

// A stored reading: its type and its three numbers as the file has them, each as 32 bits.
pub(crate) fn stored<R: Eprint, W: Write>(
    out: &mut Console<'_, R, W>,
    answer: Result<StoredReading, Refusal>,
) {
    match answer {
        Ok(reading) => stored_reading(out, reading),
        Err(refusal) => {
            out.print_next(refusal.number());
        }
    }
}

// `c_rank` matches the same, but tells C each number's value as an i64; here it is its 32 bits.
fn stored_reading<R: Eprint, W: Write>(out: &mut Console<'_, R, W>, reading: StoredReading) {
    let (name, numbers) = match reading {
        StoredReading::Millimetres(x, y, z) => (" millimetres", [x.0, y.0, z.0].map(bits)),
        StoredReading::TenMillimetres(x, y, z) => (
            " ten millimetres",
            [x.0, y.0, z.0].map(|n| bits(i32::from(n))),
        ),
        StoredReading::Spherical {
            depth,
            zenith,
            azimuth,
        } => (
            " spherical",
            [depth.0, u32::from(zenith.0), u32::from(azimuth.0)],
        ),
        StoredReading::Float(x, y, z) => (" float", [x, y, z]),
    };
    out.write(name.as_bytes());
    for number in numbers {
        out.print_next(Told(Some(number)));
    }
}

// The number and, where it is 0, the distance.
pub(crate) fn placed<R: Eprint, W: Write>(
    out: &mut Console<'_, R, W>,
    placed: Result<f32, Refusal>,
) {
    match placed {
        Ok(x) => {
            out.print_next(0u8);
            out.print_next(Told(x.pattern()));
        }
        Err(refusal) => {
            out.print_next(refusal.number());
        }
    }
}

fn bits(n: i32) -> u32 {
    n.cast_unsigned()
}
