// Runs a list of cases from standard input, a line for each, and writes a line for what each call
// tells, so that a wrong value changes what is written. Here are the calls on single points; `cases`
// runs those that read a whole file, and says what a line is, as in
//
//     placing 1 mm beyond 16 m: millimetres 4 0 0 1 @0=813e
//
// The first number is the length of the file, or of the reading. The other numbers are, by the call:
//
//     lvx-rank, lvx2-rank                      rank
//     place-lvx, place-lvx2                    rank, count, datum, pulse length
//     millimetres, ten-millimetres             count, datum, pulse length; the bytes are the reading
//     spherical, float                         count, datum, pulse length

#![tactic(auto)]

ghost use Rattle.std.specs.Prelude.{◌≤◌};

mod readings;
mod show;

use case_lists::Calls;
use case_words::Case;
use console::Console;
use lidar::{Belt, BeltCount, BeltDatum, Form, PulseLength, Refusal, StoredReading};
use std::io;
use std::io::Write;

fn main(rt: HostRuntime) {
    let mut out = Console {
        rt: &rt,
        program: "point_cases",
        out: io::writer(&rt),
    };
    case_lists::run(&PointCalls, &mut out, &mut rt.stdin());
}

struct PointCalls;

impl Calls for PointCalls {
    fn tell<R: Eprint, W: Write>(&self, out: &mut Console<'_, R, W>, case: &Case<'_>, data: &[u8]) {
        match case.word(1) {
            b"lvx-rank" => show::stored(out, stored_in(case, Form::Lvx, data)),
            b"lvx2-rank" => show::stored(out, stored_in(case, Form::Lvx2, data)),
            b"place-lvx" => show::placed(out, placed_in(case, Form::Lvx, data)),
            b"place-lvx2" => show::placed(out, placed_in(case, Form::Lvx2, data)),
            b"millimetres" => show::placed(out, placed(case, readings::millimetres(data))),
            b"ten-millimetres" => show::placed(out, placed(case, readings::ten_millimetres(data))),
            b"spherical" => show::placed(out, placed(case, readings::SPHERICAL)),
            b"float" => show::placed(out, placed(case, readings::FLOAT)),
            _ => {
                out.write(b" no such call");
            }
        }
    }
}

fn stored_in(case: &Case<'_>, form: Form, data: &[u8]) -> Result<StoredReading, Refusal> {
    lidar::stored_reading(form, data, case.number(3) as usize)
}

fn placed_in(case: &Case<'_>, form: Form, data: &[u8]) -> Result<f32, Refusal> {
    lidar::place_in_file(form, data, case.number(3) as usize, belt(case, 4))
}

fn placed(case: &Case<'_>, reading: StoredReading) -> Result<f32, Refusal> {
    lidar::place(reading, belt(case, 3))
}

// The belt, from its three numbers on.
fn belt(case: &Case<'_>, rank: usize) -> Belt
    requires { rank ≤ 4 }
{
    Belt {
        count: BeltCount(low(case.number(rank))),
        datum: BeltDatum(low(case.number(rank + 1))),
        pulse_length: PulseLength(low(case.number(rank + 2))),
    }
}

// The lower 32 bits. The remainder comes first, since Rattle proves of an `as` that it loses none.
fn low(n: u64) -> u32 {
    (n % 4294967296) as u32
}
