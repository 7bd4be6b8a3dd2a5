// The numbers of a case, as the calls take them.

ghost use Rattle.std.specs.Prelude.{◌≤◌};

use case_words::Case;
use lidar::{OusterSettings, Reading};
use std::array;

// There is room for eight points at most. Here and in `port` a number is cut on purpose, so that a list may name any.
pub(crate) fn room(case: &Case<'_>) -> usize
    ensures { result ≤ 8 }
{
    (case.number(3) % 9) as usize
}

pub(crate) fn port(case: &Case<'_>, rank: usize) -> u16 {
    (case.number(rank) % 65536) as u16
}

// None has the call that names none.
pub(crate) fn reading(case: &Case<'_>, rank: usize) -> Option<Reading> {
    match case.number(rank) {
        0 => Some(Reading::Rust),
        2 => None,
        _ => Some(Reading::Savefile),
    }
}

pub(crate) fn settings(case: &Case<'_>) -> OusterSettings {
    OusterSettings {
        columns_per_packet: case.number(5) as usize,
        pixels_per_column: case.number(6) as usize,
        lidar_port: port(case, 7),
    }
}

// Half of each channel's number.
pub(crate) fn halves() -> [f32; 129] {
    array::from_fn(|channel| channel as f32 / 2.0)
}
