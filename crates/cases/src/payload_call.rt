// The payload of a rank: where it stands, its time, of which a unit is 0 for microseconds and 1 for nanoseconds, and its bytes.

use crate::parameters;
use case_words::Case;
use console::Console;
use std::io::Write;

pub(crate) fn tell<R: Eprint, W: Write>(out: &mut Console<'_, R, W>, case: &Case<'_>, data: &[u8]) {
    let reading = parameters::reading(case, 3);
    let port = parameters::port(case, 4);
    let rank = case.number(5) as usize;
    let (place, payload) = match reading {
        Some(reading) => (
            lidar::payload_place_as(data, reading, port, rank),
            lidar::payload_as(data, reading, port, rank),
        ),
        None => (
            lidar::payload_place(data, port, rank),
            lidar::payload(data, port, rank),
        ),
    };
    out.print_next(place.map_or(0, |place| place.start));
    out.print_next(payload.bytes.len());
    out.print_next(payload.time.seconds);
    out.print_next(payload.time.fraction);
    out.print_next(payload.time.unit.number());
    out.write(b" ");
    // `replay` has this loop, too: a function for both would need a contract, and save nothing.
    for byte in payload.bytes {
        out.print(format_args!("{byte:02x}"));
    }
}
