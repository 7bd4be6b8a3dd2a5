// Captures, as include/lidar.h declares the calls. What they tell of a payload goes out by reference, number by
// number, as C has it.

#![tactic(auto)]

ghost use Rattle.std.specs.Prelude.{◌≡◌, unwrap_or};
ghost use Rattle.points.specs.ReadInto.{first_refusal};
ghost use Rattle.record_rule.specs.Reading.{usual};
ghost use Rattle.savefile.specs.Savefile.{checks};
ghost use Rattle.c_form.specs.Reading.{reading_of};
ghost use Rattle.capture.specs.Payloads.{nowhere};
ghost use Rattle.c_capture.specs.Capture.{payload_told, tell_payload, tell_place, moved_on, step_from, tell_step, tell_next};

use c_form::reading_of;
use capture::{Cursor, Place, Reading};

#[unsafe(no_mangle)]
pub extern "C" fn lidar_payload_place_as(
    data: &[u8],
    savefile: bool,
    port: u16,
    rank: usize,
    start: &mut usize,
    len: &mut usize,
    seconds: &mut u32,
    fraction: &mut u32,
    unit: &mut u8,
) -> u8
    ensures { (result, payload_told start.new len.new (seconds.new, fraction.new, unit.new)) ≡ tell_place (reading_of savefile) port rank «data».now }
{
    let reading = reading_of(savefile);
    let place = payloads::payload_place_as(data, reading, port, rank);
    tell_payload(place, start, len, seconds, fraction, unit);
    number_of(data, reading)
}

#[unsafe(no_mangle)]
pub extern "C" fn lidar_payload_place(
    data: &[u8],
    port: u16,
    rank: usize,
    start: &mut usize,
    len: &mut usize,
    seconds: &mut u32,
    fraction: &mut u32,
    unit: &mut u8,
) -> u8
    ensures { (result, payload_told start.new len.new (seconds.new, fraction.new, unit.new)) ≡ tell_place usual port rank «data».now }
{
    let place = payloads::payload_place(data, port, rank);
    tell_payload(place, start, len, seconds, fraction, unit);
    number_of(data, Reading::usual())
}

#[unsafe(no_mangle)]
pub extern "C" fn lidar_next_payload_as(
    data: &[u8],
    savefile: bool,
    port: u16,
    at: &mut usize,
    start: &mut usize,
    len: &mut usize,
    seconds: &mut u32,
    fraction: &mut u32,
    unit: &mut u8,
) -> bool
    ensures { (result, at.new, payload_told start.new len.new (seconds.new, fraction.new, unit.new)) ≡ tell_next (reading_of savefile) port «data».now at.old }
{
    let step = step_from(data, reading_of(savefile), port, *at);
    tell_step(step, at, start, len, seconds, fraction, unit)
}

#[unsafe(no_mangle)]
pub extern "C" fn lidar_next_payload(
    data: &[u8],
    port: u16,
    at: &mut usize,
    start: &mut usize,
    len: &mut usize,
    seconds: &mut u32,
    fraction: &mut u32,
    unit: &mut u8,
) -> bool
    ensures { (result, at.new, payload_told start.new len.new (seconds.new, fraction.new, unit.new)) ≡ tell_next usual port «data».now at.old }
{
    let step = step_from(data, Reading::usual(), port, *at);
    tell_step(step, at, start, len, seconds, fraction, unit)
}

// The checks do not ask for a port.
fn number_of(data: &[u8], reading: Reading) -> u8
    ensures { result ≡ first_refusal (checks reading «data».now) }
{
    answers::number_of(capture::open_as(data, reading, 0))
}

// The step from a place of the walk on. A capture that is refused has none.
fn step_from(data: &[u8], reading: Reading, port: u16, at: usize) -> Option<(Place, Cursor)>
    ensures { result ≡ step_from reading port «data».now at }
{
    let cursor = capture::open_as(data, reading, port).ok()?;
    moved_on(cursor, at).step(data)
}

// The cursor moved on to a place. A place before it means its own.
fn moved_on(cursor: Cursor, at: usize) -> Cursor
    ensures { result ≡ moved_on cursor at }
{
    if at < cursor.at {
        cursor
    } else {
        cursor.moved_to(at)
    }
}

fn tell_step(
    step: Option<(Place, Cursor)>,
    at: &mut usize,
    start: &mut usize,
    len: &mut usize,
    seconds: &mut u32,
    fraction: &mut u32,
    unit: &mut u8,
) -> bool
    ensures { (result, at.new, payload_told start.new len.new (seconds.new, fraction.new, unit.new)) ≡ tell_step at.old step }
{
    match step {
        Some((place, next)) => {
            *at = next.at;
            tell_payload(Some(place), start, len, seconds, fraction, unit);
            true
        }
        None => {
            tell_payload(None, start, len, seconds, fraction, unit);
            false
        }
    }
}

// Where there is no payload, all that is told is 0.
fn tell_payload(
    place: Option<Place>,
    start: &mut usize,
    len: &mut usize,
    seconds: &mut u32,
    fraction: &mut u32,
    unit: &mut u8,
)
    ensures { payload_told start.new len.new (seconds.new, fraction.new, unit.new) ≡ tell_payload (unwrap_or place nowhere) }
{
    let place = place.unwrap_or_default();
    *start = place.start;
    *len = place.len;
    place.time.tell(seconds, fraction, unit);
}
