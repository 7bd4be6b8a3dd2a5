// The payload of a rank.

#![tactic(auto)]

ghost use Rattle.std.specs.Prelude.{◌≡◌};
ghost use Rattle.record_rule.specs.Reading.{usual};
ghost use Rattle.capture.specs.Payloads.{place_of, place_of_rank, bytes_at, PartAt};

use capture::{Place, Reading, Timestamp};

// A payload as that part of the capture, and when its record was captured.
#[derive(Clone, Copy)]
pub struct TimedPayload<'a> {
    pub bytes: &'a [u8],
    pub time: Timestamp,
}

// The payload of a rank, counted from 0. Where there is none, the part is empty and the time 0 in microseconds.
pub fn payload_as<'a>(data: &'a [u8], reading: Reading, port: u16, rank: usize) -> TimedPayload<'a>
    ensures contents { result.bytes.now ≡ bytes_at «data».now (place_of reading port rank «data».now) }
    ensures place { PartAt (place_of reading port rank «data».now).start «data».entry.ref_ptr result.bytes.ref_ptr }
    ensures time { result.time ≡ (place_of reading port rank «data».now).time }
{
    let place = payload_place_as(data, reading, port, rank).unwrap_or_default();
    TimedPayload {
        bytes: place.bytes(data),
        time: place.time,
    }
}

pub fn payload<'a>(data: &'a [u8], port: u16, rank: usize) -> TimedPayload<'a>
    ensures contents { result.bytes.now ≡ bytes_at «data».now (place_of usual port rank «data».now) }
    ensures place { PartAt (place_of usual port rank «data».now).start «data».entry.ref_ptr result.bytes.ref_ptr }
    ensures time { result.time ≡ (place_of usual port rank «data».now).time }
{
    payload_as(data, Reading::usual(), port, rank)
}

// Where that payload stands, and its time.
pub fn payload_place_as(data: &[u8], reading: Reading, port: u16, rank: usize) -> Option<Place>
    ensures { result ≡ place_of_rank reading port rank «data».now }
{
    let cursor = capture::open_as(data, reading, port).ok()?;
    capture::places_from(data, cursor).nth(rank)
}

pub fn payload_place(data: &[u8], port: u16, rank: usize) -> Option<Place>
    ensures { result ≡ place_of_rank usual port rank «data».now }
{
    payload_place_as(data, Reading::usual(), port, rank)
}
