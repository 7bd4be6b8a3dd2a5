// Placing a point on the belt: where it stands now, from where the lidar saw it and how far the belt
// has moved since.

#![tactic(auto)]

ghost use Rattle.std.specs.Prelude.{◌≡◌, ◌+◌, ◌-◌, ◌%◌, ◌^◌, ◌<◌, ◌≤◌, [], pos, ◌*ℤ◌};
ghost use Rattle.std.specs.Prelude.{Some};
ghost use Rattle.std.specs.Int.Signed.{mag};
ghost use Rattle.livox_stored.specs.Stored.{of_stored_reading};
ghost use Rattle.placing.specs.Placing.{bad_pulse_length, by_reading, of_placed, outside, place, pulses};
ghost use Rattle.placing.specs.Accuracy.{Accurate};

use answers::Refusal;
use livox_stored::StoredReading;
use units::BeltPulses;

// A count of the belt's encoder, which wraps at 2^32.
#[derive(Clone, Copy, Debug, PartialEq, Eq)]
pub struct BeltCount(pub u32);

// The count at which the point was seen.
#[derive(Clone, Copy, Debug, PartialEq, Eq)]
pub struct BeltDatum(pub u32);

// How far the belt moves in a pulse, in micrometres.
#[derive(Clone, Copy, Debug, PartialEq, Eq)]
pub struct PulseLength(pub u32);

// How far the belt has moved since a point was seen.
#[derive(Clone, Copy, Debug, PartialEq, Eq)]
pub struct Belt {
    pub count: BeltCount,
    pub datum: BeltDatum,
    pub pulse_length: PulseLength,
}

// Places a point by its stored reading: its distance along the belt, in metres.
pub fn place(reading: StoredReading, belt: Belt) -> Result<f32, Refusal>
    ensures placed { of_placed result ≡ place (by_reading (of_stored_reading reading)) belt.count.0 belt.datum.0 belt.pulse_length.0 }
    ensures accurate { Accurate [] (Some (of_stored_reading reading)) belt.count.0 belt.datum.0 belt.pulse_length.0 (of_placed result) }
{
    match reading {
        StoredReading::Millimetres(x, _, _) => place_along(times(x.0, 1000), belt),
        StoredReading::TenMillimetres(x, _, _) => {
            place_along(times(i32::from(x.0), 10000), belt)
        }
        StoredReading::Spherical { .. } => Err(Refusal::NotPlaceable),
        StoredReading::Float(..) => Err(Refusal::NotPlaceable),
    }
}

// The pulses since the datum, below 0 where the belt ran back.
pub fn pulses(count: BeltCount, datum: BeltDatum) -> BeltPulses
    ensures { result.0 ≡ pulses count.0 datum.0 }
{
    BeltPulses(wrapped(count.0, datum.0).cast_signed())
}

fn wrapped(count: u32, datum: u32) -> u32
    ensures { result ≡ (count + (2 ^ 32 - datum)) % 2 ^ 32 }
{
    count.wrapping_sub(datum)
}

fn place_along(x: i64, belt: Belt) -> Result<f32, Refusal>
    requires { mag x < 2 ^ 45 }
    ensures { of_placed result ≡ place (record { checks = []; micrometres = Some x }) belt.count.0 belt.datum.0 belt.pulse_length.0 }
{
    let length = belt.pulse_length.0;
    if is_bad_pulse_length(length) {
        return Err(Refusal::BadPulseLength);
    }
    let micrometres = x + times(pulses(belt.count, belt.datum).0, length);
    if is_outside(micrometres) {
        return Err(Refusal::OutsideWindow);
    }
    Ok(micrometres as f32 / 1_000_000.0)
}

fn times(n: i32, micrometres: u32) -> i64
    requires { micrometres ≤ 10000 }
    ensures value { result ≡ n *ℤ pos micrometres }
    ensures bounded { mag result < 2 ^ 45 }
{
    i64::from(n) * i64::from(micrometres)
}

fn is_bad_pulse_length(length: u32) -> bool
    ensures { result ≡ bad_pulse_length length }
{
    length < 1 || 1000 < length
}

fn is_outside(micrometres: i64) -> bool
    ensures { result ≡ outside micrometres }
{
    micrometres < -16_000_000 || 16_000_000 < micrometres
}
