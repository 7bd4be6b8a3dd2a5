// Placing a point on the belt, by the names and numbers of include/lidar.h. c_placing_c exports the calls.

#![tactic(auto)]

ghost use Rattle.std.specs.Prelude.{◌≡◌, [], pos};
ghost use Rattle.std.specs.Prelude.{Some};
ghost use Rattle.livox_stored.specs.Stored.{millimetres, of_stored_reading, ten_millimetres};
ghost use Rattle.placing.specs.Placing.{by_reading, of_placed, place, pulses};
ghost use Rattle.placing.specs.Accuracy.{Accurate};
ghost use Rattle.c_placing.specs.Placed.{received, tell_placed};

use answers::Refusal;
use livox_stored::StoredReading;
use placing::{Belt, BeltCount, BeltDatum, PulseLength, place, pulses};
use units::{Millimetres, TenMillimetres};

pub fn lidar_place_millimetres(
    x: i32,
    count: u32,
    datum: u32,
    pulse_length: u32,
    metres: &mut f32,
) -> u8
    ensures placed { (result, metres.new) ≡ tell_placed (place (by_reading (millimetres x (pos 0) (pos 0))) count datum pulse_length) metres.old }
    ensures accurate { Accurate [] (Some (millimetres x (pos 0) (pos 0))) count datum pulse_length (received (result, metres.new)) }
{
    let in_millimetres = StoredReading::Millimetres(Millimetres(x), Millimetres(0), Millimetres(0));
    tell_place(in_millimetres, belt(count, datum, pulse_length), metres)
}

pub fn lidar_place_ten_millimetres(
    x: i16,
    count: u32,
    datum: u32,
    pulse_length: u32,
    metres: &mut f32,
) -> u8
    ensures placed { (result, metres.new) ≡ tell_placed (place (by_reading (ten_millimetres x (pos 0) (pos 0))) count datum pulse_length) metres.old }
    ensures accurate { Accurate [] (Some (ten_millimetres x (pos 0) (pos 0))) count datum pulse_length (received (result, metres.new)) }
{
    let in_ten_millimetres = StoredReading::TenMillimetres(
        TenMillimetres(x),
        TenMillimetres(0),
        TenMillimetres(0),
    );
    tell_place(in_ten_millimetres, belt(count, datum, pulse_length), metres)
}

pub fn lidar_pulses(count: u32, datum: u32) -> i32
    ensures { result ≡ pulses count datum }
{
    pulses(BeltCount(count), BeltDatum(datum)).0
}

// The belt that three numbers say.
pub fn belt(count: u32, datum: u32, pulse_length: u32) -> Belt
    ensures count { result.count.0 ≡ count }
    ensures datum { result.datum.0 ≡ datum }
    ensures pulse_length { result.pulse_length.0 ≡ pulse_length }
{
    Belt {
        count: BeltCount(count),
        datum: BeltDatum(datum),
        pulse_length: PulseLength(pulse_length),
    }
}

fn tell_place(reading: StoredReading, belt: Belt, metres: &mut f32) -> u8
    ensures placed { (result, metres.new) ≡ tell_placed (place (by_reading (of_stored_reading reading)) belt.count.0 belt.datum.0 belt.pulse_length.0) metres.old }
    ensures accurate { Accurate [] (Some (of_stored_reading reading)) belt.count.0 belt.datum.0 belt.pulse_length.0 (received (result, metres.new)) }
{
    tell(place(reading, belt), metres)
}

pub fn tell(placed: Result<f32, Refusal>, metres: &mut f32) -> u8
    ensures { (result, metres.new) ≡ tell_placed (of_placed placed) metres.old }
{
    if let Ok(distance) = placed {
        *metres = distance;
    }
    answers::number_of(placed)
}
