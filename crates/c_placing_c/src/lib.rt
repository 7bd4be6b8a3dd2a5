// Placing a point on the belt, as include/lidar.h declares the calls. What they do stands in c_placing, of which
// c_rank uses a part too: no crate can use a static library. So each call is there and, exported to C, here.

#![tactic(auto)]

ghost use Rattle.std.specs.Prelude.{◌≡◌, [], pos};
ghost use Rattle.std.specs.Prelude.{Some};
ghost use Rattle.livox_stored.specs.Stored.{millimetres, ten_millimetres};
ghost use Rattle.placing.specs.Placing.{by_reading, place, pulses};
ghost use Rattle.placing.specs.Accuracy.{Accurate};
ghost use Rattle.c_placing.specs.Placed.{received, tell_placed};

#[unsafe(no_mangle)]
pub extern "C" fn lidar_place_millimetres(
    x: i32,
    count: u32,
    datum: u32,
    pulse_length: u32,
    metres: &mut f32,
) -> u8
    ensures placed { (result, metres.new) ≡ tell_placed (place (by_reading (millimetres x (pos 0) (pos 0))) count datum pulse_length) metres.old }
    ensures accurate { Accurate [] (Some (millimetres x (pos 0) (pos 0))) count datum pulse_length (received (result, metres.new)) }
{
    c_placing::lidar_place_millimetres(x, count, datum, pulse_length, metres)
}

#[unsafe(no_mangle)]
pub extern "C" fn lidar_place_ten_millimetres(
    x: i16,
    count: u32,
    datum: u32,
    pulse_length: u32,
    metres: &mut f32,
) -> u8
    ensures placed { (result, metres.new) ≡ tell_placed (place (by_reading (ten_millimetres x (pos 0) (pos 0))) count datum pulse_length) metres.old }
    ensures accurate { Accurate [] (Some (ten_millimetres x (pos 0) (pos 0))) count datum pulse_length (received (result, metres.new)) }
{
    c_placing::lidar_place_ten_millimetres(x, count, datum, pulse_length, metres)
}

#[unsafe(no_mangle)]
pub extern "C" fn lidar_pulses(count: u32, datum: u32) -> i32
    ensures { result ≡ pulses count datum }
{
    c_placing::lidar_pulses(count, datum)
}
