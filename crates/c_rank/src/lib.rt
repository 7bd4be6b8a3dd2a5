// The stored reading of a rank in a Livox file, and its placing, as include/lidar.h declares the
// calls.

#![tactic(auto)]

ghost use Rattle.std.specs.Prelude.{◌≡◌, slice_get};
ghost use Rattle.livox_header.specs.Header.{checks};
ghost use Rattle.livox_file.specs.Livox.{stored};
ghost use Rattle.livox_rank.specs.Ranks.{of_stored_answer, reading_of_rank};
ghost use Rattle.placing.specs.Placing.{place};
ghost use Rattle.placing.specs.Accuracy.{Accurate};
ghost use Rattle.placing_in_file.specs.InFile.{by_rank};
ghost use Rattle.c_placing.specs.Placed.{received, tell_placed};
ghost use Rattle.c_rank.specs.StoredNumbers.{form_of_flag, stored_numbers, tell_stored};

use answers::Refusal;
use livox_form::Form;
use livox_rank::stored_reading;
use livox_stored::StoredReading;
use placing_in_file::place_in_file;

#[unsafe(no_mangle)]
pub extern "C" fn lidar_stored_reading(
    data: &[u8],
    lvx2: bool,
    rank: usize,
    stored: &mut u8,
    first: &mut i64,
    second: &mut i64,
    third: &mut i64,
) -> u8
    ensures value { result ≡ (reading_of_rank (form_of_flag lvx2) «data».now rank).0 }
    ensures told { stored_numbers stored.new first.new second.new third.new ≡ tell_stored (reading_of_rank (form_of_flag lvx2) «data».now rank).1 }
{
    let answer = stored_reading(form_of_flag(lvx2), data, rank);
    (*stored, *first, *second, *third) = numbers_of(answer);
    answers::number_of(answer)
}

#[unsafe(no_mangle)]
pub extern "C" fn lidar_place_in_file(
    data: &[u8],
    lvx2: bool,
    rank: usize,
    count: u32,
    datum: u32,
    pulse_length: u32,
    metres: &mut f32,
) -> u8
    ensures placed { (result, metres.new) ≡ tell_placed (place (by_rank (form_of_flag lvx2) «data».now rank) count datum pulse_length) metres.old }
    ensures accurate { Accurate (checks (form_of_flag lvx2) «data».now) (slice_get (stored (form_of_flag lvx2) «data».now) rank) count datum pulse_length (received (result, metres.new)) }
{
    let belt = c_placing::belt(count, datum, pulse_length);
    let form = form_of_flag(lvx2);
    c_placing::tell(place_in_file(form, data, rank, belt), metres)
}

// C names the form by a flag.
fn form_of_flag(lvx2: bool) -> Form
    ensures { result ≡ form_of_flag lvx2 }
{
    if lvx2 { Form::Lvx2 } else { Form::Lvx }
}

// C has no enum with values: a number says the kind, and three its numbers. Where there is no reading all are 0.
fn numbers_of(answer: Result<StoredReading, Refusal>) -> (u8, i64, i64, i64)
    ensures { stored_numbers result.0 result.1 result.2 result.3 ≡ tell_stored (of_stored_answer answer).1 }
{
    match answer {
        Ok(StoredReading::Millimetres(x, y, z)) => (
            1,
            i64::from(x.0),
            i64::from(y.0),
            i64::from(z.0),
        ),
        Ok(StoredReading::TenMillimetres(x, y, z)) => (
            2,
            i64::from(x.0),
            i64::from(y.0),
            i64::from(z.0),
        ),
        Ok(
            StoredReading::Spherical {
                depth,
                zenith,
                azimuth,
            },
        ) => (
            3,
            i64::from(depth.0),
            i64::from(zenith.0),
            i64::from(azimuth.0),
        ),
        Ok(StoredReading::Float(x, y, z)) => (4, i64::from(x), i64::from(y), i64::from(z)),
        Err(_) => (0, 0, 0, 0),
    }
}
