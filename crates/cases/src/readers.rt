// The readers, and what they tell.

use crate::parameters;
use case_words::{Case, Number, Told};
use console::Console;
use lidar::{Counts, OusterSettings, Refusal};
use std::io::Write;

pub(crate) fn tell_velodyne<R: Eprint, W: Write>(
    out: &mut Console<'_, R, W>,
    case: &Case<'_>,
    data: &[u8],
) {
    let reading = parameters::reading(case, 4);
    tell(out, case, [7.0; 24], |numbers, kinds| match reading {
        Some(reading) => lidar::read_velodyne_as(data, reading, numbers, kinds),
        None => lidar::read_velodyne(data, numbers, kinds),
    });
}

pub(crate) fn tell_ouster<R: Eprint, W: Write>(
    out: &mut Console<'_, R, W>,
    case: &Case<'_>,
    data: &[u8],
    settings: OusterSettings,
    altitudes: &[f32],
) {
    let reading = parameters::reading(case, 4);
    tell(out, case, [7.0; 24], |numbers, kinds| match reading {
        Some(reading) => {
            lidar::read_ouster_as(data, reading, settings, altitudes, numbers, kinds)
        }
        None => lidar::read_ouster(data, settings, altitudes, numbers, kinds),
    });
}

// Tells what a reader answers that is lent the case's room, and both slices as it leaves them.
pub(crate) fn tell<
    R: Eprint,
    W: Write,
    T: Number,
    F: FnOnce(&mut [T], &mut [u8]) -> Result<Counts, Refusal>,
>(out: &mut Console<'_, R, W>, case: &Case<'_>, mut numbers: [T; 24], read: F)
    requires { F.IsAlwaysCallable read }
{
    let mut kinds = [9u8; 8];
    let room = parameters::room(case);
    let answer = read(&mut numbers[..room * 3], &mut kinds[..room]);
    tell_answer(out, answer, &kinds[..room]);
    tell_numbers(out, &numbers[..room * 3]);
}

// The number, the points, the frames, and the kinds.
fn tell_answer<R: Eprint, W: Write>(
    out: &mut Console<'_, R, W>,
    answer: Result<Counts, Refusal>,
    kinds: &[u8],
) {
    out.print_next(answers::number_of(answer));
    out.print_next(answers::points_of(answer));
    out.print_next(answers::frames_of(answer));
    out.write(b" kinds");
    for kind in kinds {
        out.print_next(*kind);
    }
}

// A bar stands before the three numbers of each point.
fn tell_numbers<R: Eprint, W: Write, T: Number>(out: &mut Console<'_, R, W>, numbers: &[T]) {
    for point in numbers.chunks(3) {
        out.write(b" |");
        for number in point {
            match number.pattern() {
                Some(bits) => out.print_next(Told(Some(bits))),
                // In one write, so that a failure is told once.
                None => out.write(b" nan"),
            };
        }
    }
}
