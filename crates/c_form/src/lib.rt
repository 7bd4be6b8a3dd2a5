// What the C forms share: the reading named by a bool, and a reader's answer told by reference.

#![tactic(auto)]

ghost use Rattle.std.specs.Prelude.{◌≡◌};
ghost use Rattle.answers.specs.Answer.{number_of, points_of, frames_of};
ghost use Rattle.c_form.specs.Reading.{reading_of};

use answers::{Counts, Refusal};
use capture::Reading;

// C names a reading by a flag.
pub fn reading_of(savefile: bool) -> Reading
    ensures { result ≡ reading_of savefile }
{
    if savefile {
        Reading::Savefile
    } else {
        Reading::Rust
    }
}

// Gives back the number, and tells the points and the frames by reference.
pub fn tell(answer: Result<Counts, Refusal>, points: &mut usize, frames: &mut usize) -> u8
    ensures number { result ≡ number_of answer }
    ensures points { points.new ≡ points_of answer }
    ensures frames { frames.new ≡ frames_of answer }
{
    *points = answers::points_of(answer);
    *frames = answers::frames_of(answer);
    answers::number_of(answer)
}
