// Placing the point of a rank in a Livox file.

#![tactic(auto)]

ghost use Rattle.std.specs.Prelude.{◌≡◌, slice_get};
ghost use Rattle.livox_header.specs.Header.{checks};
ghost use Rattle.livox_file.specs.Livox.{stored};
ghost use Rattle.placing.specs.Placing.{of_placed, place};
ghost use Rattle.placing.specs.Accuracy.{Accurate};
ghost use Rattle.placing_in_file.specs.InFile.{by_rank};

use answers::Refusal;
use livox_form::Form;
use livox_rank::stored_reading;
use placing::{Belt, place};

// The file's own refusals come first, then those of placing.
pub fn place_in_file(form: Form, data: &[u8], rank: usize, belt: Belt) -> Result<f32, Refusal>
    ensures placed { of_placed result ≡ place (by_rank form «data».now rank) belt.count.0 belt.datum.0 belt.pulse_length.0 }
    ensures accurate { Accurate (checks form «data».now) (slice_get (stored form «data».now) rank) belt.count.0 belt.datum.0 belt.pulse_length.0 (of_placed result) }
{
    let reading = stored_reading(form, data, rank)?;
    place(reading, belt)
}
