// A sensor: settings that are not refused, with the elevations of its beams.

ghost use Rattle.std.specs.Prelude.{◌≡◌, true, false, length, IfOk, IfErr};
ghost use Rattle.answers.specs.declared.Refusal.TheVariants.{BadSettings};
ghost use Rattle.ouster_settings.specs.Settings.{bad_settings};

use crate::settings::OusterSettings;
use points::Refusal;

#[derive(Clone, Copy)]
pub struct Sensor<'a> {
    pub settings: OusterSettings,
    // The elevation of each beam, in degrees; more may be lent than there are beams.
    pub beam_altitudes: &'a [f32],
    ghost good: { bad_settings settings (length beam_altitudes.now) ≡ false },
}

impl<'a> Sensor<'a> {
    // Check 2, which every reader of Ouster data makes.
    pub fn new(settings: OusterSettings, beam_altitudes: &'a [f32]) -> Result<Sensor<'a>, Refusal>
        ensures accepted { IfOk result (λ s. (s.settings ≡ settings) × (s.beam_altitudes.now ≡ beam_altitudes.now)) }
        ensures refused { IfErr result (λ e. (bad_settings settings (length beam_altitudes.now) ≡ true) × (e ≡ BadSettings)) }
    {
        settings.check(beam_altitudes.len())?;
        Ok(Sensor {
            settings,
            beam_altitudes,
        })
    }
}
