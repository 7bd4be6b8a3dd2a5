// What a recording was made with, and the made-ready settings of two sensors.

ghost use Rattle.std.specs.Prelude.{◌≡◌, true, false, OnOk, IfErr};
ghost use Rattle.answers.specs.declared.Refusal.TheVariants.{BadSettings};
ghost use Rattle.ouster_settings.specs.Settings.{is_beam_count, bad_settings, os1_64, os_128, os1_64_elevations, os_128_elevations};

use points::Refusal;
use std::array;

#[derive(Clone, Copy, Debug, PartialEq, Eq)]
pub struct OusterSettings {
    // Azimuth columns in a packet: 1 to 64.
    pub columns_per_packet: usize,
    // Beams, which are the channels of a column: 16, 32, 64 or 128.
    pub pixels_per_column: usize,
    // The destination port of the packets; 0 asks for every port.
    pub lidar_port: u16,
}

impl OusterSettings {
    pub const LIDAR_PORT: u16 = 7502;

    pub const COLUMNS_PER_PACKET: usize = 16;

    // Check 2, where so many elevations are lent.
    #[tactic(auto, unfolding(crate::specs::Settings::bad_settings))]
    pub fn check(self, altitudes: usize) -> Result<(), Refusal>
        ensures good { OnOk result (bad_settings self altitudes ≡ false) }
        ensures bad { IfErr result (λ e. (bad_settings self altitudes ≡ true) × (e ≡ BadSettings)) }
    {
        let columns = self.columns_per_packet;
        let beams = self.pixels_per_column;
        if !is_beam_count(beams) || columns < 1 || 64 < columns || altitudes < beams {
            return Err(Refusal::BadSettings);
        }
        Ok(())
    }

    // Made-ready settings, a function for each sensor by its name, as lidar.rs has them.
    pub fn os1_64() -> Self
        ensures { result ≡ os1_64 }
    {
        Self {
            columns_per_packet: Self::COLUMNS_PER_PACKET,
            pixels_per_column: 64,
            lidar_port: Self::LIDAR_PORT,
        }
    }

    pub fn os_128() -> Self
        ensures { result ≡ os_128 }
    {
        Self {
            columns_per_packet: Self::COLUMNS_PER_PACKET,
            pixels_per_column: 128,
            lidar_port: Self::LIDAR_PORT,
        }
    }

    // The elevation of each beam, in degrees, from the top down.
    pub fn os1_64_altitudes() -> [f32; 64]
        ensures { result ≡ os1_64_elevations }
    {
        OS1_64_ALTITUDES
    }

    pub fn os_128_altitudes() -> [f32; 128]
        ensures { result ≡ os_128_elevations }
    {
        array::from_fn(|i| 22.5 - (i as f32 / 127.0) * 45.0)
    }
}

fn is_beam_count(beams: usize) -> bool
    ensures { result ≡ is_beam_count beams }
{
    matches!(beams, 16 | 32 | 64 | 128)
}

const OS1_64_ALTITUDES: [f32; 64] = [
    16.611, 16.084, 15.557, 15.029, 14.502, 13.975, 13.447, 12.920, 12.393, 11.865, 11.338, 10.811,
    10.283, 9.756, 9.229, 8.701, 8.174, 7.647, 7.119, 6.592, 6.065, 5.537, 5.010, 4.483, 3.955,
    3.428, 2.901, 2.373, 1.846, 1.319, 0.791, 0.264, -0.264, -0.791, -1.319, -1.846, -2.373,
    -2.901, -3.428, -3.955, -4.483, -5.010, -5.537, -6.065, -6.592, -7.119, -7.647, -8.174, -8.701,
    -9.229, -9.756, -10.283, -10.811, -11.338, -11.865, -12.393, -12.920, -13.447, -13.975,
    -14.502, -15.029, -15.557, -16.084, -16.611,
];
