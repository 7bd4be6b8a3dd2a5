// Ouster captures, and the settings of two Ouster sensors, as include/lidar.h declares the calls.

#![tactic(auto)]

ghost use Rattle.std.specs.Prelude.{◌≡◌};
ghost use Rattle.points.specs.ReadInto.{outcome};
ghost use Rattle.record_rule.specs.Reading.{usual};
ghost use Rattle.ouster_settings.specs.Settings.{os1_64, os_128, os1_64_elevations, os_128_elevations};
ghost use Rattle.ouster.specs.Ouster.{read_ouster};
ghost use Rattle.c_form.specs.Reading.{reading_of};
ghost use Rattle.c_ouster.specs.Settings.{settings_of};

use c_form::{reading_of, tell};
use ouster::OusterSettings;

#[unsafe(no_mangle)]
pub extern "C" fn lidar_read_ouster(
    data: &[u8],
    columns_per_packet: usize,
    pixels_per_column: usize,
    lidar_port: u16,
    beam_altitudes: &[f32],
    numbers: &mut [f32],
    kinds: &mut [u8],
    points: &mut usize,
    frames: &mut usize,
) -> u8
    ensures { outcome result points.new frames.new numbers.new kinds.new ≡ read_ouster usual (settings_of columns_per_packet pixels_per_column lidar_port) beam_altitudes.now «data».now numbers.old kinds.old }
{
    let settings = settings_of(columns_per_packet, pixels_per_column, lidar_port);
    tell(
        ouster::read_ouster(data, settings, beam_altitudes, numbers, kinds),
        points,
        frames,
    )
}

#[unsafe(no_mangle)]
pub extern "C" fn lidar_read_ouster_as(
    data: &[u8],
    savefile: bool,
    columns_per_packet: usize,
    pixels_per_column: usize,
    lidar_port: u16,
    beam_altitudes: &[f32],
    numbers: &mut [f32],
    kinds: &mut [u8],
    points: &mut usize,
    frames: &mut usize,
) -> u8
    ensures { outcome result points.new frames.new numbers.new kinds.new ≡ read_ouster (reading_of savefile) (settings_of columns_per_packet pixels_per_column lidar_port) beam_altitudes.now «data».now numbers.old kinds.old }
{
    let reading = reading_of(savefile);
    let settings = settings_of(columns_per_packet, pixels_per_column, lidar_port);
    tell(
        ouster::read_ouster_as(data, reading, settings, beam_altitudes, numbers, kinds),
        points,
        frames,
    )
}

// C has the settings as three numbers.
fn settings_of(
    columns_per_packet: usize,
    pixels_per_column: usize,
    lidar_port: u16,
) -> OusterSettings
    ensures { result ≡ settings_of columns_per_packet pixels_per_column lidar_port }
{
    OusterSettings {
        columns_per_packet,
        pixels_per_column,
        lidar_port,
    }
}

#[unsafe(no_mangle)]
pub extern "C" fn lidar_os1_64(
    columns_per_packet: &mut usize,
    pixels_per_column: &mut usize,
    lidar_port: &mut u16,
    beam_altitudes: &mut [f32; 64],
)
    ensures settings { settings_of columns_per_packet.new pixels_per_column.new lidar_port.new ≡ os1_64 }
    ensures altitudes { beam_altitudes.new ≡ os1_64_elevations }
{
    let settings = OusterSettings::os1_64();
    tell_settings(settings, columns_per_packet, pixels_per_column, lidar_port);
    *beam_altitudes = OusterSettings::os1_64_altitudes();
}

#[unsafe(no_mangle)]
pub extern "C" fn lidar_os_128(
    columns_per_packet: &mut usize,
    pixels_per_column: &mut usize,
    lidar_port: &mut u16,
    beam_altitudes: &mut [f32; 128],
)
    ensures settings { settings_of columns_per_packet.new pixels_per_column.new lidar_port.new ≡ os_128 }
    ensures altitudes { beam_altitudes.new ≡ os_128_elevations }
{
    let settings = OusterSettings::os_128();
    tell_settings(settings, columns_per_packet, pixels_per_column, lidar_port);
    *beam_altitudes = OusterSettings::os_128_altitudes();
}

// The settings go out by reference, number by number.
fn tell_settings(
    settings: OusterSettings,
    columns_per_packet: &mut usize,
    pixels_per_column: &mut usize,
    lidar_port: &mut u16,
)
    ensures { settings_of columns_per_packet.new pixels_per_column.new lidar_port.new ≡ settings }
{
    *columns_per_packet = settings.columns_per_packet;
    *pixels_per_column = settings.pixels_per_column;
    *lidar_port = settings.lidar_port;
}
