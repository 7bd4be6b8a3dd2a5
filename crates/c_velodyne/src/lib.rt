// Velodyne captures and packets, as include/lidar.h declares the calls.

#![tactic(auto)]

ghost use Rattle.std.specs.Prelude.{◌≡◌, [], ◌∷◌};
ghost use Rattle.points.specs.ReadInto.{outcome, too_long, read_into};
ghost use Rattle.record_rule.specs.Reading.{usual};
ghost use Rattle.velodyne_angles.specs.Model.{model_of};
ghost use Rattle.velodyne_packet.specs.Packet.{packet_points};
ghost use Rattle.velodyne.specs.Velodyne.{read_velodyne};
ghost use Rattle.c_form.specs.Reading.{reading_of};
ghost use Rattle.c_velodyne.specs.Velodyne.{model_number};

use c_form::{reading_of, tell};
use velodyne::{
    VelodyneModel, decode_velodyne_packet, detect_velodyne_model, read_velodyne, read_velodyne_as,
};

#[unsafe(no_mangle)]
pub extern "C" fn lidar_read_velodyne_as(
    data: &[u8],
    savefile: bool,
    numbers: &mut [f32],
    kinds: &mut [u8],
    points: &mut usize,
    frames: &mut usize,
) -> u8
    ensures { outcome result points.new frames.new numbers.new kinds.new ≡ read_velodyne (reading_of savefile) «data».now numbers.old kinds.old }
{
    let reading = reading_of(savefile);
    tell(
        read_velodyne_as(data, reading, numbers, kinds),
        points,
        frames,
    )
}

#[unsafe(no_mangle)]
pub extern "C" fn lidar_read_velodyne(
    data: &[u8],
    numbers: &mut [f32],
    kinds: &mut [u8],
    points: &mut usize,
    frames: &mut usize,
) -> u8
    ensures { outcome result points.new frames.new numbers.new kinds.new ≡ read_velodyne usual «data».now numbers.old kinds.old }
{
    tell(read_velodyne(data, numbers, kinds), points, frames)
}

#[unsafe(no_mangle)]
pub extern "C" fn lidar_decode_velodyne_packet(
    payload: &[u8],
    numbers: &mut [f32],
    kinds: &mut [u8],
    points: &mut usize,
    frames: &mut usize,
) -> u8
    ensures { outcome result points.new frames.new numbers.new kinds.new ≡ read_into (too_long payload.now ∷ []) (packet_points payload.now) 0 numbers.old kinds.old }
{
    tell(
        decode_velodyne_packet(payload, numbers, kinds),
        points,
        frames,
    )
}

// C gets the model's number in include/lidar.h as a byte, since a C enum's size is its compiler's choice.
#[unsafe(no_mangle)]
pub extern "C" fn lidar_detect_velodyne_model(factory_byte: u8) -> u8
    ensures { result ≡ model_number (model_of factory_byte) }
{
    match detect_velodyne_model(factory_byte) {
        VelodyneModel::VLP16 => 0,
        VelodyneModel::HDL32E => 1,
        VelodyneModel::VLP32C => 2,
        VelodyneModel::Unknown => 3,
    }
}
