// KITTI files, as include/lidar.h declares the calls.

#![tactic(auto)]

ghost use Rattle.std.specs.Prelude.{◌≡◌};
ghost use Rattle.points.specs.ReadInto.{outcome};
ghost use Rattle.kitti.specs.Kitti.{read_kitti, read_kitti_bits};

use c_form::tell;
use kitti::read_kitti;

#[unsafe(no_mangle)]
pub extern "C" fn lidar_read_kitti(
    data: &[u8],
    numbers: &mut [f32],
    kinds: &mut [u8],
    points: &mut usize,
    frames: &mut usize,
) -> u8
    ensures { outcome result points.new frames.new numbers.new kinds.new ≡ read_kitti «data».now numbers.old kinds.old }
{
    tell(read_kitti(data, numbers, kinds), points, frames)
}

#[unsafe(no_mangle)]
pub extern "C" fn lidar_read_kitti_bits(
    data: &[u8],
    bits: &mut [u32],
    kinds: &mut [u8],
    points: &mut usize,
    frames: &mut usize,
) -> u8
    ensures { outcome result points.new frames.new bits.new kinds.new ≡ read_kitti_bits «data».now bits.old kinds.old }
{
    tell(read_kitti(data, bits, kinds), points, frames)
}
