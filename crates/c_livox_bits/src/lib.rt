// Both Livox forms by pattern, as include/lidar.h declares the calls. In a crate of their own, since
// the reading of a point is then called from one loop, and compiled into it.

#![tactic(auto)]

ghost use Rattle.std.specs.Prelude.{◌≡◌};
ghost use Rattle.points.specs.ReadInto.{outcome};
ghost use Rattle.livox_file.specs.Livox.{read_livox_bits};
ghost use Rattle.livox_form.specs.declared.Form.TheVariants.{Lvx, Lvx2};

use c_form::tell;
use livox::read_livox;
use livox_form::Form;

#[tactic(auto, unfolding(livox_file::specs::Livox::point_bits))]
#[unsafe(no_mangle)]
pub extern "C" fn lidar_read_lvx_bits(
    data: &[u8],
    bits: &mut [u32],
    kinds: &mut [u8],
    points: &mut usize,
    frames: &mut usize,
) -> u8
    ensures { outcome result points.new frames.new bits.new kinds.new ≡ read_livox_bits Lvx «data».now bits.old kinds.old }
{
    tell(read_livox(Form::Lvx, data, bits, kinds), points, frames)
}

#[tactic(auto, unfolding(livox_file::specs::Livox::point_bits))]
#[unsafe(no_mangle)]
pub extern "C" fn lidar_read_lvx2_bits(
    data: &[u8],
    bits: &mut [u32],
    kinds: &mut [u8],
    points: &mut usize,
    frames: &mut usize,
) -> u8
    ensures { outcome result points.new frames.new bits.new kinds.new ≡ read_livox_bits Lvx2 «data».now bits.old kinds.old }
{
    tell(read_livox(Form::Lvx2, data, bits, kinds), points, frames)
}
