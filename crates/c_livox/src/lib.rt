// Both Livox forms, as include/lidar.h declares the calls.

#![tactic(auto)]

ghost use Rattle.std.specs.Prelude.{◌≡◌};
ghost use Rattle.points.specs.ReadInto.{outcome};
ghost use Rattle.livox_file.specs.Livox.{read_livox};
ghost use Rattle.livox_form.specs.declared.Form.TheVariants.{Lvx, Lvx2};

use c_form::tell;
use livox::read_livox;
use livox_form::Form;

#[tactic(auto, unfolding(livox_file::specs::Livox::points))]
#[unsafe(no_mangle)]
pub extern "C" fn lidar_read_lvx(
    data: &[u8],
    numbers: &mut [f32],
    kinds: &mut [u8],
    points: &mut usize,
    frames: &mut usize,
) -> u8
    ensures { outcome result points.new frames.new numbers.new kinds.new ≡ read_livox Lvx «data».now numbers.old kinds.old }
{
    tell(read_livox(Form::Lvx, data, numbers, kinds), points, frames)
}

#[tactic(auto, unfolding(livox_file::specs::Livox::points))]
#[unsafe(no_mangle)]
pub extern "C" fn lidar_read_lvx2(
    data: &[u8],
    numbers: &mut [f32],
    kinds: &mut [u8],
    points: &mut usize,
    frames: &mut usize,
) -> u8
    ensures { outcome result points.new frames.new numbers.new kinds.new ≡ read_livox Lvx2 «data».now numbers.old kinds.old }
{
    tell(read_livox(Form::Lvx2, data, numbers, kinds), points, frames)
}
