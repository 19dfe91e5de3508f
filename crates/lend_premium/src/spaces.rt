// Made by tools/models.py from crates/lend_entry/src/spaces.rt: change that file.
// create and delete.
ghost use Rattle.std.specs.Prelude.{◌≡◌, []};
ghost use Rattle.lend.specs.Calls.{Create, Delete};
ghost use Rattle.image.specs.Answered.{left, answer_to};
ghost use Rattle.lend.specs.Sizes.{premium as sizes};

use board::PREMIUM;
use image_calls::spaces;

#[unsafe(no_mangle)]
pub extern "C" fn lend_premium_create(image: &mut [u8], space: u32, out: &mut [u32; 4]) -> u32
    ensures { left result image.new [] out.new ≡ answer_to sizes (Create space) image.old [] }
{
    spaces::create(PREMIUM, image, space, out)
}

#[unsafe(no_mangle)]
pub extern "C" fn lend_premium_delete(image: &mut [u8], space: u32, out: &mut [u32; 4]) -> u32
    ensures { left result image.new [] out.new ≡ answer_to sizes (Delete space) image.old [] }
{
    spaces::delete(PREMIUM, image, space, out)
}
