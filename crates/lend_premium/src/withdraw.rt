// Made by tools/models.py from crates/lend_entry/src/withdraw.rt: change that file.
// unmap and flush.
ghost use Rattle.std.specs.Prelude.{◌≡◌, []};
ghost use Rattle.lend.specs.Calls.{Unmap, Flush};
ghost use Rattle.image.specs.Answered.{left, answer_to};
ghost use Rattle.lend.specs.Sizes.{premium as sizes};

use board::PREMIUM;
use image_calls::withdraw;

#[unsafe(no_mangle)]
pub extern "C" fn lend_premium_unmap(
    image: &mut [u8],
    space: u32,
    page: u32,
    rights: u32,
    out: &mut [u32; 4],
) -> u32
    ensures { left result image.new [] out.new ≡ answer_to sizes (Unmap space page rights) image.old [] }
{
    withdraw::unmap(PREMIUM, image, space, page, rights, out)
}

#[unsafe(no_mangle)]
pub extern "C" fn lend_premium_flush(
    image: &mut [u8],
    space: u32,
    page: u32,
    rights: u32,
    out: &mut [u32; 4],
) -> u32
    ensures { left result image.new [] out.new ≡ answer_to sizes (Flush space page rights) image.old [] }
{
    withdraw::flush(PREMIUM, image, space, page, rights, out)
}
