// Made by tools/models.py from crates/lend_entry/src/listed.rt: change that file.
// The listing of a board, written and read.
ghost use Rattle.std.specs.Prelude.{◌≡◌, []};
ghost use Rattle.image.specs.Answered.{left};
ghost use Rattle.listing_image.specs.Listed.{listed, write_answer, read_answer};
ghost use Rattle.lend.specs.Sizes.{premium as sizes};

use board::PREMIUM;
use image_calls::listed;

// The image is only read.
#[unsafe(no_mangle)]
pub extern "C" fn lend_premium_write_listing(
    image: &[u8],
    text: &mut [u8],
    out: &mut [u32; 4],
) -> u32
    ensures { listed result text.new out.new ≡ write_answer sizes image.now text.old }
{
    listed::write_listing(PREMIUM, image, text, out)
}

// The board that was read, or the start board, is written over any image of the right length.
#[unsafe(no_mangle)]
pub extern "C" fn lend_premium_read_listing(
    image: &mut [u8],
    text: &[u8],
    out: &mut [u32; 4],
) -> u32
    ensures { left result image.new [] out.new ≡ read_answer sizes text.now image.old }
{
    listed::read_listing(PREMIUM, image, text, out)
}
