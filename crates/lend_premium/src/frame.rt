// Made by tools/models.py from crates/lend_entry/src/frame.rt: change that file.
// The counts of a frame.
ghost use Rattle.std.specs.Prelude.{◌≡◌, []};
ghost use Rattle.image.specs.Answered.{left, frame_answer};
ghost use Rattle.lend.specs.Sizes.{premium as sizes};

use board::PREMIUM;
use image_calls::frame;

// The image is only read.
#[unsafe(no_mangle)]
pub extern "C" fn lend_premium_frame(image: &[u8], frame: u32, out: &mut [u32; 4]) -> u32
    ensures { left result image.now [] out.new ≡ frame_answer sizes frame image.now }
{
    frame::frame(PREMIUM, image, frame, out)
}
