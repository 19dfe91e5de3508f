// Made by tools/models.py from crates/lend_entry/src/start.rt: change that file.
// The start board, and the test of soundness.
ghost use Rattle.std.specs.Prelude.{◌≡◌, []};
ghost use Rattle.image.specs.Answered.{left, start_answer, sound_number};
ghost use Rattle.lend.specs.Sizes.{premium as sizes};

use board::PREMIUM;
use image_calls::start;

// The start board is written over any bytes of the right length.
#[unsafe(no_mangle)]
pub extern "C" fn lend_premium_start(image: &mut [u8], out: &mut [u32; 4]) -> u32
    ensures { left result image.new [] out.new ≡ start_answer sizes image.old }
{
    start::start(PREMIUM, image, out)
}

// 1 where the image is a sound board's, else 0.
#[unsafe(no_mangle)]
pub extern "C" fn lend_premium_sound(image: &[u8]) -> u32
    ensures { result ≡ sound_number sizes image.now }
{
    start::sound(PREMIUM, image)
}
