// Made by tools/models.py from crates/lend_entry/src/lending.rt: change that file.
// map and grant.
ghost use Rattle.std.specs.Prelude.{◌≡◌, []};
ghost use Rattle.lend.specs.Calls.{Map, Grant};
ghost use Rattle.image.specs.Answered.{left, answer_to};
ghost use Rattle.lend.specs.Sizes.{premium as sizes};

use board::PREMIUM;
use image_calls::lending;

#[unsafe(no_mangle)]
pub extern "C" fn lend_premium_map(
    image: &mut [u8],
    from: u32,
    page: u32,
    to: u32,
    at: u32,
    rights: u32,
    out: &mut [u32; 4],
) -> u32
    ensures { left result image.new [] out.new ≡ answer_to sizes (Map from page to at rights) image.old [] }
{
    lending::map(PREMIUM, image, from, page, to, at, rights, out)
}

#[unsafe(no_mangle)]
pub extern "C" fn lend_premium_grant(
    image: &mut [u8],
    from: u32,
    page: u32,
    to: u32,
    at: u32,
    rights: u32,
    out: &mut [u32; 4],
) -> u32
    ensures { left result image.new [] out.new ≡ answer_to sizes (Grant from page to at rights) image.old [] }
{
    lending::grant(PREMIUM, image, from, page, to, at, rights, out)
}
