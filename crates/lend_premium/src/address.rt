// Made by tools/models.py from crates/lend_entry/src/address.rt: change that file.
// translate, load and store.
ghost use Rattle.std.specs.Prelude.{◌≡◌, []};
ghost use Rattle.lend.specs.Calls.{Translate, Load, Store};
ghost use Rattle.image.specs.Answered.{left, answer_to};
ghost use Rattle.lend.specs.Sizes.{premium as sizes};

use board::PREMIUM;
use image_calls::address;

#[unsafe(no_mangle)]
pub extern "C" fn lend_premium_translate(
    image: &mut [u8],
    space: u32,
    address: u32,
    rights: u32,
    out: &mut [u32; 4],
) -> u32
    ensures { left result image.new [] out.new ≡ answer_to sizes (Translate space address rights) image.old [] }
{
    address::translate(PREMIUM, image, space, address, rights, out)
}

// The memory is only read.
#[unsafe(no_mangle)]
pub extern "C" fn lend_premium_load(
    image: &mut [u8],
    memory: &[u8],
    space: u32,
    address: u32,
    out: &mut [u32; 4],
) -> u32
    ensures { left result image.new memory.now out.new ≡ answer_to sizes (Load space address) image.old memory.now }
{
    address::load(PREMIUM, image, memory, space, address, out)
}

#[unsafe(no_mangle)]
pub extern "C" fn lend_premium_store(
    image: &mut [u8],
    memory: &mut [u8],
    space: u32,
    address: u32,
    value: u8,
    out: &mut [u32; 4],
) -> u32
    ensures { left result image.new memory.new out.new ≡ answer_to sizes (Store space address value) image.old memory.old }
{
    address::store(PREMIUM, image, memory, space, address, value, out)
}
