// unmap, flush, map and grant over ranges.
ghost use Rattle.std.specs.Prelude.{◌≡◌, []};
ghost use Rattle.lend.specs.Ranges.{UnmapRange, FlushRange, MapRange, GrantRange};
ghost use Rattle.image.specs.Answered.{left, range_answer_to};
ghost use Rattle.lend.specs.Sizes.{entry as sizes};

use board::ENTRY;
use image_calls::ranges;

#[unsafe(no_mangle)]
pub extern "C" fn lend_entry_unmap_range(
    image: &mut [u8],
    space: u32,
    base: u32,
    size: u32,
    rights: u32,
    out: &mut [u32; 4],
) -> u32
    ensures { left result image.new [] out.new ≡ range_answer_to sizes (UnmapRange space base size rights) image.old }
{
    ranges::unmap_range(ENTRY, image, space, base, size, rights, out)
}

#[unsafe(no_mangle)]
pub extern "C" fn lend_entry_flush_range(
    image: &mut [u8],
    space: u32,
    base: u32,
    size: u32,
    rights: u32,
    out: &mut [u32; 4],
) -> u32
    ensures { left result image.new [] out.new ≡ range_answer_to sizes (FlushRange space base size rights) image.old }
{
    ranges::flush_range(ENTRY, image, space, base, size, rights, out)
}

#[unsafe(no_mangle)]
pub extern "C" fn lend_entry_map_range(
    image: &mut [u8],
    from: u32,
    base: u32,
    size: u32,
    to: u32,
    at_base: u32,
    at_size: u32,
    rights: u32,
    out: &mut [u32; 4],
) -> u32
    ensures { left result image.new [] out.new ≡ range_answer_to sizes (MapRange from base size to at_base at_size rights) image.old }
{
    ranges::map_range(
        ENTRY, image, from, base, size, to, at_base, at_size, rights, out,
    )
}

#[unsafe(no_mangle)]
pub extern "C" fn lend_entry_grant_range(
    image: &mut [u8],
    from: u32,
    base: u32,
    size: u32,
    to: u32,
    at_base: u32,
    at_size: u32,
    rights: u32,
    out: &mut [u32; 4],
) -> u32
    ensures { left result image.new [] out.new ≡ range_answer_to sizes (GrantRange from base size to at_base at_size rights) image.old }
{
    ranges::grant_range(
        ENTRY, image, from, base, size, to, at_base, at_size, rights, out,
    )
}
