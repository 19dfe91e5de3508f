// unmap, flush, map and grant over ranges.
ghost use Rattle.std.specs.Prelude.{◌≡◌, []};
ghost use Rattle.lend.specs.Ranges.{UnmapRange, FlushRange, MapRange, GrantRange};
ghost use Rattle.image.specs.Answered.{left, range_answer_to};
ghost use Rattle.board.specs.Model.{sizes};

use crate::finish::finish_range;
use board::Shape;
use board_image::read::read_image;
use calls::flush_range::flush_range as flush_range_on;
use calls::grant_range::grant_range as grant_range_on;
use calls::map_range::map_range as map_range_on;
use calls::unmap_range::unmap_range as unmap_range_on;

pub fn unmap_range<
    const SPACES: usize,
    const PAGES: usize,
    const SLOTS: usize,
    const PLACES: usize,
>(
    shape: Shape<SPACES, PAGES, SLOTS, PLACES>,
    image: &mut [u8],
    space: u32,
    base: u32,
    size: u32,
    rights: u32,
    out: &mut [u32; 4],
) -> u32
    ensures { left result image.new [] out.new ≡ range_answer_to (sizes SPACES PAGES PLACES) (UnmapRange space base size rights) image.old }
{
    let mut b = read_image(shape, image);
    let answer = unmap_range_on(&mut b, space, base, size, rights);
    finish_range(image, &b, answer, out)
}

pub fn flush_range<
    const SPACES: usize,
    const PAGES: usize,
    const SLOTS: usize,
    const PLACES: usize,
>(
    shape: Shape<SPACES, PAGES, SLOTS, PLACES>,
    image: &mut [u8],
    space: u32,
    base: u32,
    size: u32,
    rights: u32,
    out: &mut [u32; 4],
) -> u32
    ensures { left result image.new [] out.new ≡ range_answer_to (sizes SPACES PAGES PLACES) (FlushRange space base size rights) image.old }
{
    let mut b = read_image(shape, image);
    let answer = flush_range_on(&mut b, space, base, size, rights);
    finish_range(image, &b, answer, out)
}

pub fn map_range<const SPACES: usize, const PAGES: usize, const SLOTS: usize, const PLACES: usize>(
    shape: Shape<SPACES, PAGES, SLOTS, PLACES>,
    image: &mut [u8],
    from: u32,
    base: u32,
    size: u32,
    to: u32,
    at_base: u32,
    at_size: u32,
    rights: u32,
    out: &mut [u32; 4],
) -> u32
    ensures { left result image.new [] out.new ≡ range_answer_to (sizes SPACES PAGES PLACES) (MapRange from base size to at_base at_size rights) image.old }
{
    let mut b = read_image(shape, image);
    let answer = map_range_on(&mut b, from, base, size, to, at_base, at_size, rights);
    finish_range(image, &b, answer, out)
}

pub fn grant_range<
    const SPACES: usize,
    const PAGES: usize,
    const SLOTS: usize,
    const PLACES: usize,
>(
    shape: Shape<SPACES, PAGES, SLOTS, PLACES>,
    image: &mut [u8],
    from: u32,
    base: u32,
    size: u32,
    to: u32,
    at_base: u32,
    at_size: u32,
    rights: u32,
    out: &mut [u32; 4],
) -> u32
    ensures { left result image.new [] out.new ≡ range_answer_to (sizes SPACES PAGES PLACES) (GrantRange from base size to at_base at_size rights) image.old }
{
    let mut b = read_image(shape, image);
    let answer = grant_range_on(&mut b, from, base, size, to, at_base, at_size, rights);
    finish_range(image, &b, answer, out)
}
