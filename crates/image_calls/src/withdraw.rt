// unmap and flush.
ghost use Rattle.std.specs.Prelude.{◌≡◌, []};
ghost use Rattle.lend.specs.Calls.{Unmap, Flush};
ghost use Rattle.image.specs.Answered.{left, answer_to};
ghost use Rattle.board.specs.Model.{sizes};

use crate::finish::finish;
use board::Shape;
use board_image::read::read_image;
use calls::flush::flush as flush_on;
use calls::unmap::unmap as unmap_on;

pub fn unmap<const SPACES: usize, const PAGES: usize, const SLOTS: usize, const PLACES: usize>(
    shape: Shape<SPACES, PAGES, SLOTS, PLACES>,
    image: &mut [u8],
    space: u32,
    page: u32,
    rights: u32,
    out: &mut [u32; 4],
) -> u32
    ensures { left result image.new [] out.new ≡ answer_to (sizes SPACES PAGES PLACES) (Unmap space page rights) image.old [] }
{
    let mut b = read_image(shape, image);
    let answer = unmap_on(&mut b, space, page, rights);
    finish(image, &b, answer.map(|emptied| (emptied, 0, 0)), out)
}

pub fn flush<const SPACES: usize, const PAGES: usize, const SLOTS: usize, const PLACES: usize>(
    shape: Shape<SPACES, PAGES, SLOTS, PLACES>,
    image: &mut [u8],
    space: u32,
    page: u32,
    rights: u32,
    out: &mut [u32; 4],
) -> u32
    ensures { left result image.new [] out.new ≡ answer_to (sizes SPACES PAGES PLACES) (Flush space page rights) image.old [] }
{
    let mut b = read_image(shape, image);
    let answer = flush_on(&mut b, space, page, rights);
    finish(image, &b, answer.map(|emptied| (emptied, 0, 0)), out)
}
