// map and grant.
ghost use Rattle.std.specs.Prelude.{◌≡◌, []};
ghost use Rattle.lend.specs.Calls.{Map, Grant};
ghost use Rattle.image.specs.Answered.{left, answer_to};
ghost use Rattle.board.specs.Model.{sizes};

use crate::finish::finish;
use board::Shape;
use board_image::read::read_image;
use calls::grant::grant as grant_on;
use calls::map::map as map_on;

pub fn map<const SPACES: usize, const PAGES: usize, const SLOTS: usize, const PLACES: usize>(
    shape: Shape<SPACES, PAGES, SLOTS, PLACES>,
    image: &mut [u8],
    from: u32,
    page: u32,
    to: u32,
    at: u32,
    rights: u32,
    out: &mut [u32; 4],
) -> u32
    ensures { left result image.new [] out.new ≡ answer_to (sizes SPACES PAGES PLACES) (Map from page to at rights) image.old [] }
{
    let mut b = read_image(shape, image);
    let answer = map_on(&mut b, from, page, to, at, rights);
    finish(image, &b, answer.map(|emptied| (emptied, 0, 0)), out)
}

pub fn grant<const SPACES: usize, const PAGES: usize, const SLOTS: usize, const PLACES: usize>(
    shape: Shape<SPACES, PAGES, SLOTS, PLACES>,
    image: &mut [u8],
    from: u32,
    page: u32,
    to: u32,
    at: u32,
    rights: u32,
    out: &mut [u32; 4],
) -> u32
    ensures { left result image.new [] out.new ≡ answer_to (sizes SPACES PAGES PLACES) (Grant from page to at rights) image.old [] }
{
    let mut b = read_image(shape, image);
    let answer = grant_on(&mut b, from, page, to, at, rights);
    finish(image, &b, answer.map(|emptied| (emptied, 0, 0)), out)
}
