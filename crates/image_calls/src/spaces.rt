// create and delete.
ghost use Rattle.std.specs.Prelude.{◌≡◌, []};
ghost use Rattle.lend.specs.Calls.{Create, Delete};
ghost use Rattle.image.specs.Answered.{left, answer_to};
ghost use Rattle.board.specs.Model.{sizes};

use crate::finish::finish;
use board::Shape;
use board_image::read::read_image;
use calls::create::create as create_on;
use calls::delete::delete as delete_on;

pub fn create<const SPACES: usize, const PAGES: usize, const SLOTS: usize, const PLACES: usize>(
    shape: Shape<SPACES, PAGES, SLOTS, PLACES>,
    image: &mut [u8],
    space: u32,
    out: &mut [u32; 4],
) -> u32
    ensures { left result image.new [] out.new ≡ answer_to (sizes SPACES PAGES PLACES) (Create space) image.old [] }
{
    let mut b = read_image(shape, image);
    let answer = create_on(&mut b, space);
    finish(image, &b, answer.map(|emptied| (emptied, 0, 0)), out)
}

pub fn delete<const SPACES: usize, const PAGES: usize, const SLOTS: usize, const PLACES: usize>(
    shape: Shape<SPACES, PAGES, SLOTS, PLACES>,
    image: &mut [u8],
    space: u32,
    out: &mut [u32; 4],
) -> u32
    ensures { left result image.new [] out.new ≡ answer_to (sizes SPACES PAGES PLACES) (Delete space) image.old [] }
{
    let mut b = read_image(shape, image);
    let answer = delete_on(&mut b, space);
    finish(image, &b, answer.map(|emptied| (emptied, 0, 0)), out)
}
