// translate, load and store.
ghost use Rattle.std.specs.Prelude.{◌≡◌, []};
ghost use Rattle.lend.specs.Calls.{Translate, Load, Store};
ghost use Rattle.image.specs.Answered.{left, answer_to};
ghost use Rattle.board.specs.Model.{sizes};
ghost use Rattle.access.specs.Answers.{translation_reply};
ghost use Rattle.image_calls.specs.Fields.{translate_told};

use crate::finish::{finish, leave};
use access::load::load as load_on;
use access::store::store as store_on;
use access::translate::{Translation, translate as translate_on};
use board::Shape;
use board_image::read::read_image;
use lend::Refusal;

// The number of a translate, and its fields: the address, whether the page was in the cache, and the links.
fn told(answer: Result<Translation, Refusal>) -> (u32, (u32, u32, u32))
    ensures { result ≡ translate_told (translation_reply answer) }
{
    match answer {
        Ok(found) => (0, (found.address, u32::from(found.hit), found.links)),
        Err(refusal) => (u32::from(refusal), (0, 0, 0)),
    }
}

pub fn translate<const SPACES: usize, const PAGES: usize, const SLOTS: usize, const PLACES: usize>(
    shape: Shape<SPACES, PAGES, SLOTS, PLACES>,
    image: &mut [u8],
    space: u32,
    address: u32,
    rights: u32,
    out: &mut [u32; 4],
) -> u32
    ensures { left result image.new [] out.new ≡ answer_to (sizes SPACES PAGES PLACES) (Translate space address rights) image.old [] }
{
    let mut b = read_image(shape, image);
    let answer = translate_on(&mut b, space, address, rights);
    leave(image, &b, told(answer), out)
}

// The memory is only read.
pub fn load<const SPACES: usize, const PAGES: usize, const SLOTS: usize, const PLACES: usize>(
    shape: Shape<SPACES, PAGES, SLOTS, PLACES>,
    image: &mut [u8],
    memory: &[u8],
    space: u32,
    address: u32,
    out: &mut [u32; 4],
) -> u32
    ensures { left result image.new memory.now out.new ≡ answer_to (sizes SPACES PAGES PLACES) (Load space address) image.old memory.now }
{
    let mut b = read_image(shape, image);
    let answer = load_on(&mut b, memory, space, address);
    finish(image, &b, answer.map(|byte| (u32::from(byte), 0, 0)), out)
}

pub fn store<const SPACES: usize, const PAGES: usize, const SLOTS: usize, const PLACES: usize>(
    shape: Shape<SPACES, PAGES, SLOTS, PLACES>,
    image: &mut [u8],
    memory: &mut [u8],
    space: u32,
    address: u32,
    value: u8,
    out: &mut [u32; 4],
) -> u32
    ensures { left result image.new memory.new out.new ≡ answer_to (sizes SPACES PAGES PLACES) (Store space address value) image.old memory.old }
{
    let mut b = read_image(shape, image);
    let answer = store_on(&mut b, memory, space, address, value);
    finish(image, &b, answer.map(|()| (0, 0, 0)), out)
}
