// The listing of a board, written and read.
ghost use Rattle.std.specs.Prelude.{◌≡◌, []};
ghost use Rattle.image.specs.Answered.{left};
ghost use Rattle.listing_image.specs.Listed.{listed, write_answer, read_answer};
ghost use Rattle.board.specs.Model.{sizes};

use board::Shape;
use board_image::image_bytes;
use board_image::read::read_image;
use board_image::write::write_image;
use board_listing::read::read_or_start;
use board_listing::write::write_listing as write_board;
use lend::Refusal;

// The image is only read.
pub fn write_listing<
    const SPACES: usize,
    const PAGES: usize,
    const SLOTS: usize,
    const PLACES: usize,
>(
    shape: Shape<SPACES, PAGES, SLOTS, PLACES>,
    image: &[u8],
    text: &mut [u8],
    out: &mut [u32; 4],
) -> u32
    ensures { listed result text.new out.new ≡ write_answer (sizes SPACES PAGES PLACES) image.now text.old }
{
    let (number, length) = match write_board(&read_image(shape, image), text) {
        Ok(length) => (0, length as u32),
        Err(refusal) => (u32::from(refusal), 0),
    };
    *out = [length, 0, 0, 0];
    number
}

// The board that was read, or the start board, is written over any image of the right length.
pub fn read_listing<
    const SPACES: usize,
    const PAGES: usize,
    const SLOTS: usize,
    const PLACES: usize,
>(
    shape: Shape<SPACES, PAGES, SLOTS, PLACES>,
    image: &mut [u8],
    text: &[u8],
    out: &mut [u32; 4],
) -> u32
    ensures { left result image.new [] out.new ≡ read_answer (sizes SPACES PAGES PLACES) text.now image.old }
{
    *out = [0; 4];
    if image.len() != image_bytes(shape) {
        return u32::from(Refusal::Unsound);
    }
    let read = read_or_start(shape, text);
    write_image(image, &read.board);
    read.refused.map_or(0, u32::from)
}
