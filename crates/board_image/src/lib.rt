// A board as bytes: read from any bytes, and written over bytes of the right length.
#![tactic(auto)]

ghost use Rattle.std.specs.Prelude.{◌≡◌};
ghost use Rattle.image.specs.Image.{image_bytes as bytes_of_image};
ghost use Rattle.board.specs.Model.{sizes};

use board::Shape;

pub mod read;
pub mod write;

// How many bytes an image has: the slots, the live spaces, the places, the next place, the summary.
pub fn image_bytes<
    const SPACES: usize,
    const PAGES: usize,
    const SLOTS: usize,
    const PLACES: usize,
>(shape: Shape<SPACES, PAGES, SLOTS, PLACES>) -> usize
    ensures { result ≡ bytes_of_image (sizes SPACES PAGES PLACES) }
{
    4 * SLOTS + SPACES + 4 * PLACES + 1 + 8 * PAGES
}
