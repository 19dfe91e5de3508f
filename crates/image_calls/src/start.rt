// The start board, and the test of soundness.
ghost use Rattle.std.specs.Prelude.{◌≡◌, []};
ghost use Rattle.image.specs.Answered.{left, start_answer, sound_number};
ghost use Rattle.board.specs.Model.{sizes};

use board::Shape;
use board_image::image_bytes;
use board_image::read::read_image;
use board_image::write::write_image;
use calls::start::start as start_of;

// The start board is written over any bytes of the right length.
pub fn start<const SPACES: usize, const PAGES: usize, const SLOTS: usize, const PLACES: usize>(
    shape: Shape<SPACES, PAGES, SLOTS, PLACES>,
    image: &mut [u8],
    out: &mut [u32; 4],
) -> u32
    ensures { left result image.new [] out.new ≡ start_answer (sizes SPACES PAGES PLACES) image.old }
{
    *out = [0; 4];
    let fits = image.len() == image_bytes(shape);
    write_image(image, &start_of(shape));
    u32::from(!fits)
}

// 1 where the image is a sound board's, else 0.
pub fn sound<const SPACES: usize, const PAGES: usize, const SLOTS: usize, const PLACES: usize>(
    shape: Shape<SPACES, PAGES, SLOTS, PLACES>,
    image: &[u8],
) -> u32
    ensures { result ≡ sound_number (sizes SPACES PAGES PLACES) image.now }
{
    u32::from(read_image(shape, image).sound())
}
