// The counts of a frame.
ghost use Rattle.std.specs.Prelude.{◌≡◌, []};
ghost use Rattle.image.specs.Answered.{left, frame_answer};
ghost use Rattle.board.specs.Model.{sizes};

use board::Shape;
use board_image::read::read_image;
use lend::Refusal;

// The image is only read.
pub fn frame<const SPACES: usize, const PAGES: usize, const SLOTS: usize, const PLACES: usize>(
    shape: Shape<SPACES, PAGES, SLOTS, PLACES>,
    image: &[u8],
    frame: u32,
    out: &mut [u32; 4],
) -> u32
    ensures { left result image.now [] out.new ≡ frame_answer (sizes SPACES PAGES PLACES) frame image.now }
{
    *out = [0; 4];
    let b = read_image(shape, image);
    if !b.sound() {
        return u32::from(Refusal::Unsound);
    }
    let i = frame as usize;
    if PAGES <= i {
        return u32::from(Refusal::NoPage);
    }
    let count = b.summary[i];
    *out = [count.held, count.read, count.write, count.execute].map(u32::from);
    0
}
