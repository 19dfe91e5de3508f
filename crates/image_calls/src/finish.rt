// The last part of every call.
ghost use Rattle.std.specs.Prelude.{◌≡◌, []};
ghost use Rattle.lend.specs.Refusals.{answer_of};
ghost use Rattle.image.specs.Answered.{left, finishing};
ghost use Rattle.board.specs.Model.{sizes};
ghost use Rattle.board.specs.Board.{tables};
ghost use Rattle.calls.specs.Progress.{range_outcome};
ghost use Rattle.image_calls.specs.Fields.{fields_of, range_finished};

use board::Board;
use board_image::write::write_image;
use calls::progress::Progress;
use lend::Refusal;

// The out fields are filled, and the board is written where the number is 0. A reply is the number, and the fields.
pub(crate) fn leave<
    const SPACES: usize,
    const PAGES: usize,
    const SLOTS: usize,
    const PLACES: usize,
>(
    image: &mut [u8],
    b: &Board<SPACES, PAGES, SLOTS, PLACES>,
    reply: (u32, (u32, u32, u32)),
    out: &mut [u32; 4],
) -> u32
    ensures { left result image.new [] out.new ≡ finishing (sizes SPACES PAGES PLACES) (tables b.now) reply.0 reply.1.0 reply.1.1 reply.1.2 image.old }
{
    let (number, (first, second, third)) = reply;
    *out = [first, second, third, 0];
    if number != 0 {
        return number;
    }
    write_image(image, b);
    0
}

// A call that is done fills the out fields and writes the board; a refused one leaves the image, and every field 0.
pub(crate) fn finish<
    const SPACES: usize,
    const PAGES: usize,
    const SLOTS: usize,
    const PLACES: usize,
>(
    image: &mut [u8],
    b: &Board<SPACES, PAGES, SLOTS, PLACES>,
    answer: Result<(u32, u32, u32), Refusal>,
    out: &mut [u32; 4],
) -> u32
    ensures { left result image.new [] out.new ≡ finishing (sizes SPACES PAGES PLACES) (tables b.now) (answer_of answer) (fields_of answer).0 (fields_of answer).1 (fields_of answer).2 image.old }
{
    match answer {
        Ok(fields) => leave(image, b, (0, fields), out),
        Err(refusal) => leave(image, b, (u32::from(refusal), (0, 0, 0)), out),
    }
}

// The last part of a call over ranges: what was done stands whatever the number, but for 1, where the bytes may be no image.
pub(crate) fn finish_range<
    const SPACES: usize,
    const PAGES: usize,
    const SLOTS: usize,
    const PLACES: usize,
>(
    image: &mut [u8],
    b: &Board<SPACES, PAGES, SLOTS, PLACES>,
    answer: Result<Progress, Refusal>,
    out: &mut [u32; 4],
) -> u32
    ensures { left result image.new [] out.new ≡ range_finished (sizes SPACES PAGES PLACES) (range_outcome (sizes SPACES PAGES PLACES) answer (tables b.now)) image.old }
{
    let (number, fields) = match answer {
        Ok(run) => match run.refused {
            None => (0, [run.done, PAGES as u32, run.emptied, 0]),
            Some((offset, refusal)) => (u32::from(refusal), [run.done, offset, run.emptied, 0]),
        },
        Err(refusal) => (u32::from(refusal), [0; 4]),
    };
    *out = fields;
    if number != 1 {
        write_image(image, b);
    }
    number
}
