// A script run into a lent buffer, for every input and every buffer: from the start board, or from the board of a listing.
ghost use Rattle.std.specs.Prelude.{◌≡◌, ◌≤◌, length, take};
ghost use Rattle.text.specs.Writer.{writes};
ghost use Rattle.listing.specs.Read.{reading};
ghost use Rattle.script.specs.Script.{input_limit, output_of};
ghost use Rattle.script.specs.From.{output_by};
ghost use Rattle.script.specs.Bound.{output_bound};
ghost use Rattle.script.specs.Run.{enough as enough_of, Ran, RanFrom};
ghost use Rattle.board.specs.Model.{sizes};
ghost use Rattle.board_listing.specs.Answer.{answer};

use crate::lines::run_lines;
use board::{Board, Shape};
use board_listing::read::read_listing;
use calls::start::start;
use lend::Refusal;
use script::{FOR_A_BYTE, FOR_A_PAGE, FOR_THE_END, INPUT_LIMIT};
use text::write::Writer;

// The most that a script of so many bytes can print.
fn bound<const SPACES: usize, const PAGES: usize, const SLOTS: usize, const PLACES: usize>(
    _shape: Shape<SPACES, PAGES, SLOTS, PLACES>,
    bytes: usize,
) -> usize
    requires { bytes ≤ input_limit }
    ensures { result ≡ output_bound (sizes SPACES PAGES PLACES) bytes }
{
    FOR_A_BYTE * (bytes + 1) + FOR_A_PAGE * (SLOTS - PAGES) + FOR_THE_END
}

// The first bytes, as many as are read.
fn first(bytes: &[u8]) -> &[u8]
    ensures bytes { result.now ≡ take input_limit bytes.now }
    ensures within { length result.now ≤ input_limit }
{
    bytes.get(..INPUT_LIMIT).unwrap_or(bytes)
}

// The most that a script of this length can print.
fn enough<const SPACES: usize, const PAGES: usize, const SLOTS: usize, const PLACES: usize>(
    shape: Shape<SPACES, PAGES, SLOTS, PLACES>,
    input: &[u8],
) -> usize
    ensures { result ≡ enough_of (sizes SPACES PAGES PLACES) input.now }
{
    bound(shape, first(input).len())
}

// Runs the script from the start board, and answers how many bytes of output stand at the buffer's start; none is written where the
// buffer is shorter than whatever script of that length can print.
pub fn run<const SPACES: usize, const PAGES: usize, const SLOTS: usize, const PLACES: usize>(
    shape: Shape<SPACES, PAGES, SLOTS, PLACES>,
    input: &[u8],
    output: &mut [u8],
) -> usize
    ensures { Ran (sizes SPACES PAGES PLACES) input.now output.old output.new result }
{
    if output.len() < enough(shape, input) {
        return 0;
    }
    let mut out = Writer::new(output);
    let mut b = start(shape);
    run_lines(&mut b, first(input), &mut out);
    out.at()
}

// Runs the script from the board that was read; a listing that was refused prints its number alone.
fn run_read<const SPACES: usize, const PAGES: usize, const SLOTS: usize, const PLACES: usize>(
    read: Result<Board<SPACES, PAGES, SLOTS, PLACES>, Refusal>,
    input: &[u8],
    out: &mut Writer<'_>,
)
    ensures { out.new ≡ writes out.old (output_by (sizes SPACES PAGES PLACES) (answer (sizes SPACES PAGES PLACES) read.entry) input.now) }
{
    match read {
        Ok(mut b) => run_lines(&mut b, first(input), out),
        Err(refusal) => out.refused(u32::from(refusal)),
    }
}

// The board of a listing, of which no more bytes are read than of an input, or what refuses it.
fn read_first<const SPACES: usize, const PAGES: usize, const SLOTS: usize, const PLACES: usize>(
    shape: Shape<SPACES, PAGES, SLOTS, PLACES>,
    listing: &[u8],
) -> Result<Board<SPACES, PAGES, SLOTS, PLACES>, Refusal>
    ensures { answer (sizes SPACES PAGES PLACES) result ≡ reading (sizes SPACES PAGES PLACES) (take input_limit listing.now) }
{
    read_listing(shape, first(listing))
}

// Runs the script from the board of a listing, in a buffer of the same length.
pub fn run_from<const SPACES: usize, const PAGES: usize, const SLOTS: usize, const PLACES: usize>(
    shape: Shape<SPACES, PAGES, SLOTS, PLACES>,
    listing: &[u8],
    input: &[u8],
    output: &mut [u8],
) -> usize
    ensures { RanFrom (sizes SPACES PAGES PLACES) listing.now input.now output.old output.new result }
{
    if output.len() < enough(shape, input) {
        return 0;
    }
    let mut out = Writer::new(output);
    run_read(read_first(shape, listing), input, &mut out);
    out.at()
}
