// A board read from its listing. Any bytes are taken: malformed ones are refused where the first of them is found, disorder and an
// unsound board at the end.
ghost use Rattle.std.specs.Prelude.{◌≡◌, T};
ghost use Rattle.listing.specs.Content.{row_key, row_slot, board_with};
ghost use Rattle.listing.specs.Read.{judged as judged_of, reading, row_in, row_fits, fitting};
ghost use Rattle.listing.specs.Loop.{read_from};
ghost use Rattle.board.specs.Model.{sizes};
ghost use Rattle.board_listing.specs.Answer.{answer, answered};

use crate::live::{live_flags, live_number};
use board::{Board, Shape};
use calls::start::start;
use lend::{Count, Link, Refusal, Slot};
use listing::read::{Row, ended, held_line, judged, live_line, page_line, rises};
use text::line::line_end;

// The board with these slots, their summary and these live spaces, or what is against it.
fn board_with<const SPACES: usize, const PAGES: usize, const SLOTS: usize, const PLACES: usize>(
    shape: Shape<SPACES, PAGES, SLOTS, PLACES>,
    formed: bool,
    ordered: bool,
    slots: &[Slot; SLOTS],
    live: u32,
) -> Result<Board<SPACES, PAGES, SLOTS, PLACES>, Refusal>
    ensures { answer (sizes SPACES PAGES PLACES) result ≡ judged_of (sizes SPACES PAGES PLACES) formed ordered (board_with (sizes SPACES PAGES PLACES) slots.now live) }
{
    let mut b = start(shape);
    b.slots = *slots;
    let live = live_flags(shape, live);
    b.live = live;
    let pages = b.examine();
    let fit = pages.is_some();
    judged(formed, ordered, fit)?;
    // None is refused above: the three tests alone decide.
    let counts = match pages {
        Some(p) => p.counts,
        None => [Count::NONE; PAGES],
    };
    b.summary = counts;
    Ok(b)
}

// Whether every number of the row is in its field.
#[tactic(auto, unfolding(listing::specs::Read::row_fits))]
fn row_fits<const SPACES: usize, const PAGES: usize, const SLOTS: usize, const PLACES: usize>(
    _shape: Shape<SPACES, PAGES, SLOTS, PLACES>,
    row: Row,
) -> bool
    ensures { result ≡ row_fits (sizes SPACES PAGES PLACES) row }
{
    1 <= row.space
        && (row.space as usize) < SPACES
        && (row.page as usize) < PAGES
        && (row.parent as usize) < SPACES
        && (row.at as usize) < PAGES
        && (1..=7).contains(&row.rights)
}

// The row of a page's line, where every number is in its field.
fn row_of<const SPACES: usize, const PAGES: usize, const SLOTS: usize, const PLACES: usize>(
    shape: Shape<SPACES, PAGES, SLOTS, PLACES>,
    line: &[u8],
) -> Option<Row>
    ensures { result ≡ fitting (sizes SPACES PAGES PLACES) (row_in line.now) }
{
    let row = page_line(line)?;
    if row_fits(shape, row) {
        Some(row)
    } else {
        None
    }
}

// What the page keeps by its row.
fn slot_of<const SPACES: usize, const PAGES: usize, const SLOTS: usize, const PLACES: usize>(
    _shape: Shape<SPACES, PAGES, SLOTS, PLACES>,
    row: Row,
) -> Slot
    requires { T (row_fits (sizes SPACES PAGES PLACES) row) }
    ensures { result ≡ row_slot row }
{
    Slot {
        link: Link::Page(row.parent as u8, row.at as u8),
        rights: row.rights as u8,
    }
}

// The lines after the first, from a position on: pages, and then how many they are.
fn read_from<const SPACES: usize, const PAGES: usize, const SLOTS: usize, const PLACES: usize>(
    shape: Shape<SPACES, PAGES, SLOTS, PLACES>,
    text: &[u8],
    live: u32,
    at: usize,
) -> Result<Board<SPACES, PAGES, SLOTS, PLACES>, Refusal>
    ensures { answer (sizes SPACES PAGES PLACES) result ≡ read_from (sizes SPACES PAGES PLACES) text.now live at }
{
    let mut slots = start(shape).slots;
    let mut rising = true;
    let mut last: usize = 0;
    let mut count: usize = 0;
    let mut from = at;
    // By position: `split_inclusive` would hand out each line with the newline that `line_end` leaves out; it is no plainer.
    while from < text.len() {
        let end = line_end(text, from);
        if text.len() <= end + 1 {
            let held = held_line(&text[from..end], (SLOTS - PAGES) as u32);
            let formed = held.is_some();
            let ordered = rising & (count == held.unwrap_or(0) as usize);
            return board_with(shape, formed, ordered, &slots, live);
        }
        let row = row_of(shape, &text[from..end]).ok_or(Refusal::MalformedListing)?;
        let k = shape.key(row.space as u8, row.page as u8);
        slots[k] = slot_of(shape, row);
        rising = rises(rising, last, k);
        last = k;
        count += 1;
        from = end + 1;
    }
    Err(Refusal::MalformedListing)
}

// Reads any bytes.
pub fn read_listing<
    const SPACES: usize,
    const PAGES: usize,
    const SLOTS: usize,
    const PLACES: usize,
>(
    shape: Shape<SPACES, PAGES, SLOTS, PLACES>,
    text: &[u8],
) -> Result<Board<SPACES, PAGES, SLOTS, PLACES>, Refusal>
    ensures { answer (sizes SPACES PAGES PLACES) result ≡ reading (sizes SPACES PAGES PLACES) text.now }
{
    if !ended(text) {
        return Err(Refusal::MalformedListing);
    }
    let end = line_end(text, 0);
    let most = live_number(shape, &[true; SPACES]);
    let live = live_line(&text[..end], most).ok_or(Refusal::MalformedListing)?;
    read_from(shape, text, live, end + 1)
}

// What a text is read as: the board that it says, or the start board with what refuses the text.
#[derive(Clone, Copy)]
pub struct Read<const SPACES: usize, const PAGES: usize, const SLOTS: usize, const PLACES: usize> {
    pub refused: Option<Refusal>,
    pub board: Board<SPACES, PAGES, SLOTS, PLACES>,
}

// Reads any bytes, and has a board whatever they are.
pub fn read_or_start<
    const SPACES: usize,
    const PAGES: usize,
    const SLOTS: usize,
    const PLACES: usize,
>(shape: Shape<SPACES, PAGES, SLOTS, PLACES>, text: &[u8]) -> Read<SPACES, PAGES, SLOTS, PLACES>
    ensures { answered result ≡ reading (sizes SPACES PAGES PLACES) text.now }
{
    match read_listing(shape, text) {
        Ok(board) => Read {
            refused: None,
            board,
        },
        Err(refusal) => {
            let board = start(shape);
            Read {
                refused: Some(refusal),
                board,
            }
        }
    }
}
