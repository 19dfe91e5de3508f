// The board of any bytes. What is no board's image gives a board that is not sound, so that every call on it is refused.
ghost use Rattle.std.specs.Prelude.{◌≡◌, [], Some, None, cond, leb, eqb, get_or};
ghost use Rattle.lend.specs.Lists.{every, tabulate};
ghost use Rattle.image.specs.Image.{slot_reads, slot_in, place_in, count_in, no_board, board_from};
ghost use Rattle.board.specs.Model.{sizes};
ghost use Rattle.board.specs.Board.{tables};
ghost use Rattle.board_image.specs.Parts.{tables_or};

use crate::image_bytes;
use board::{Board, Cache, Shape};
use image::{count_from, place_from, slot_from};
use lend::{Count, Place, Slot};

// Whether a space is live, where the byte says it: 0 or 1.
fn live_from(byte: u8) -> Option<bool>
    ensures { result ≡ cond (leb byte 1) (Some (eqb byte 1)) None }
{
    match byte {
        0 => Some(false),
        1 => Some(true),
        _ => None,
    }
}

// The slots, where all bytes are slots'.
fn read_slots<const SLOTS: usize>(bytes: &[[u8; 4]; SLOTS]) -> Option<[Slot; SLOTS]>
    ensures { result ≡ cond (every SLOTS (λ k. slot_reads (get_or bytes.now k []) 0)) (Some (tabulate SLOTS (λ k. slot_in (get_or bytes.now k []) 0))) None }
{
    let mut slots = [Slot::EMPTY; SLOTS];
    for k in 0..SLOTS {
        slots[k] = slot_from(bytes[k])?;
    }
    Some(slots)
}

// Which spaces are live, where every byte says it.
fn read_live<const SPACES: usize>(bytes: &[u8; SPACES]) -> Option<[bool; SPACES]>
    ensures { result ≡ cond (every SPACES (λ s. leb (get_or bytes.now s 0) 1)) (Some (tabulate SPACES (λ s. eqb (get_or bytes.now s 0) 1))) None }
{
    let mut live = [false; SPACES];
    for s in 0..SPACES {
        live[s] = live_from(bytes[s])?;
    }
    Some(live)
}

// The places: any four bytes are one.
fn read_places<const PLACES: usize>(bytes: &[[u8; 4]; PLACES]) -> [Place; PLACES]
    ensures { result ≡ tabulate PLACES (λ i. place_in (get_or bytes.now i []) 0) }
{
    let mut places = [Place::EMPTY; PLACES];
    for i in 0..PLACES {
        places[i] = place_from(bytes[i]);
    }
    places
}

// The summary: any eight bytes are a count.
fn read_summary<const PAGES: usize>(bytes: &[[u8; 8]; PAGES]) -> [Count; PAGES]
    ensures { result ≡ tabulate PAGES (λ i. count_in (get_or bytes.now i []) 0) }
{
    let mut summary = [Count::NONE; PAGES];
    for i in 0..PAGES {
        summary[i] = count_from(bytes[i]);
    }
    summary
}

// The board that stands for bytes that are no image.
fn no_board<const SPACES: usize, const PAGES: usize, const SLOTS: usize, const PLACES: usize>(
    shape: Shape<SPACES, PAGES, SLOTS, PLACES>,
) -> Board<SPACES, PAGES, SLOTS, PLACES>
    ensures { tables result ≡ no_board (sizes SPACES PAGES PLACES) }
{
    Board {
        shape,
        slots: [Slot::EMPTY; SLOTS],
        live: [false; SPACES],
        cache: Cache {
            places: [Place::EMPTY; PLACES],
            next: 0,
        },
        summary: [Count::NONE; PAGES],
    }
}

// The board whose image the bytes are, where they are one.
fn board_of<const SPACES: usize, const PAGES: usize, const SLOTS: usize, const PLACES: usize>(
    shape: Shape<SPACES, PAGES, SLOTS, PLACES>,
    image: &[u8],
) -> Option<Board<SPACES, PAGES, SLOTS, PLACES>>
    ensures { tables_or (no_board (sizes SPACES PAGES PLACES)) result ≡ board_from (sizes SPACES PAGES PLACES) image.now }
{
    let whole = image_bytes(shape);
    if image.len() != whole {
        return None;
    }
    let (slots, rest) = image.split_at(4 * SLOTS);
    let (live, rest) = rest.split_at(SPACES);
    let (places, rest) = rest.split_at(4 * PLACES);
    let (next, summary) = rest.split_first()?;
    let slots = read_slots(slots.as_chunks().0.as_array()?)?;
    let live = read_live(live.as_array()?)?;
    let places = read_places(places.as_chunks().0.as_array()?);
    let summary = read_summary(summary.as_chunks().0.as_array()?);
    Some(Board {
        shape,
        slots,
        live,
        cache: Cache {
            places,
            next: *next,
        },
        summary,
    })
}

// The board of any bytes.
pub fn read_image<const SPACES: usize, const PAGES: usize, const SLOTS: usize, const PLACES: usize>(
    shape: Shape<SPACES, PAGES, SLOTS, PLACES>,
    image: &[u8],
) -> Board<SPACES, PAGES, SLOTS, PLACES>
    ensures { tables result ≡ board_from (sizes SPACES PAGES PLACES) image.now }
{
    match board_of(shape, image) {
        Some(b) => b,
        None => no_board(shape),
    }
}
