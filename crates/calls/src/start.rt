// The start board.
ghost use Rattle.std.specs.Prelude.{◌≡◌};
ghost use Rattle.lend.specs.Start.{start_board};
ghost use Rattle.lend_code.specs.Inner.{start_slots};
ghost use Rattle.board.specs.Model.{sizes};
ghost use Rattle.board.specs.Board.{tables};

use board::{Board, Cache, Shape};
use lend::{Count, Link, Place, Slot};

// Every page of space 0 holds its frame, with every right; the others are empty.
fn start_slots<const SPACES: usize, const PAGES: usize, const SLOTS: usize, const PLACES: usize>(
    _shape: Shape<SPACES, PAGES, SLOTS, PLACES>,
) -> [Slot; SLOTS]
    ensures { result ≡ start_slots (sizes SPACES PAGES PLACES) }
{
    let mut slots = [Slot::EMPTY; SLOTS];
    for k in 0..PAGES {
        slots[k] = Slot {
            link: Link::Frame(k as u8),
            rights: 7,
        };
    }
    slots
}

// Spaces 0 and 1 are live, and the cache is empty.
pub fn start<const SPACES: usize, const PAGES: usize, const SLOTS: usize, const PLACES: usize>(
    shape: Shape<SPACES, PAGES, SLOTS, PLACES>,
) -> Board<SPACES, PAGES, SLOTS, PLACES>
    ensures { tables result ≡ start_board (sizes SPACES PAGES PLACES) }
{
    let mut live = [false; SPACES];
    live[0] = true;
    live[1] = true;
    Board {
        shape,
        slots: start_slots(shape),
        live,
        cache: Cache {
            places: [Place::EMPTY; PLACES],
            next: 0,
        },
        summary: [Count::NONE; PAGES],
    }
}
