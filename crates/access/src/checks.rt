// What refuses an access, in the order of the table.
ghost use Rattle.std.specs.Prelude.{◌≡◌};
ghost use Rattle.lend.specs.Refusals.{answer_of};
ghost use Rattle.lend_code.specs.Access.{access_number};
ghost use Rattle.board.specs.Model.{sizes};
ghost use Rattle.board.specs.Board.{tables};

use board::Board;
use board::shape::PAGE_BYTES;
use lend::{Refusal, bad_rights, first_refusal};

// Of an access for these rights: fits is whether memory has its length, true where there is none.
pub(crate) fn check_access<
    const SPACES: usize,
    const PAGES: usize,
    const SLOTS: usize,
    const PLACES: usize,
>(
    b: &Board<SPACES, PAGES, SLOTS, PLACES>,
    fits: bool,
    space: u32,
    address: u32,
    rights: u32,
) -> Result<(), Refusal>
    ensures { answer_of result ≡ access_number (sizes SPACES PAGES PLACES) (tables b.now) fits space address rights }
{
    let s = space as usize;
    let a = address as usize;
    let slot = b.slots[b.shape.inside(s * PAGES + a / PAGE_BYTES)];
    let has_all = rights & u32::from(slot.rights) == rights;
    first_refusal(&[
        (!b.sound(), Refusal::Unsound),
        (!fits, Refusal::MemoryLength),
        (SPACES <= s, Refusal::NoSpace),
        (!b.is_live(s), Refusal::NotLive),
        (PAGE_BYTES * PAGES <= a, Refusal::NoPage),
        (bad_rights(rights), Refusal::BadRights),
        (!slot.is_held(), Refusal::NotHeld),
        (!has_all, Refusal::MissingRights),
    ])
}
