// delete: each page of the space is flushed of all rights, and the space is not live any more.
ghost use Rattle.std.specs.Prelude.{◌≡◌};
ghost use Rattle.lend.specs.Tables.{alone};
ghost use Rattle.lend.specs.Calls.{Delete, step};
ghost use Rattle.board.specs.Model.{sizes};
ghost use Rattle.board.specs.Board.{tables};
ghost use Rattle.calls.specs.Answer.{outcome};

use crate::withdraw::withdraw;
use board::Board;
use lend::{Refusal, first_refusal};

// Answers how many pages it emptied.
pub fn delete<const SPACES: usize, const PAGES: usize, const SLOTS: usize, const PLACES: usize>(
    b: &mut Board<SPACES, PAGES, SLOTS, PLACES>,
    space: u32,
) -> Result<u32, Refusal>
    ensures { outcome result (tables b.new) ≡ step (sizes SPACES PAGES PLACES) (alone (tables b.old)) (Delete space) }
{
    let pages = b.check()?;
    let s = space as usize;
    first_refusal(&[
        (SPACES <= s, Refusal::NoSpace),
        (!b.is_live(s), Refusal::NotLive),
        (s <= 1, Refusal::ShutSpace),
    ])?;
    let reached = b.line_has(&b.shape.pages_of(s));
    b.live[s] = false;
    let lost = withdraw(b, &reached, 7);
    b.summary = b.tally(&pages.frames);
    Ok(u32::from(lost.held))
}
