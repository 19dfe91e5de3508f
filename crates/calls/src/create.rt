// create: the space is made live.
ghost use Rattle.std.specs.Prelude.{◌≡◌};
ghost use Rattle.lend.specs.Tables.{alone};
ghost use Rattle.lend.specs.Calls.{Create, step};
ghost use Rattle.board.specs.Model.{sizes};
ghost use Rattle.board.specs.Board.{tables};
ghost use Rattle.calls.specs.Answer.{outcome};

use board::Board;
use lend::{Refusal, first_refusal};

// Answers how many pages it emptied: none.
pub fn create<const SPACES: usize, const PAGES: usize, const SLOTS: usize, const PLACES: usize>(
    b: &mut Board<SPACES, PAGES, SLOTS, PLACES>,
    space: u32,
) -> Result<u32, Refusal>
    ensures { outcome result (tables b.new) ≡ step (sizes SPACES PAGES PLACES) (alone (tables b.old)) (Create space) }
{
    let s = space as usize;
    first_refusal(&[
        (!b.sound(), Refusal::Unsound),
        (SPACES <= s, Refusal::NoSpace),
        (b.is_live(s), Refusal::AlreadyLive),
    ])?;
    b.live[s] = true;
    Ok(0)
}
