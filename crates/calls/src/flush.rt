// flush: the named page and each page below it lose the rights.
ghost use Rattle.std.specs.Prelude.{◌≡◌};
ghost use Rattle.lend.specs.Tables.{alone};
ghost use Rattle.lend.specs.Sound.{Sound};
ghost use Rattle.lend.specs.Calls.{Flush, step};
ghost use Rattle.board.specs.Model.{sizes};
ghost use Rattle.board.specs.Board.{tables};
ghost use Rattle.calls.specs.Answer.{outcome};

use crate::checks::check_page;
use crate::withdraw::withdraw;
use board::Board;
use lend::Refusal;

// On a board that is known to be sound.
pub(crate) fn flush_page<
    const SPACES: usize,
    const PAGES: usize,
    const SLOTS: usize,
    const PLACES: usize,
>(
    b: &mut Board<SPACES, PAGES, SLOTS, PLACES>,
    space: u32,
    page: u32,
    rights: u32,
) -> Result<u32, Refusal>
    requires { Sound (sizes SPACES PAGES PLACES) (tables b.old) }
    ensures { outcome result (tables b.new) ≡ step (sizes SPACES PAGES PLACES) (alone (tables b.old)) (Flush space page rights) }
{
    check_page(b, space, page, rights, space == 0)?;
    // The check has bounded these numbers, so that `as` loses no bit; a `try_from` would have an arm that no input reaches.
    let y = b.shape.key(space as u8, page as u8);
    let losing = b.line_has(&b.shape.only(y));
    let frame = b.lookup(y).frame;
    let lost = withdraw(b, &losing, rights as u8);
    b.count_lost(usize::from(frame), lost);
    Ok(u32::from(lost.held))
}

// Answers how many pages it emptied.
pub fn flush<const SPACES: usize, const PAGES: usize, const SLOTS: usize, const PLACES: usize>(
    b: &mut Board<SPACES, PAGES, SLOTS, PLACES>,
    space: u32,
    page: u32,
    rights: u32,
) -> Result<u32, Refusal>
    ensures { outcome result (tables b.new) ≡ step (sizes SPACES PAGES PLACES) (alone (tables b.old)) (Flush space page rights) }
{
    b.check()?;
    flush_page(b, space, page, rights)
}
