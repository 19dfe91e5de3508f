// unmap: each page below the named one loses the rights.
ghost use Rattle.std.specs.Prelude.{◌≡◌};
ghost use Rattle.lend.specs.Tables.{alone};
ghost use Rattle.lend.specs.Sound.{Sound};
ghost use Rattle.lend.specs.Calls.{Unmap, step};
ghost use Rattle.board.specs.Model.{sizes};
ghost use Rattle.board.specs.Board.{tables};
ghost use Rattle.calls.specs.Answer.{outcome};

use crate::checks::check_page;
use crate::withdraw::withdraw;
use board::Board;
use lend::Refusal;

// On a board that is known to be sound.
pub(crate) fn unmap_page<
    const SPACES: usize,
    const PAGES: usize,
    const SLOTS: usize,
    const PLACES: usize,
>(
    b: &mut Board<SPACES, PAGES, SLOTS, PLACES>,
    space: u32,
    page: u32,
    rights: u32,
) -> Result<u32, Refusal>
    requires { Sound (sizes SPACES PAGES PLACES) (tables b.old) }
    ensures { outcome result (tables b.new) ≡ step (sizes SPACES PAGES PLACES) (alone (tables b.old)) (Unmap space page rights) }
{
    check_page(b, space, page, rights, false)?;
    // The check has bounded these numbers, so that `as` loses no bit; a `try_from` would have an arm that no input reaches.
    let y = b.shape.key(space as u8, page as u8);
    let mut losing = b.line_has(&b.shape.only(y));
    losing[y] = false;
    let frame = b.lookup(y).frame;
    let lost = withdraw(b, &losing, rights as u8);
    b.count_lost(usize::from(frame), lost);
    Ok(u32::from(lost.held))
}

// Answers how many pages it emptied.
pub fn unmap<const SPACES: usize, const PAGES: usize, const SLOTS: usize, const PLACES: usize>(
    b: &mut Board<SPACES, PAGES, SLOTS, PLACES>,
    space: u32,
    page: u32,
    rights: u32,
) -> Result<u32, Refusal>
    ensures { outcome result (tables b.new) ≡ step (sizes SPACES PAGES PLACES) (alone (tables b.old)) (Unmap space page rights) }
{
    b.check()?;
    unmap_page(b, space, page, rights)
}
