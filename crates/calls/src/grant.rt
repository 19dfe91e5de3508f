// grant: the taker's page is flushed of all rights and linked to the giver's parent; then the giver's page is flushed of all rights.
ghost use Rattle.std.specs.Prelude.{◌≡◌};
ghost use Rattle.lend.specs.Tables.{alone};
ghost use Rattle.lend.specs.Lending.{giver_loses};
ghost use Rattle.lend.specs.Sound.{Sound};
ghost use Rattle.lend.specs.Calls.{Grant, step};
ghost use Rattle.board.specs.Model.{sizes};
ghost use Rattle.board.specs.Board.{tables};
ghost use Rattle.calls.specs.Answer.{outcome};

use crate::checks::check_named;
use crate::lines::{check_lines, source_of};
use crate::relink::{cut, link, settle};
use board::Board;
use lend::{Refusal, Slot};

// Of which rights a grant flushes the giver: of every right, whichever were granted.
fn giver_loses(_rights: u8) -> u8
    ensures { result ≡ giver_loses _rights }
{
    7
}

// On a board that is known to be sound.
pub(crate) fn grant_page<
    const SPACES: usize,
    const PAGES: usize,
    const SLOTS: usize,
    const PLACES: usize,
>(
    b: &mut Board<SPACES, PAGES, SLOTS, PLACES>,
    from: u32,
    page: u32,
    to: u32,
    at: u32,
    rights: u32,
) -> Result<u32, Refusal>
    requires { Sound (sizes SPACES PAGES PLACES) (tables b.old) }
    ensures { outcome result (tables b.new) ≡ step (sizes SPACES PAGES PLACES) (alone (tables b.old)) (Grant from page to at rights) }
{
    check_named(b, from, page, to, at, rights, (to == 0) | (from == 0))?;
    // The check has bounded these numbers, so that `as` loses no bit; a `try_from` would have an arm that no input reaches.
    let asked = rights as u8;
    let giver = b.shape.key(from as u8, page as u8);
    let taker = b.shape.key(to as u8, at as u8);
    let kept = b.slots[giver].link;
    let taker_alone = b.shape.only(taker);
    let under_taker = b.line_has(&taker_alone);
    let source = source_of(b.shape, kept, giver);
    check_lines(b, &under_taker, giver, source, taker, asked)?;
    let before = b.rights();
    let frame = b.lookup(giver).frame;
    let granted = Slot {
        link: kept,
        rights: asked,
    };
    link(b, &under_taker, taker, giver, granted);
    let giver_alone = b.shape.only(giver);
    let under_giver = b.line_has(&giver_alone);
    let given = cut(b, &under_giver, giver_loses(asked));
    b.count_lost(usize::from(frame), given);
    Ok(settle(b, &before, to as u8, at as u8))
}

// Answers how many pages it emptied.
pub fn grant<const SPACES: usize, const PAGES: usize, const SLOTS: usize, const PLACES: usize>(
    b: &mut Board<SPACES, PAGES, SLOTS, PLACES>,
    from: u32,
    page: u32,
    to: u32,
    at: u32,
    rights: u32,
) -> Result<u32, Refusal>
    ensures { outcome result (tables b.new) ≡ step (sizes SPACES PAGES PLACES) (alone (tables b.old)) (Grant from page to at rights) }
{
    b.check()?;
    grant_page(b, from, page, to, at, rights)
}
