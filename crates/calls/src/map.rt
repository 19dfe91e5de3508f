// map: the taker's page is flushed of all rights, then linked to the giver's page.
ghost use Rattle.std.specs.Prelude.{◌≡◌};
ghost use Rattle.lend.specs.Tables.{alone};
ghost use Rattle.lend.specs.Sound.{Sound};
ghost use Rattle.lend.specs.Calls.{Map, step};
ghost use Rattle.board.specs.Model.{sizes};
ghost use Rattle.board.specs.Board.{tables};
ghost use Rattle.calls.specs.Answer.{outcome};

use crate::checks::check_named;
use crate::lines::check_lines;
use crate::relink::{link, settle};
use board::Board;
use lend::{Link, Refusal, Slot};

// On a board that is known to be sound.
pub(crate) fn map_page<
    const SPACES: usize,
    const PAGES: usize,
    const SLOTS: usize,
    const PLACES: usize,
>(
    b: &mut Board<SPACES, PAGES, SLOTS, PLACES>,
    from: u32,
    page: u32,
    to: u32,
    at: u32,
    rights: u32,
) -> Result<u32, Refusal>
    requires { Sound (sizes SPACES PAGES PLACES) (tables b.old) }
    ensures { outcome result (tables b.new) ≡ step (sizes SPACES PAGES PLACES) (alone (tables b.old)) (Map from page to at rights) }
{
    check_named(b, from, page, to, at, rights, to == 0)?;
    // The check has bounded these numbers, so that `as` loses no bit; a `try_from` would have an arm that no input reaches.
    let asked = rights as u8;
    let giver = b.shape.key(from as u8, page as u8);
    let taker = b.shape.key(to as u8, at as u8);
    let taker_alone = b.shape.only(taker);
    let under_taker = b.line_has(&taker_alone);
    check_lines(b, &under_taker, giver, giver, taker, asked)?;
    let before = b.rights();
    let lent = Slot {
        link: Link::Page(from as u8, page as u8),
        rights: asked,
    };
    link(b, &under_taker, taker, giver, lent);
    Ok(settle(b, &before, to as u8, at as u8))
}

// Answers how many pages it emptied.
pub fn map<const SPACES: usize, const PAGES: usize, const SLOTS: usize, const PLACES: usize>(
    b: &mut Board<SPACES, PAGES, SLOTS, PLACES>,
    from: u32,
    page: u32,
    to: u32,
    at: u32,
    rights: u32,
) -> Result<u32, Refusal>
    ensures { outcome result (tables b.new) ≡ step (sizes SPACES PAGES PLACES) (alone (tables b.old)) (Map from page to at rights) }
{
    b.check()?;
    map_page(b, from, page, to, at, rights)
}
