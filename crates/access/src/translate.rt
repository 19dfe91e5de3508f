// translate: from a space and an address to the physical address.
ghost use Rattle.std.specs.Prelude.{◌≡◌};
ghost use Rattle.lend.specs.Tables.{alone};
ghost use Rattle.lend.specs.Calls.{Translate, step};
ghost use Rattle.board.specs.Model.{sizes};
ghost use Rattle.board.specs.Board.{tables};
ghost use Rattle.access.specs.Answers.{translated};

use crate::checks::check_access;
use crate::look::{byte_at, look};
use board::Board;
use board::shape::PAGE_BYTES;
use lend::Refusal;

// Where an address leads: the physical address, whether the page was in the cache, and how many links lead from the page to its frame.
#[derive(Clone, Copy, Debug, PartialEq, Eq)]
pub struct Translation {
    pub address: u32,
    pub hit: bool,
    pub links: u32,
}

// The physical address, for these rights. A miss has followed the links; for a hit they are still to be counted.
pub fn translate<const SPACES: usize, const PAGES: usize, const SLOTS: usize, const PLACES: usize>(
    b: &mut Board<SPACES, PAGES, SLOTS, PLACES>,
    space: u32,
    address: u32,
    rights: u32,
) -> Result<Translation, Refusal>
    ensures { translated result (tables b.new) ≡ step (sizes SPACES PAGES PLACES) (alone (tables b.old)) (Translate space address rights) }
{
    check_access(b, true, space, address, rights)?;
    // In bounds by the check: `as` loses no bit.
    let page = (address as usize / PAGE_BYTES) as u8;
    let seen = look(b, space as u8, page);
    let links = match seen.followed {
        Some(links) => links,
        None => b.lookup(b.shape.key(space as u8, page)).links,
    };
    Ok(Translation {
        address: byte_at(seen.frame, address) as u32,
        hit: seen.followed.is_none(),
        links: u32::from(links),
    })
}
