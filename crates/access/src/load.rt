// load: the byte at an address, for the right to read.
ghost use Rattle.std.specs.Prelude.{◌≡◌};
ghost use Rattle.lend.specs.Calls.{Load, step};
ghost use Rattle.board.specs.Model.{sizes};
ghost use Rattle.board.specs.Board.{tables};
ghost use Rattle.access.specs.Answers.{beside, loaded};

use crate::checks::check_access;
use crate::look::{byte_at, look};
use board::Board;
use board::shape::PAGE_BYTES;
use lend::Refusal;

// The byte of memory that the address is translated to.
pub fn load<const SPACES: usize, const PAGES: usize, const SLOTS: usize, const PLACES: usize>(
    b: &mut Board<SPACES, PAGES, SLOTS, PLACES>,
    memory: &[u8],
    space: u32,
    address: u32,
) -> Result<u8, Refusal>
    ensures { loaded result (tables b.new) memory.now ≡ step (sizes SPACES PAGES PLACES) (beside (tables b.old) memory.now) (Load space address) }
{
    let fits = memory.len() == PAGE_BYTES * PAGES;
    check_access(b, fits, space, address, 4)?;
    // In bounds by the check: `as` loses no bit.
    let page = address as usize / PAGE_BYTES;
    let seen = look(b, space as u8, page as u8);
    Ok(memory[byte_at(seen.frame, address)])
}
