// store: a byte is put at an address, for the right to write.
ghost use Rattle.std.specs.Prelude.{◌≡◌};
ghost use Rattle.lend.specs.Calls.{Store, step};
ghost use Rattle.board.specs.Model.{sizes};
ghost use Rattle.board.specs.Board.{tables};
ghost use Rattle.access.specs.Answers.{beside, stored};

use crate::checks::check_access;
use crate::look::{byte_at, look};
use board::Board;
use board::shape::PAGE_BYTES;
use lend::Refusal;

// The byte of memory that the address is translated to is changed, and no other.
pub fn store<const SPACES: usize, const PAGES: usize, const SLOTS: usize, const PLACES: usize>(
    b: &mut Board<SPACES, PAGES, SLOTS, PLACES>,
    memory: &mut [u8],
    space: u32,
    address: u32,
    byte: u8,
) -> Result<(), Refusal>
    ensures { stored result (tables b.new) memory.new ≡ step (sizes SPACES PAGES PLACES) (beside (tables b.old) memory.old) (Store space address byte) }
{
    let fits = memory.len() == PAGE_BYTES * PAGES;
    check_access(b, fits, space, address, 2)?;
    // In bounds by the check: `as` loses no bit.
    let page = address as usize / PAGE_BYTES;
    let seen = look(b, space as u8, page as u8);
    memory[byte_at(seen.frame, address)] = byte;
    Ok(())
}
