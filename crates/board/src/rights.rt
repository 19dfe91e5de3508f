// The rights of all pages: as one array of numbers, by which before and after are compared, and what a withdrawal takes of them.
ghost use Rattle.std.specs.Prelude.{◌≡◌};
ghost use Rattle.lend_code.specs.Inner.{rights_of, left_of, rights_left, slots_with, cut_slots, lost_all};
ghost use Rattle.board.specs.Model.{sizes};
ghost use Rattle.board.specs.Board.{tables, with_slots};

use crate::summary::gone;
use crate::{Board, Shape};
use lend::Slot;

// What is left of a page's rights when it loses d, if it does.
fn left(rights: u8, loses: bool, d: u8) -> u8
    ensures { result ≡ left_of rights loses d }
{
    if loses { lend::less(rights, d) } else { rights }
}

impl<const SPACES: usize, const PAGES: usize, const SLOTS: usize, const PLACES: usize> Board<
    SPACES,
    PAGES,
    SLOTS,
    PLACES,
> {
    // The rights of each page.
    pub fn rights(&self) -> [u8; SLOTS]
        ensures { result ≡ rights_of (sizes SPACES PAGES PLACES) self.now.slots }
    {
        let mut rights = [0u8; SLOTS];
        for k in 0..SLOTS {
            rights[k] = self.slots[k].rights;
        }
        rights
    }

    // The pages of the set lose d; a page whose last right went is empty.
    pub fn cut(&mut self, set: &[bool; SLOTS], d: u8)
        ensures { tables self.new ≡ with_slots (tables self.old) (cut_slots (sizes SPACES PAGES PLACES) self.old.slots set.now d) }
    {
        for k in 0..SLOTS {
            let slot = self.slots[k];
            self.slots[k] = slot.with_rights(left(slot.rights, set[k], d));
        }
    }
}

impl<const SPACES: usize, const PAGES: usize, const SLOTS: usize, const PLACES: usize> Shape<
    SPACES,
    PAGES,
    SLOTS,
    PLACES,
> {
    // What is left of these rights when the pages of the set lose d, whatever rights they are.
    pub fn rights_left(self, mut rights: [u8; SLOTS], set: &[bool; SLOTS], d: u8) -> [u8; SLOTS]
        ensures { result ≡ rights_left (sizes SPACES PAGES PLACES) rights.entry set.now d }
    {
        for k in 0..SLOTS {
            rights[k] = left(rights[k], set[k], d);
        }
        rights
    }

    // The slots with these rights instead of their own; one that has none is empty.
    pub fn slots_with(self, mut slots: [Slot; SLOTS], rights: &[u8; SLOTS]) -> [Slot; SLOTS]
        ensures { result ≡ slots_with (sizes SPACES PAGES PLACES) slots.entry rights.now }
    {
        for k in 0..SLOTS {
            slots[k] = slots[k].with_rights(rights[k]);
        }
        slots
    }

    // How many pages had a right before and have none after.
    pub fn lost_all(self, before: &[u8; SLOTS], after: &[u8; SLOTS]) -> u32
        ensures { result ≡ lost_all (sizes SPACES PAGES PLACES) before.now after.now }
    {
        let mut n = 0;
        for k in 0..SLOTS {
            n += u32::from(gone(before[k], after[k]));
        }
        n
    }
}
