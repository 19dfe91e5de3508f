// The frame summary: counted from the rights and frames of all pages, and kept right at the frames that a call touches.
ghost use Rattle.std.specs.Prelude.{◌≡◌, not, ◌&&◌, nat_eq};
ghost use Rattle.lend.specs.Rights.{within};
ghost use Rattle.lend_summary.specs.Counts.{count_less, less_at};
ghost use Rattle.lend_code.specs.Inner.{rights_of, counts_at, summary_with, counted_in16, more_in, losses_of, with_summary};
ghost use Rattle.board.specs.Model.{sizes};
ghost use Rattle.board.specs.Board.{tables};

use crate::{Board, Shape};
use lend::Count;

// One page more, of these rights.
#[tactic(auto, unfolding(lend_code::specs::Inner::counted_in16))]
fn counted(count: Count, rights: u8) -> Count
    ensures { result ≡ counted_in16 rights count }
{
    Count {
        held: count.held.saturating_add(1),
        read: count
            .read
            .saturating_add(u16::from(lend::within(4, rights))),
        write: count
            .write
            .saturating_add(u16::from(lend::within(2, rights))),
        execute: count
            .execute
            .saturating_add(u16::from(lend::within(1, rights))),
    }
}

// The count without these pages.
fn without(count: Count, lost: Count) -> Count
    ensures { result ≡ count_less count lost }
{
    Count {
        held: count.held.saturating_sub(lost.held),
        read: count.read.saturating_sub(lost.read),
        write: count.write.saturating_sub(lost.write),
        execute: count.execute.saturating_sub(lost.execute),
    }
}

// Whether there were rights before and are none after.
pub(crate) fn gone(before: u8, after: u8) -> bool
    ensures { result ≡ (not (nat_eq before 0) && nat_eq after 0) }
{
    before != 0 && after == 0
}

// Whether the right was there before and is not after.
fn lost(right: u8, before: u8, after: u8) -> bool
    ensures { result ≡ (within right before && not (within right after)) }
{
    lend::within(right, before) && !lend::within(right, after)
}

impl<const SPACES: usize, const PAGES: usize, const SLOTS: usize, const PLACES: usize> Shape<
    SPACES,
    PAGES,
    SLOTS,
    PLACES,
> {
    // Where page k is counted: at its frame, or at PAGES where it is in space 0 or has no right.
    fn counts_at(self, k: usize, rights: u8, frame: u8) -> usize
        ensures { result ≡ counts_at (sizes SPACES PAGES PLACES) k rights frame }
    {
        if k < PAGES || rights == 0 {
            return PAGES;
        }
        usize::from(frame)
    }

    // How many pages lost all their rights between the two, and how many lost each.
    pub fn losses(self, before: &[u8; SLOTS], after: &[u8; SLOTS]) -> Count
        ensures { result ≡ losses_of (sizes SPACES PAGES PLACES) before.now after.now }
    {
        let mut sum = Count::NONE;
        for k in 0..SLOTS {
            let had = before[k];
            let has = after[k];
            sum.held += u16::from(gone(had, has));
            sum.read += u16::from(lost(4, had, has));
            sum.write += u16::from(lost(2, had, has));
            sum.execute += u16::from(lost(1, had, has));
        }
        sum
    }
}

impl<const SPACES: usize, const PAGES: usize, const SLOTS: usize, const PLACES: usize> Board<
    SPACES,
    PAGES,
    SLOTS,
    PLACES,
> {
    // Each page that has a right is counted at its frame, those of space 0 aside.
    pub fn tally(&self, frames: &[u8; SLOTS]) -> [Count; PAGES]
        ensures { result ≡ summary_with (sizes SPACES PAGES PLACES) (rights_of (sizes SPACES PAGES PLACES) self.now.slots) frames.now }
    {
        let mut counts = [Count::NONE; PAGES];
        for k in 0..SLOTS {
            let rights = self.slots[k].rights;
            let at = self.shape.counts_at(k, rights, frames[k]);
            if at < PAGES {
                counts[at] = counted(counts[at], rights);
            }
        }
        counts
    }

    // The pages of this frame have lost so much.
    pub fn count_lost(&mut self, frame: usize, lost: Count)
        ensures { tables self.new ≡ with_summary (tables self.old) (less_at self.old.summary frame lost) }
    {
        if frame < PAGES {
            self.summary[frame] = without(self.summary[frame], lost);
        }
    }

    // This frame has one page more, of these rights.
    #[tactic(auto, unfolding(lend_code::specs::Inner::more_in))]
    pub fn count_more(&mut self, frame: usize, rights: u8)
        ensures { tables self.new ≡ with_summary (tables self.old) (more_in self.old.summary frame rights) }
    {
        if frame < PAGES {
            self.summary[frame] = counted(self.summary[frame], rights);
        }
    }
}
