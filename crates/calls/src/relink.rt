// What map and grant have in common once they are accepted.
ghost use Rattle.std.specs.Prelude.{◌≡◌, ◌<◌, set};
ghost use Rattle.lend.specs.Cache.{place_for, dropped, dropped_where};
ghost use Rattle.lend_code.specs.Inner.{rights_of, cut_slots, cut_lost, lost_in, lost_all, with_summary};
ghost use Rattle.lend_code.specs.Lending.{linked_in};
ghost use Rattle.board.specs.Model.{sizes};
ghost use Rattle.board.specs.Board.{tables, with_slots, with_places};

use board::Board;
use lend::{Count, Slot};

// The pages of the set lose d, and what they lost comes back; the cache and the summary are as they were.
pub(crate) fn cut<const SPACES: usize, const PAGES: usize, const SLOTS: usize, const PLACES: usize>(
    b: &mut Board<SPACES, PAGES, SLOTS, PLACES>,
    set: &[bool; SLOTS],
    d: u8,
) -> Count
    ensures board { tables b.new ≡ with_slots (tables b.old) (cut_slots (sizes SPACES PAGES PLACES) b.old.slots set.now d) }
    ensures lost { result ≡ cut_lost (sizes SPACES PAGES PLACES) b.old.slots set.now d }
{
    let before = b.rights();
    b.cut(set, d);
    b.shape.losses(&before, &b.rights())
}

// The taker's page, freed of every right together with all below it, keeps the slot, which leads to the giver's frame: the counts go down at the
// frame that the taker had, and up at the giver's.
pub(crate) fn link<
    const SPACES: usize,
    const PAGES: usize,
    const SLOTS: usize,
    const PLACES: usize,
>(
    b: &mut Board<SPACES, PAGES, SLOTS, PLACES>,
    under_taker: &[bool; SLOTS],
    taker: usize,
    giver: usize,
    slot: Slot,
)
    requires { taker < SLOTS }
    ensures { tables b.new ≡ with_summary (with_slots (tables b.old) (set (cut_slots (sizes SPACES PAGES PLACES) b.old.slots under_taker.now 7) taker slot))
        (linked_in (sizes SPACES PAGES PLACES) b.old.slots b.old.summary taker giver (cut_lost (sizes SPACES PAGES PLACES) b.old.slots under_taker.now 7) slot.rights) }
{
    let old = b.lookup(taker).frame;
    let new = b.lookup(giver).frame;
    let lost = cut(b, under_taker, 7);
    b.slots[taker] = slot;
    b.count_lost(usize::from(old), lost);
    b.count_more(usize::from(new), slot.rights);
}

// The taker's cache entry goes, and that of each page that lost a right since before. Answers how many pages were emptied since then.
pub(crate) fn settle<
    const SPACES: usize,
    const PAGES: usize,
    const SLOTS: usize,
    const PLACES: usize,
>(b: &mut Board<SPACES, PAGES, SLOTS, PLACES>, before: &[u8; SLOTS], to: u8, at: u8) -> u32
    ensures board { tables b.new ≡ with_places (tables b.old) (dropped_where (sizes SPACES PAGES PLACES) (lost_in before.now (rights_of (sizes SPACES PAGES PLACES) b.old.slots)) (dropped b.old.cache.places (place_for to at b.old.cache.places))) }
    ensures emptied { result ≡ lost_all (sizes SPACES PAGES PLACES) before.now (rights_of (sizes SPACES PAGES PLACES) b.old.slots) }
{
    let after = b.rights();
    b.drop_entry(to, at);
    b.drop_lost(before, &after);
    b.shape.lost_all(before, &after)
}
