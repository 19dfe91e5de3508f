// What unmap, flush and delete have in common once the pages that lose rights are known.
ghost use Rattle.std.specs.Prelude.{◌≡◌};
ghost use Rattle.lend_code.specs.Inner.{cut_of, cut_lost};
ghost use Rattle.board.specs.Model.{sizes};
ghost use Rattle.board.specs.Board.{tables};

use board::Board;
use lend::Count;

// The pages of the set lose d: their slots, and the cache entries that go. What they lost comes back; the summary is as it was.
pub(crate) fn withdraw<
    const SPACES: usize,
    const PAGES: usize,
    const SLOTS: usize,
    const PLACES: usize,
>(b: &mut Board<SPACES, PAGES, SLOTS, PLACES>, set: &[bool; SLOTS], d: u8) -> Count
    ensures board { tables b.new ≡ cut_of (sizes SPACES PAGES PLACES) (tables b.old) set.now d }
    ensures lost { result ≡ cut_lost (sizes SPACES PAGES PLACES) b.old.slots set.now d }
{
    let before = b.rights();
    let after = b.shape.rights_left(before, set, d);
    b.cut(set, d);
    b.drop_lost(&before, &after);
    b.shape.losses(&before, &after)
}
