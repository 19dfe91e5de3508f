// flush over a range, page by page from the lowest up.
ghost use Rattle.std.specs.Prelude.{◌≡◌};
ghost use Rattle.lend.specs.Tables.{alone};
ghost use Rattle.lend.specs.Ranges.{FlushRange, range_number, range_step};
ghost use Rattle.lend.specs.Refusals.{answer_of};
ghost use Rattle.board.specs.Model.{sizes};
ghost use Rattle.board.specs.Board.{tables};
ghost use Rattle.calls.specs.Progress.{range_outcome};

use crate::checks::check_one;
use crate::flush::flush_page;
use crate::progress::Progress;
use board::Board;
use lend::Refusal;

// The board is tested once, since each page leaves it sound.
pub fn flush_range<
    const SPACES: usize,
    const PAGES: usize,
    const SLOTS: usize,
    const PLACES: usize,
>(
    b: &mut Board<SPACES, PAGES, SLOTS, PLACES>,
    space: u32,
    base: u32,
    size: u32,
    rights: u32,
) -> Result<Progress, Refusal>
    ensures first_checks { answer_of result ≡ range_number (sizes SPACES PAGES PLACES) (alone (tables b.old)) (FlushRange space base size rights) }
    ensures outcome { range_outcome (sizes SPACES PAGES PLACES) result (tables b.new) ≡ range_step (sizes SPACES PAGES PLACES) (alone (tables b.old)) (FlushRange space base size rights) }
{
    let range = check_one(b, space, base, size, rights)?;
    let before = b.rights();
    let mut run = Progress::NONE;
    for i in 0..range.count {
        let page = flush_page(b, space, range.first + i, rights);
        run.page_made(b.shape, i, page);
    }
    run.emptied = b.shape.lost_all(&before, &b.rights());
    Ok(run)
}
