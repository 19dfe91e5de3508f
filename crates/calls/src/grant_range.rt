// grant over two ranges: the pages are paired by their offset, and the calls made one by one from the lowest up.
ghost use Rattle.std.specs.Prelude.{◌≡◌};
ghost use Rattle.lend.specs.Tables.{alone};
ghost use Rattle.lend.specs.Ranges.{GrantRange, range_number, range_step};
ghost use Rattle.lend.specs.Refusals.{answer_of};
ghost use Rattle.board.specs.Model.{sizes};
ghost use Rattle.board.specs.Board.{tables};
ghost use Rattle.calls.specs.Progress.{range_outcome};

use crate::checks::check_pair;
use crate::grant::grant_page;
use crate::progress::Progress;
use board::Board;
use lend::Refusal;

// The board is tested once, since each page leaves it sound.
pub fn grant_range<
    const SPACES: usize,
    const PAGES: usize,
    const SLOTS: usize,
    const PLACES: usize,
>(
    b: &mut Board<SPACES, PAGES, SLOTS, PLACES>,
    from: u32,
    base: u32,
    size: u32,
    to: u32,
    at_base: u32,
    at_size: u32,
    rights: u32,
) -> Result<Progress, Refusal>
    ensures first_checks { answer_of result ≡ range_number (sizes SPACES PAGES PLACES) (alone (tables b.old)) (GrantRange from base size to at_base at_size rights) }
    ensures outcome { range_outcome (sizes SPACES PAGES PLACES) result (tables b.new) ≡ range_step (sizes SPACES PAGES PLACES) (alone (tables b.old)) (GrantRange from base size to at_base at_size rights) }
{
    let (given, taken) = check_pair(b, from, (base, size), to, (at_base, at_size), rights)?;
    let before = b.rights();
    let mut run = Progress::NONE;
    for i in 0..given.count {
        let page = grant_page(b, from, given.first + i, to, taken.first + i, rights);
        run.page_made(b.shape, i, page);
    }
    run.emptied = b.shape.lost_all(&before, &b.rights());
    Ok(run)
}
