// What refuses a call by the numbers that it names, in the order of the table.
ghost use Rattle.std.specs.Prelude.{◌≡◌, IfOk, Some, cond};
ghost use Rattle.lend.specs.Refusals.{answer_of};
ghost use Rattle.lend.specs.Ranges.{range_of};
ghost use Rattle.lend_code.specs.Inner.{page_checks};
ghost use Rattle.lend_code.specs.Lending.{named_checks};
ghost use Rattle.lend_code.specs.Ranges.{one_number, pair_number};
ghost use Rattle.board.specs.Model.{sizes};
ghost use Rattle.board.specs.Board.{tables};
ghost use Rattle.board.specs.Range.{range_meant};

use board::Board;
use board::range::Range;
use lend::{Refusal, bad_rights, first_refusal};

// Of a call that names a page and rights, on a sound board; shut tells whether 9 applies.
pub(crate) fn check_page<
    const SPACES: usize,
    const PAGES: usize,
    const SLOTS: usize,
    const PLACES: usize,
>(
    b: &Board<SPACES, PAGES, SLOTS, PLACES>,
    space: u32,
    page: u32,
    rights: u32,
    shut: bool,
) -> Result<(), Refusal>
    ensures { answer_of result ≡ page_checks (sizes SPACES PAGES PLACES) b.now.live space page rights (cond shut 9 0) }
{
    let s = space as usize;
    first_refusal(&[
        (SPACES <= s, Refusal::NoSpace),
        (!b.is_live(s), Refusal::NotLive),
        (PAGES <= page as usize, Refusal::NoPage),
        (bad_rights(rights), Refusal::BadRights),
        (shut, Refusal::ShutSpace),
    ])
}

// 3 to 9 of a map or a grant, on a sound board: of the spaces, pages and rights that are named; shut tells whether 9 applies.
pub(crate) fn check_named<
    const SPACES: usize,
    const PAGES: usize,
    const SLOTS: usize,
    const PLACES: usize,
>(
    b: &Board<SPACES, PAGES, SLOTS, PLACES>,
    from: u32,
    page: u32,
    to: u32,
    at: u32,
    rights: u32,
    shut: bool,
) -> Result<(), Refusal>
    ensures { answer_of result ≡ named_checks (sizes SPACES PAGES PLACES) b.now.live from page to at rights shut }
{
    let giver = from as usize;
    let taker = to as usize;
    first_refusal(&[
        (SPACES <= giver || SPACES <= taker, Refusal::NoSpace),
        (!b.is_live(giver) || !b.is_live(taker), Refusal::NotLive),
        (
            PAGES <= page as usize || PAGES <= at as usize,
            Refusal::NoPage,
        ),
        (bad_rights(rights), Refusal::BadRights),
        (shut, Refusal::ShutSpace),
    ])
}

// The first checks of a call over the range of one space, which they hand back where they pass.
pub(crate) fn check_one<
    const SPACES: usize,
    const PAGES: usize,
    const SLOTS: usize,
    const PLACES: usize,
>(
    b: &Board<SPACES, PAGES, SLOTS, PLACES>,
    space: u32,
    base: u32,
    size: u32,
    rights: u32,
) -> Result<Range, Refusal>
    ensures number { answer_of result ≡ one_number (sizes SPACES PAGES PLACES) (tables b.now) space (range_of (sizes SPACES PAGES PLACES) base size) rights }
    ensures range { IfOk result (λ r. range_meant (Some r) ≡ range_of (sizes SPACES PAGES PLACES) base size) }
{
    let s = space as usize;
    first_refusal(&[
        (!b.sound(), Refusal::Unsound),
        (SPACES <= s, Refusal::NoSpace),
        (!b.is_live(s), Refusal::NotLive),
        (bad_rights(rights), Refusal::BadRights),
    ])?;
    b.shape.range_of(base, size).ok_or(Refusal::InvalidRange)
}

// The first checks of a call over two ranges, which they hand back where they pass: the giver's and the taker's.
pub(crate) fn check_pair<
    const SPACES: usize,
    const PAGES: usize,
    const SLOTS: usize,
    const PLACES: usize,
>(
    b: &Board<SPACES, PAGES, SLOTS, PLACES>,
    from: u32,
    given: (u32, u32),
    to: u32,
    taken: (u32, u32),
    rights: u32,
) -> Result<(Range, Range), Refusal>
    ensures number { answer_of result ≡ pair_number (sizes SPACES PAGES PLACES) (tables b.now) from (range_of (sizes SPACES PAGES PLACES) given.0 given.1) to (range_of (sizes SPACES PAGES PLACES) taken.0 taken.1) rights }
    ensures given { IfOk result (λ r. range_meant (Some r.0) ≡ range_of (sizes SPACES PAGES PLACES) given.0 given.1) }
    ensures taken { IfOk result (λ r. range_meant (Some r.1) ≡ range_of (sizes SPACES PAGES PLACES) taken.0 taken.1) }
{
    let giver = from as usize;
    let taker = to as usize;
    first_refusal(&[
        (!b.sound(), Refusal::Unsound),
        ((SPACES <= giver) | (SPACES <= taker), Refusal::NoSpace),
        (!b.is_live(giver) | !b.is_live(taker), Refusal::NotLive),
        (bad_rights(rights), Refusal::BadRights),
    ])?;
    let given = b
        .shape
        .range_of(given.0, given.1)
        .ok_or(Refusal::InvalidRange)?;
    let taken = b
        .shape
        .range_of(taken.0, taken.1)
        .ok_or(Refusal::InvalidRange)?;
    if given.count != taken.count {
        return Err(Refusal::UnequalRanges);
    }
    Ok((given, taken))
}
