// What refuses a map or a grant by the lines of its pages: the numbers 11 to 15.
ghost use Rattle.std.specs.Prelude.{◌≡◌};
ghost use Rattle.lend.specs.Lending.{grant_source};
ghost use Rattle.lend.specs.Refusals.{answer_of};
ghost use Rattle.lend_code.specs.Inner.{line_has, only_page};
ghost use Rattle.lend_code.specs.Lending.{other_in, lines_number};
ghost use Rattle.board.specs.Model.{sizes};

use board::{Board, Shape};
use lend::{Link, Refusal, first_refusal};

// The source that 14 and 15 speak of in a grant: the giver's parent.
pub(crate) fn source_of<
    const SPACES: usize,
    const PAGES: usize,
    const SLOTS: usize,
    const PLACES: usize,
>(shape: Shape<SPACES, PAGES, SLOTS, PLACES>, link: Link, giver: usize) -> usize
    ensures { result ≡ grant_source (sizes SPACES PAGES PLACES) link giver }
{
    match link {
        Link::Nothing | Link::Frame(_) => giver,
        Link::Page(space, page) => shape.key(space, page),
    }
}

// Whether a page of the space, other than this one, is in the set.
fn other_in<const SPACES: usize, const PAGES: usize, const SLOTS: usize, const PLACES: usize>(
    _shape: Shape<SPACES, PAGES, SLOTS, PLACES>,
    set: &[bool; SLOTS],
    space: usize,
    but: usize,
) -> bool
    ensures { result ≡ other_in (sizes SPACES PAGES PLACES) set.now space but }
{
    if SPACES <= space {
        return false;
    }
    for k in space * PAGES..(space + 1) * PAGES {
        if set[k] && k != but {
            return true;
        }
    }
    false
}

// Whether a page of the space, other than this one, has the source on its line.
fn other_below<const SPACES: usize, const PAGES: usize, const SLOTS: usize, const PLACES: usize>(
    b: &Board<SPACES, PAGES, SLOTS, PLACES>,
    space: usize,
    source: usize,
    but: usize,
) -> bool
    ensures { result ≡ other_in (sizes SPACES PAGES PLACES) (line_has (sizes SPACES PAGES PLACES) b.now.slots (only_page (sizes SPACES PAGES PLACES) source)) space but }
{
    if SPACES <= space {
        return false;
    }
    let source = b.shape.only(source);
    for k in space * PAGES..(space + 1) * PAGES {
        if k != but && b.line_meets(k, &source) {
            return true;
        }
    }
    false
}

// Of the giver's page and of the lines; under tells which pages have the taker on their line.
pub(crate) fn check_lines<
    const SPACES: usize,
    const PAGES: usize,
    const SLOTS: usize,
    const PLACES: usize,
>(
    b: &Board<SPACES, PAGES, SLOTS, PLACES>,
    under: &[bool; SLOTS],
    giver: usize,
    source: usize,
    taker: usize,
    rights: u8,
) -> Result<(), Refusal>
    ensures { answer_of result ≡ lines_number (sizes SPACES PAGES PLACES) b.now.slots under.now giver source taker rights }
{
    let slot = b.slots[b.shape.inside(giver)];
    let to = taker / PAGES;
    first_refusal(&[
        (!slot.is_held(), Refusal::NotHeld),
        (!lend::within(rights, slot.rights), Refusal::MissingRights),
        (
            b.line_meets(giver, &b.shape.pages_of(to)),
            Refusal::SpaceOnLine,
        ),
        (
            other_in(b.shape, under, source / PAGES, taker),
            Refusal::SourceBelowTaker,
        ),
        (other_below(b, to, source, taker), Refusal::TakerBelowSource),
    ])
}
