// What translate, load and store have in common once they are accepted.
ghost use Rattle.std.specs.Prelude.{◌≡◌};
ghost use Rattle.lend_code.specs.Access.{look_at, byte_at};
ghost use Rattle.board.specs.Model.{sizes};
ghost use Rattle.board.specs.Board.{tables};
ghost use Rattle.access.specs.Answers.{seen};

use board::Board;
use board::shape::PAGE_BYTES;
use lend::Place;

// What a look at a page finds: the page's frame, and the links that were followed to it, none where the page was in the cache.
#[derive(Clone, Copy, Debug, PartialEq, Eq)]
pub(crate) struct Seen {
    pub frame: u8,
    pub followed: Option<u8>,
}

// A hit takes the frame from the cache, follows no link and changes nothing; a miss follows the page's line and puts its entry in.
pub(crate) fn look<
    const SPACES: usize,
    const PAGES: usize,
    const SLOTS: usize,
    const PLACES: usize,
>(b: &mut Board<SPACES, PAGES, SLOTS, PLACES>, space: u8, page: u8) -> Seen
    ensures { seen result (tables b.new) ≡ look_at (sizes SPACES PAGES PLACES) (tables b.old) space page }
{
    if let Some(place) = b.cache.find(space, page) {
        return Seen {
            frame: place.frame,
            followed: None,
        };
    }
    let k = b.shape.key(space, page);
    let end = b.lookup(k);
    let rights = b.slots[b.shape.inside(k)].rights;
    b.insert(Place {
        space,
        page,
        frame: end.frame,
        rights,
    });
    Seen {
        frame: end.frame,
        followed: Some(end.links),
    }
}

// The byte of the frame that is as far in as the address is in its page.
pub(crate) fn byte_at(frame: u8, address: u32) -> usize
    ensures { result ≡ byte_at frame address }
{
    PAGE_BYTES * usize::from(frame) + address as usize % PAGE_BYTES
}
