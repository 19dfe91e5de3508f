// The sizes of a model as a value that its functions take: a page as a number, and sets of pages.
ghost use Rattle.std.specs.Prelude.{◌≡◌};
ghost use Rattle.lend.specs.Sizes.{key as key_of};
ghost use Rattle.lend_code.specs.Inner.{inside_of, only_page, space_pages};
ghost use Rattle.board.specs.Model.{sizes, IsModel};

use crate::{entry, premium};

// The bytes of a page, and of a frame.
pub const PAGE_BYTES: usize = 1024;

// How many spaces, pages in each, slots of all pages, and places of the cache: numbers that belong together.
#[derive(Clone, Copy)]
pub struct Shape<const SPACES: usize, const PAGES: usize, const SLOTS: usize, const PLACES: usize> {
    ghost is_model: { IsModel SPACES PAGES SLOTS PLACES },
}

// The shape of each model's boards.
pub type Entry = Shape<{ entry::SPACES }, { entry::PAGES }, { entry::SLOTS }, { entry::PLACES }>;

pub type Premium = Shape<
    { premium::SPACES },
    { premium::PAGES },
    { premium::SLOTS },
    { premium::PLACES },
>;

pub const ENTRY: Entry = Shape {};

pub const PREMIUM: Premium = Shape {};

impl<const SPACES: usize, const PAGES: usize, const SLOTS: usize, const PLACES: usize> Shape<
    SPACES,
    PAGES,
    SLOTS,
    PLACES,
> {
    // The number of a page.
    pub fn key(self, space: u8, page: u8) -> usize
        ensures { result ≡ key_of (sizes SPACES PAGES PLACES) space page }
    {
        usize::from(space) * PAGES + usize::from(page)
    }

    // The page itself where it is in the table, else the first one: a read that needs no branch.
    pub fn inside(self, k: usize) -> usize
        ensures { result ≡ inside_of (sizes SPACES PAGES PLACES) k }
    {
        if k < SLOTS { k } else { 0 }
    }

    // The page y alone; no page where there is no such page.
    pub fn only(self, y: usize) -> [bool; SLOTS]
        ensures { result ≡ only_page (sizes SPACES PAGES PLACES) y }
    {
        let mut set = [false; SLOTS];
        if y < SLOTS {
            set[y] = true;
        }
        set
    }

    // The pages of a space.
    pub fn pages_of(self, space: usize) -> [bool; SLOTS]
        ensures { result ≡ space_pages (sizes SPACES PAGES PLACES) space }
    {
        let mut set = [false; SLOTS];
        for k in 0..SLOTS {
            set[k] = k / PAGES == space;
        }
        set
    }
}
