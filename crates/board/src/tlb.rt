// The cache of translations: which place names a page, where an entry goes, and which entries are dropped.
ghost use Rattle.std.specs.Prelude.{◌≡◌, length};
ghost use Rattle.lend.specs.Cache.{names as names_of, place_for, empty_in, dropped, dropped_where};
ghost use Rattle.lend.specs.Translate.{with_entry};
ghost use Rattle.lend_code.specs.Access.{place_after};
ghost use Rattle.lend_code.specs.Inner.{lost_in};
ghost use Rattle.board.specs.Model.{sizes};
ghost use Rattle.board.specs.Board.{tables, with_places};
ghost use Rattle.board.specs.Found.{if_below, place_found};
ghost use Rattle.board.specs.Cache.{insert_in, drop_entry, drop_lost};

use crate::{Board, Cache, Shape};
use lend::Place;

// Whether the place is filled for the page.
fn names(place: Place, space: u8, page: u8) -> bool
    ensures { result ≡ names_of space page place }
{
    place.space == space && place.page == page && place.is_filled()
}

impl<const PLACES: usize> Cache<PLACES> {
    // The lowest place that is filled for the page, where one is.
    pub fn place_for(&self, space: u8, page: u8) -> Option<usize>
        ensures { result ≡ if_below (length self.now.places) (place_for space page self.now.places) }
    {
        self.places
            .iter()
            .position(|&place| names(place, space, page))
    }

    // The lowest empty place, where one is.
    fn empty_place(&self) -> Option<usize>
        ensures { result ≡ if_below (length self.now.places) (empty_in self.now.places) }
    {
        self.places.iter().position(|place| !place.is_filled())
    }

    // The place that names the page, where one does.
    pub fn find(&self, space: u8, page: u8) -> Option<Place>
        ensures { result ≡ place_found self.now.places space page }
    {
        self.places
            .iter()
            .copied()
            .find(|&place| names(place, space, page))
    }
}

impl<const SPACES: usize, const PAGES: usize, const SLOTS: usize, const PLACES: usize> Shape<
    SPACES,
    PAGES,
    SLOTS,
    PLACES,
> {
    // The place after this one, and the first after the last.
    fn place_after(self, place: u8) -> u8
        ensures { result ≡ place_after (sizes SPACES PAGES PLACES) place }
    {
        if usize::from(place) + 1 < PLACES {
            return place + 1;
        }
        0
    }
}

impl<const PLACES: usize> Cache<PLACES> {
    // The entry goes to the lowest empty place; with none empty to the next place to replace, whose number then moves on.
    pub fn insert<const SPACES: usize, const PAGES: usize, const SLOTS: usize>(
        mut self,
        shape: Shape<SPACES, PAGES, SLOTS, PLACES>,
        place: Place,
    ) -> Self
        ensures { result ≡ insert_in self.entry place }
    {
        match self.empty_place() {
            Some(at) => self.places[at] = place,
            None => {
                let at = usize::from(self.next);
                self.next = shape.place_after(self.next);
                if at < PLACES {
                    self.places[at] = place;
                }
            }
        }
        self
    }

    // The place gets the empty form; the others and the next place to replace stay.
    pub fn drop_entry(mut self, place: usize) -> Self
        ensures { result ≡ drop_entry self.entry place }
    {
        if place < PLACES {
            self.places[place] = Place::EMPTY;
        }
        self
    }

    // The entry of each page that lost a right is dropped.
    pub fn drop_lost<const SPACES: usize, const PAGES: usize, const SLOTS: usize>(
        mut self,
        shape: Shape<SPACES, PAGES, SLOTS, PLACES>,
        before: &[u8; SLOTS],
        after: &[u8; SLOTS],
    ) -> Self
        ensures { result ≡ drop_lost (sizes SPACES PAGES PLACES) self.entry before.now after.now }
    {
        for place in &mut self.places {
            let k = shape.key(place.space, place.page);
            if k < SLOTS && !lend::within(before[k], after[k]) {
                *place = Place::EMPTY;
            }
        }
        self
    }
}

// A board's own cache, by the same methods.
impl<const SPACES: usize, const PAGES: usize, const SLOTS: usize, const PLACES: usize> Board<
    SPACES,
    PAGES,
    SLOTS,
    PLACES,
> {
    // The entry goes to the cache.
    pub fn insert(&mut self, place: Place)
        ensures { tables self.new ≡ with_entry (tables self.old) place }
    {
        self.cache = self.cache.insert(self.shape, place);
    }

    // The entry of the page is dropped, where there is one.
    pub fn drop_entry(&mut self, space: u8, page: u8)
        ensures { tables self.new ≡ with_places (tables self.old) (dropped self.old.cache.places (place_for space page self.old.cache.places)) }
    {
        if let Some(at) = self.cache.place_for(space, page) {
            self.cache = self.cache.drop_entry(at);
        }
    }

    // The entry of each page that lost a right is dropped.
    pub fn drop_lost(&mut self, before: &[u8; SLOTS], after: &[u8; SLOTS])
        ensures { tables self.new ≡ with_places (tables self.old) (dropped_where (sizes SPACES PAGES PLACES) (lost_in before.now after.now) self.old.cache.places) }
    {
        self.cache = self.cache.drop_lost(self.shape, before, after);
    }
}
