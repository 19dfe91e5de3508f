// The test of soundness. It takes any board: the slots first, then the lines, which may be walked once every slot fits, then
// the cache and the summary, which are held against the rights, frames and counts that were found.
ghost use Rattle.std.specs.Prelude.{◌≡◌, ◌<◌, cond, Some, None, Ok, Err};
ghost use Rattle.lend.specs.Sizes.{slot_count};
ghost use Rattle.lend.specs.Lists.{every};
ghost use Rattle.lend.specs.Slots.{slot_at};
ghost use Rattle.lend.specs.Tables.{alive};
ghost use Rattle.lend.specs.Cache.{place_at};
ghost use Rattle.lend.specs.SoundTest.{slot_test, pages_test, is_empty_place, sound_test, Tells};
ghost use Rattle.lend.specs.declared.refusal.Refusal.TheVariants.{Unsound};
ghost use Rattle.lend_code.specs.Inner.{lent_fits, place_fits, place_ok, places_fit};
ghost use Rattle.lend_code.specs.Earlier.{frames_found};
ghost use Rattle.board.specs.Model.{sizes};
ghost use Rattle.board.specs.Board.{tables};
ghost use Rattle.board.specs.Found.{pages_of};

use crate::Board;
use lend::{Count, Link, Place, Refusal, Slot};

// What is found of pages that are sound: the rights and the frame of each, and the counts of all frames.
#[derive(Clone, Copy)]
pub struct Pages<const PAGES: usize, const SLOTS: usize> {
    pub rights: [u8; SLOTS],
    pub frames: [u8; SLOTS],
    pub counts: [Count; PAGES],
}

// What the test of soundness tells of any board: whether it is sound, and the frame of each page where the pages are.
#[derive(Clone, Copy)]
pub struct Checked<const SLOTS: usize> {
    pub sound: bool,
    pub frames: [u8; SLOTS],
}

impl<const SPACES: usize, const PAGES: usize, const SLOTS: usize, const PLACES: usize> Board<
    SPACES,
    PAGES,
    SLOTS,
    PLACES,
> {
    // Whether the space is live; past the last space none is.
    pub fn is_live(&self, space: usize) -> bool
        ensures { result ≡ alive self.now.live space }
    {
        space < SPACES && self.live[space]
    }

    // Whether page k, with these rights, may be lent by a page of the space that keeps the slot up.
    #[tactic(auto, unfolding(lend_code::specs::Inner::lent_fits))]
    fn lent_fits(&self, up: Slot, k: usize, rights: u8, space: u8, page: u8) -> bool
        ensures { result ≡ lent_fits (sizes SPACES PAGES PLACES) self.now.live up k rights space page }
    {
        let from = usize::from(space);
        self.is_live(k / PAGES)
            && from < SPACES
            && usize::from(page) < PAGES
            && self.is_live(from)
            && up.is_held()
            && 1 <= rights
            && rights <= 7
            && lend::within(rights, up.rights)
    }

    // The slot of page k; past the last page an empty one.
    fn slot(&self, k: usize) -> Slot
        ensures { result ≡ slot_at self.now.slots k }
    {
        self.slots.get(k).copied().unwrap_or(Slot::EMPTY)
    }

    // Whether page k may keep its slot, its line aside.
    #[tactic(auto, unfolding(lend::specs::SoundTest::slot_test, lend_code::specs::Inner::lent_fits))]
    fn slot_fits(&self, k: usize) -> bool
        ensures { result ≡ slot_test (sizes SPACES PAGES PLACES) self.now.live (slot_at self.now.slots) k }
    {
        let slot = self.slot(k);
        match slot.link {
            Link::Nothing => PAGES <= k && slot.rights == 0,
            Link::Frame(frame) => k < PAGES && usize::from(frame) == k && slot.rights == 7,
            Link::Page(space, page) => {
                let up = self.slot(self.shape.key(space, page));
                PAGES <= k && self.lent_fits(up, k, slot.rights, space, page)
            }
        }
    }

    // Whether every page may keep its slot, its line aside.
    fn slots_fit(&self) -> bool
        ensures { result ≡ every (slot_count (sizes SPACES PAGES PLACES)) (slot_test (sizes SPACES PAGES PLACES) self.now.live (slot_at self.now.slots)) }
    {
        for k in 0..SLOTS {
            if !self.slot_fits(k) {
                return false;
            }
        }
        true
    }

    // Whether the place names a page of these rights and this frame.
    #[tactic(auto, unfolding(lend_code::specs::Inner::place_fits))]
    fn place_fits(&self, place: Place, rights: u8, frame: u8) -> bool
        ensures { result ≡ place_fits (sizes SPACES PAGES PLACES) rights frame place }
    {
        place.is_filled()
            && usize::from(place.space) < SPACES
            && usize::from(place.page) < PAGES
            && place.frame == frame
            && place.rights == rights
    }

    // Whether place i is empty, or is the lowest for its page and has that page's frame and rights.
    fn place_ok(&self, i: usize, rights: &[u8; SLOTS], frames: &[u8; SLOTS]) -> bool
        requires { i < PLACES }
        ensures { result ≡ place_ok (sizes SPACES PAGES PLACES) rights.now frames.now self.now.cache.places i (place_at self.now.cache.places i) }
    {
        let place = self.cache.places[i];
        let at = self.shape.inside(self.shape.key(place.space, place.page));
        place == Place::EMPTY
            || (self.place_fits(place, rights[at], frames[at])
                && self.cache.place_for(place.space, place.page) == Some(i))
    }

    // Whether every place is empty, or is the only one for its page and has that page's frame and rights.
    fn places_fit(&self, rights: &[u8; SLOTS], frames: &[u8; SLOTS]) -> bool
        ensures { result ≡ places_fit (sizes SPACES PAGES PLACES) rights.now frames.now self.now.cache.places }
    {
        for i in 0..PLACES {
            if !self.place_ok(i, rights, frames) {
                return false;
            }
        }
        true
    }

    // What is found of the pages, whatever numbers stand in them, where they are sound.
    pub fn examine(&self) -> Option<Pages<PAGES, SLOTS>>
        ensures { result ≡ cond (pages_test (sizes SPACES PAGES PLACES) self.now.live (slot_at self.now.slots)) (Some (pages_of (sizes SPACES PAGES PLACES) self.now.slots)) None }
    {
        if self.is_live(0) && self.is_live(1) && self.slots_fit() {
            let frames = self.frames()?;
            return Some(Pages {
                rights: self.rights(),
                frames,
                counts: self.tally(&frames),
            });
        }
        None
    }

    // What is found of the pages, where the whole board is sound.
    pub fn check(&self) -> Result<Pages<PAGES, SLOTS>, Refusal>
        ensures { result ≡ cond (sound_test (sizes SPACES PAGES PLACES) (tables self.now)) (Ok (pages_of (sizes SPACES PAGES PLACES) self.now.slots)) (Err Unsound) }
    {
        let Some(pages) = self.examine() else {
            return Err(Refusal::Unsound);
        };
        if self.places_fit(&pages.rights, &pages.frames)
            && usize::from(self.cache.next) < PLACES
            && self.summary == pages.counts
        {
            return Ok(pages);
        }
        Err(Refusal::Unsound)
    }

    // Whether the board is sound, and the frames that were found on the way, also where only the cache or the summary is wrong.
    pub fn checked(&self) -> Checked<SLOTS>
        ensures sound { result.sound ≡ sound_test (sizes SPACES PAGES PLACES) (tables self.now) }
        ensures frames { result.frames ≡ frames_found (sizes SPACES PAGES PLACES) self.now.slots self.now.live }
    {
        match self.check() {
            Ok(pages) => {
                let frames = pages.frames;
                Checked {
                    sound: true,
                    frames,
                }
            }
            Err(_) => {
                let frames = self.frames_found();
                Checked {
                    sound: false,
                    frames,
                }
            }
        }
    }

    // The frames of all pages where these are sound, else zeros.
    fn frames_found(&self) -> [u8; SLOTS]
        ensures { result ≡ frames_found (sizes SPACES PAGES PLACES) self.now.slots self.now.live }
    {
        match self.examine() {
            Some(pages) => pages.frames,
            None => [0; SLOTS],
        }
    }

    // Whether the board is sound, whatever numbers stand in it.
    pub fn sound(&self) -> bool
        ensures { Tells (sizes SPACES PAGES PLACES) (tables self.now) result }
    {
        self.check().is_ok()
    }
}
