// Walks along the lines of pages: one page of a line in each turn.
ghost use Rattle.std.specs.Prelude.{◌≡◌, ◌<◌, Some, None, cond};
ghost use Rattle.lend.specs.Lists.{any, every, tabulate};
ghost use Rattle.lend.specs.Sizes.{slot_count};
ghost use Rattle.lend.specs.Slots.{slot_at};
ghost use Rattle.lend.specs.Line.{line_of, frame_of, links_of};
ghost use Rattle.lend_code.specs.Inner.{has, line_has, quick_line, Fitting};
ghost use Rattle.board.specs.Model.{sizes};

use crate::Board;
use lend::Link;

// What the walk along the line of one page finds: the frame at its end, 0 where there is none, and how many links lead to it.
#[derive(Clone, Copy, Debug, PartialEq, Eq)]
pub struct Lookup {
    pub frame: u8,
    pub links: u8,
}

impl<const SPACES: usize, const PAGES: usize, const SLOTS: usize, const PLACES: usize> Board<
    SPACES,
    PAGES,
    SLOTS,
    PLACES,
> {
    // Whether a page on the line of page k is in the set.
    pub fn line_meets(&self, k: usize, set: &[bool; SLOTS]) -> bool
        ensures { result ≡ any (has set.now) (line_of (sizes SPACES PAGES PLACES) (slot_at self.now.slots) k) }
    {
        let mut at = k;
        for _ in 0..SPACES {
            if SLOTS <= at {
                return false;
            }
            if set[at] {
                return true;
            }
            let Link::Page(space, page) = self.slots[at].link else {
                return false;
            };
            at = self.shape.key(space, page);
        }
        false
    }

    // For each page, whether a page on its line is in the set. A page that leads to no other is alone on its line.
    pub fn line_has(&self, set: &[bool; SLOTS]) -> [bool; SLOTS]
        ensures { result ≡ line_has (sizes SPACES PAGES PLACES) self.now.slots set.now }
    {
        let mut found = *set;
        for k in 0..SLOTS {
            if let Link::Page(..) = self.slots[k].link {
                found[k] = self.line_meets(k, set);
            }
        }
        found
    }

    // The frame at the end of the line of page k, and the links to it.
    pub fn lookup(&self, k: usize) -> Lookup
        ensures frame { result.frame ≡ frame_of (sizes SPACES PAGES PLACES) (slot_at self.now.slots) k }
        ensures links { result.links ≡ links_of (sizes SPACES PAGES PLACES) (slot_at self.now.slots) k }
    {
        let mut at = k;
        let mut links: u8 = 0;
        for _ in 0..SPACES {
            if SLOTS <= at {
                return Lookup { frame: 0, links };
            }
            match self.slots[at].link {
                Link::Nothing => return Lookup { frame: 0, links },
                Link::Frame(frame) => return Lookup {
                    frame,
                    links: links + 1,
                },
                Link::Page(space, page) => at = self.shape.key(space, page),
            }
            links += 1;
        }
        Lookup { frame: 0, links }
    }

    // The frame at the end of the line of page k, where that line reaches space 0 and has no other page in the space of k.
    // Every slot fits its page already.
    fn rooted_frame(&self, k: usize) -> Option<u8>
        requires fitting { Fitting (sizes SPACES PAGES PLACES) self.now.slots }
        requires inside { k < SLOTS }
        ensures { result ≡ cond (quick_line (sizes SPACES PAGES PLACES) (slot_at self.now.slots) k)
            (Some (frame_of (sizes SPACES PAGES PLACES) (slot_at self.now.slots) k)) None }
    {
        let mut at = k;
        for _ in 0..SPACES {
            match self.slots[at].link {
                Link::Nothing => return Some(0),
                Link::Frame(frame) => return Some(frame),
                Link::Page(space, page) => at = self.shape.key(space, page),
            }
            if at / PAGES == k / PAGES {
                return None;
            }
        }
        None
    }

    // The frame of every page, where the line of each held page reaches space 0 and meets no space twice. Every slot fits its page already.
    pub(crate) fn frames(&self) -> Option<[u8; SLOTS]>
        requires { Fitting (sizes SPACES PAGES PLACES) self.now.slots }
        ensures { result ≡ cond (every (slot_count (sizes SPACES PAGES PLACES)) (quick_line (sizes SPACES PAGES PLACES) (slot_at self.now.slots)))
            (Some (tabulate (slot_count (sizes SPACES PAGES PLACES)) (λ k. frame_of (sizes SPACES PAGES PLACES) (slot_at self.now.slots) k))) None }
    {
        let mut frames = [0u8; SLOTS];
        for k in 0..SLOTS {
            frames[k] = self.rooted_frame(k)?;
        }
        Some(frames)
    }
}
