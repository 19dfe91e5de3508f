// How far a call over a range has come.
ghost use Rattle.std.specs.Prelude.{◌≡◌};
ghost use Rattle.calls.specs.Progress.{page_made};

use board::Shape;
use lend::Refusal;

// How many pages were done; the first refused page by its offset, with what refused it; how many pages the whole call emptied.
#[derive(Clone, Copy, Debug, PartialEq, Eq)]
pub struct Progress {
    pub done: u32,
    pub refused: Option<(u32, Refusal)>,
    pub emptied: u32,
}

impl Progress {
    // Before the first page.
    pub(crate) const NONE: Progress = Progress {
        done: 0,
        refused: None,
        emptied: 0,
    };

    // After the page at offset i: a done one is counted, up to all of them, and of the refused ones the first is remembered.
    pub fn page_made<
        const SPACES: usize,
        const PAGES: usize,
        const SLOTS: usize,
        const PLACES: usize,
    >(&mut self, _shape: Shape<SPACES, PAGES, SLOTS, PLACES>, i: u32, page: Result<u32, Refusal>)
        ensures { self.new ≡ page_made PAGES self.old i page }
    {
        match page {
            Ok(_) => {
                if (self.done as usize) < PAGES {
                    self.done += 1;
                }
            }
            Err(refusal) => self.refused = self.refused.or(Some((i, refusal))),
        }
        self.emptied = 0;
    }
}
