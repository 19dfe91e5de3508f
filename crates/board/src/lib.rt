// The board of a model: its types, the walk along the lines, the cache, the frame summary, and the test of soundness. The sizes are const
// parameters, so that one text is the code of both models.
#![tactic(auto)]

pub mod entry;
pub mod lines;
pub mod premium;
pub mod range;
pub mod rights;
pub mod shape;
pub mod sound;
pub mod summary;
pub mod tlb;

use lend::{Count, Place, Slot};
pub use shape::{ENTRY, PREMIUM, Shape};

// The cache of translations: its places, and the next one to replace.
#[derive(Clone, Copy)]
pub struct Cache<const PLACES: usize> {
    pub places: [Place; PLACES],
    pub next: u8,
}

// The slot of each page, space by space; which spaces are live; the cache; what ends at each frame.
#[derive(Clone, Copy)]
pub struct Board<const SPACES: usize, const PAGES: usize, const SLOTS: usize, const PLACES: usize> {
    pub shape: Shape<SPACES, PAGES, SLOTS, PLACES>,
    pub slots: [Slot; SLOTS],
    pub live: [bool; SPACES],
    pub cache: Cache<PLACES>,
    pub summary: [Count; PAGES],
}
