// The sizes of the entry model as numbers, and where the parts of the image of its boards begin, for who lays out memory before any call.
pub const SPACES: usize = 8;

pub const PAGES: usize = 32;

pub const SLOTS: usize = SPACES * PAGES;

pub const PLACES: usize = 8;

// The live spaces, the places of the cache, the next place and the summary begin there, and the image ends.
pub const LIVE: usize = 4 * SLOTS;

pub const CACHE: usize = LIVE + SPACES;

pub const NEXT: usize = CACHE + 4 * PLACES;

pub const SUMMARY: usize = NEXT + 1;

pub const IMAGE: usize = SUMMARY + 8 * PAGES;
