// Ranges: which pages a base and a size name.
ghost use Rattle.std.specs.Prelude.{◌≡◌};
ghost use Rattle.lend.specs.Ranges.{range_of};
ghost use Rattle.board.specs.Model.{sizes};
ghost use Rattle.board.specs.Range.{range_meant, part_found};

use crate::Shape;

// The size of a part of one page; each size above it doubles the pages.
const ONE_PAGE: u32 = 10;

// The pages that a range names: the first one, and how many there are from it on.
#[derive(Clone, Copy, Debug, PartialEq, Eq)]
pub struct Range {
    pub first: u32,
    pub count: u32,
}

impl<const SPACES: usize, const PAGES: usize, const SLOTS: usize, const PLACES: usize> Shape<
    SPACES,
    PAGES,
    SLOTS,
    PLACES,
> {
    // How many pages a part of the size has, where a part has that size. What no u32 holds is more than PAGES.
    fn part_pages(self, size: u32) -> Option<u32>
        ensures { result ≡ part_found (sizes SPACES PAGES PLACES) size }
    {
        let count = 2u32.checked_pow(size.checked_sub(ONE_PAGE)?)?;
        if PAGES < count as usize {
            return None;
        }
        Some(count)
    }

    // Nil, complete, or a part, whose base is rounded down to a multiple of its pages; all else is invalid.
    #[tactic(auto, unfolding(lend::specs::Ranges::range_of))]
    pub fn range_of(self, base: u32, size: u32) -> Option<Range>
        ensures { range_meant result ≡ range_of (sizes SPACES PAGES PLACES) base size }
    {
        match (base, size) {
            (0, 0) => Some(Range { first: 0, count: 0 }),
            (0, 1) => Some(Range {
                first: 0,
                count: PAGES as u32,
            }),
            _ => {
                let count = self.part_pages(size)?;
                if PAGES <= base as usize {
                    return None;
                }
                Some(Range {
                    first: base - base % count,
                    count,
                })
            }
        }
    }
}
