// The live spaces as one number, and back.
ghost use Rattle.std.specs.Prelude.{◌≡◌};
ghost use Rattle.listing.specs.Live.{live_number, live_flags};
ghost use Rattle.board.specs.Model.{sizes};

use board::Shape;

// Bit s is set when space s is live.
pub(crate) fn live_number<
    const SPACES: usize,
    const PAGES: usize,
    const SLOTS: usize,
    const PLACES: usize,
>(_shape: Shape<SPACES, PAGES, SLOTS, PLACES>, live: &[bool; SPACES]) -> u32
    ensures { result ≡ live_number live.now }
{
    let mut n: u32 = 0;
    for &is in live.iter().rev() {
        n = u32::from(is) + 2 * n;
    }
    n
}

// Which spaces are live by the bits of the number.
pub(crate) fn live_flags<
    const SPACES: usize,
    const PAGES: usize,
    const SLOTS: usize,
    const PLACES: usize,
>(_shape: Shape<SPACES, PAGES, SLOTS, PLACES>, n: u32) -> [bool; SPACES]
    ensures { result ≡ live_flags SPACES n }
{
    let mut live = [false; SPACES];
    let mut rest = n;
    for s in 0..SPACES {
        live[s] = rest % 2 == 1;
        rest /= 2;
    }
    live
}
