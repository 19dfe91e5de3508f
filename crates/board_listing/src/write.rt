// The listing of a board, written.
ghost use Rattle.std.specs.Prelude.{◌≡◌};
ghost use Rattle.text.specs.Write.{Wrote};
ghost use Rattle.text.specs.Writer.{writes};
ghost use Rattle.listing.specs.Listing.{listing_of};
ghost use Rattle.listing.specs.Write.{writing};
ghost use Rattle.board.specs.Model.{sizes};
ghost use Rattle.board.specs.Board.{tables};
ghost use Rattle.board_listing.specs.Answer.{filled};

use crate::live::live_number;
use board::Board;
use lend::Refusal;
use listing::put_slot;
use text::write::Writer;

// Writes which spaces are live, the line of each held page outside space 0, by rising space, then page, and then how many they are.
pub fn put_listing<
    const SPACES: usize,
    const PAGES: usize,
    const SLOTS: usize,
    const PLACES: usize,
>(out: &mut Writer<'_>, b: &Board<SPACES, PAGES, SLOTS, PLACES>)
    ensures { out.new ≡ writes out.old (listing_of (sizes SPACES PAGES PLACES) (tables b.now)) }
{
    out.live(live_number(b.shape, &b.live));
    let mut held: u32 = 0;
    for (k, &slot) in b.slots.iter().enumerate().skip(PAGES) {
        put_slot(out, (k / PAGES) as u32, (k % PAGES) as u32, slot);
        held += u32::from(slot.is_held());
    }
    out.held(held);
}

// Writes the listing from the buffer's start on, and answers how long it is; a buffer of no bytes measures.
fn list_into<const SPACES: usize, const PAGES: usize, const SLOTS: usize, const PLACES: usize>(
    out: &mut [u8],
    b: &Board<SPACES, PAGES, SLOTS, PLACES>,
) -> usize
    ensures { Wrote out.old 0 (listing_of (sizes SPACES PAGES PLACES) (tables b.now)) out.new result }
{
    let mut writer = Writer::new(out);
    put_listing(&mut writer, b);
    writer.at()
}

// Writes a sound board's listing into a buffer that is long enough, and else nothing; answers how long it is.
pub fn write_listing<
    const SPACES: usize,
    const PAGES: usize,
    const SLOTS: usize,
    const PLACES: usize,
>(b: &Board<SPACES, PAGES, SLOTS, PLACES>, out: &mut [u8]) -> Result<usize, Refusal>
    ensures { filled result out.new ≡ writing (sizes SPACES PAGES PLACES) (tables b.now) out.old }
{
    if !b.sound() {
        return Err(Refusal::Unsound);
    }
    let length = list_into(&mut [], b);
    if out.len() < length {
        return Err(Refusal::ShortBuffer);
    }
    Ok(list_into(out, b))
}
