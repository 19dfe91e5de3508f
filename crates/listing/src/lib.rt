// The listing's line of a slot, written out: once for both models. The whole listing is the definition `listing_of`, and its reader the
// definition `reading`, both in specs/; the laws that a model's loops stand on are in proofs/.
#![tactic(auto)]

ghost use Rattle.std.specs.Prelude.{◌≡◌};
ghost use Rattle.text.specs.Writer.{writes};
ghost use Rattle.listing.specs.Listing.{slot_line};

pub mod read;

use lend::{Link, Slot};
use text::write::Writer;

// Writes the listing's line of a page that keeps this slot, and nothing where it is empty.
pub fn put_slot(out: &mut Writer<'_>, space: u32, page: u32, slot: Slot)
    ensures { out.new ≡ writes out.old (slot_line space page slot) }
{
    let rights = u32::from(slot.rights);
    match slot.link {
        Link::Nothing => {}
        Link::Frame(_) => out.page(space, page, 0, 0, rights),
        Link::Page(s, p) => out.page(space, page, u32::from(s), u32::from(p), rights),
    }
}
