// A board written over bytes of the right length; other bytes stay as they are.
ghost use Rattle.std.specs.Prelude.{◌*◌, ◌≡◌, map, length};
ghost use Rattle.image.specs.Image.{slot_bytes as bytes_of_slot, live_byte, place_bytes as bytes_of_place, count_bytes as bytes_of_count, joined, written};
ghost use Rattle.board.specs.Model.{sizes};
ghost use Rattle.board.specs.Board.{tables};

use crate::image_bytes;
use board::Board;
use image::{count_bytes, place_bytes, slot_bytes};
use lend::{Count, Place, Slot};

// Four bytes of each slot.
fn write_slots<const SLOTS: usize>(part: &mut [u8], slots: &[Slot; SLOTS])
    requires { length part.old ≡ 4 * SLOTS }
    ensures { part.new ≡ joined bytes_of_slot slots.now }
{
    for k in 0..SLOTS {
        part[4 * k..4 * k + 4].copy_from_slice(&slot_bytes(slots[k]));
    }
}

// One byte of each space.
fn write_live<const SPACES: usize>(part: &mut [u8], live: &[bool; SPACES])
    requires { length part.old ≡ SPACES }
    ensures { part.new ≡ map live_byte live.now }
{
    for s in 0..SPACES {
        part[s] = u8::from(live[s]);
    }
}

// Four bytes of each place.
fn write_places<const PLACES: usize>(part: &mut [u8], places: &[Place; PLACES])
    requires { length part.old ≡ 4 * PLACES }
    ensures { part.new ≡ joined bytes_of_place places.now }
{
    for i in 0..PLACES {
        let place = places[i];
        part[4 * i..4 * i + 4].copy_from_slice(&place_bytes(place));
    }
}

// Eight bytes of each count.
fn write_summary<const PAGES: usize>(part: &mut [u8], summary: &[Count; PAGES])
    requires { length part.old ≡ 8 * PAGES }
    ensures { part.new ≡ joined bytes_of_count summary.now }
{
    for i in 0..PAGES {
        part[8 * i..8 * i + 8].copy_from_slice(&count_bytes(summary[i]));
    }
}

// The parts one after the other: slots, live spaces, places, the next place, the summary.
pub fn write_image<
    const SPACES: usize,
    const PAGES: usize,
    const SLOTS: usize,
    const PLACES: usize,
>(image: &mut [u8], b: &Board<SPACES, PAGES, SLOTS, PLACES>)
    ensures { image.new ≡ written (sizes SPACES PAGES PLACES) image.old (tables b.now) }
{
    if image.len() != image_bytes(b.shape) {
        return;
    }
    let (slots, rest) = image.split_at_mut(4 * SLOTS);
    let (live, rest) = rest.split_at_mut(SPACES);
    let (places, rest) = rest.split_at_mut(4 * PLACES);
    let (next, summary) = rest.split_at_mut(1);
    write_slots(slots, &b.slots);
    write_live(live, &b.live);
    write_places(places, &b.cache.places);
    next[0] = b.cache.next;
    write_summary(summary, &b.summary);
}
