// The byte image of a board: what a slot, a place and a count have to do with their bytes, for every size of table. In specs/ the whole
// image and its reading, in proofs/ that each undoes the other.
#![tactic(auto)]

ghost use Rattle.std.specs.Prelude.{◌≡◌, Some, None, cond};
ghost use Rattle.image.specs.Image.{slot_bytes as bytes_of_slot, place_bytes as bytes_of_place, count_bytes as bytes_of_count, slot_reads, slot_in, place_in, count_in};

use lend::{Count, Link, Place, Slot};

// A slot as bytes: the kind of its link and two numbers, 0 where the kind does not use them, and the rights.
pub fn slot_bytes(slot: Slot) -> [u8; 4]
    ensures { result ≡ bytes_of_slot slot }
{
    match slot.link {
        Link::Nothing => [0, 0, 0, slot.rights],
        Link::Frame(frame) => [1, frame, 0, slot.rights],
        Link::Page(space, page) => [2, space, page, slot.rights],
    }
}

// A place as bytes, a number each.
pub fn place_bytes(place: Place) -> [u8; 4]
    ensures { result ≡ bytes_of_place place }
{
    [place.space, place.page, place.frame, place.rights]
}

// A count as bytes: each number's low byte, then its high one.
pub fn count_bytes(count: Count) -> [u8; 8]
    ensures { result ≡ bytes_of_count count }
{
    let [held, held_high] = count.held.to_le_bytes();
    let [read, read_high] = count.read.to_le_bytes();
    let [write, write_high] = count.write.to_le_bytes();
    let [execute, execute_high] = count.execute.to_le_bytes();
    [
        held,
        held_high,
        read,
        read_high,
        write,
        write_high,
        execute,
        execute_high,
    ]
}

// The slot of four bytes, where they are one: the kind is known, and a number that it does not use is 0.
pub fn slot_from(bytes: [u8; 4]) -> Option<Slot>
    ensures { result ≡ cond (slot_reads bytes 0) (Some (slot_in bytes 0)) None }
{
    let (link, rights) = match bytes {
        [0, 0, 0, rights] => (Link::Nothing, rights),
        [1, frame, 0, rights] => (Link::Frame(frame), rights),
        [2, space, page, rights] => (Link::Page(space, page), rights),
        _ => return None,
    };
    Some(Slot { link, rights })
}

// The slot of any four bytes: a kind that is not known gives no link, and a number that the kind does not use is not looked at.
pub fn slot_of(bytes: [u8; 4]) -> Slot
    ensures { result ≡ slot_in bytes 0 }
{
    let [kind, first, second, rights] = bytes;
    let link = match kind {
        1 => Link::Frame(first),
        2 => Link::Page(first, second),
        _ => Link::Nothing,
    };
    Slot { link, rights }
}

// The place of four bytes.
pub fn place_from(bytes: [u8; 4]) -> Place
    ensures { result ≡ place_in bytes 0 }
{
    let [space, page, frame, rights] = bytes;
    Place {
        space,
        page,
        frame,
        rights,
    }
}

// The count of eight bytes: any two of them are a number.
pub fn count_from(bytes: [u8; 8]) -> Count
    ensures { result ≡ count_in bytes 0 }
{
    let [
        held,
        held_high,
        read,
        read_high,
        write,
        write_high,
        execute,
        execute_high,
    ] = bytes;
    Count {
        held: u16::from_le_bytes([held, held_high]),
        read: u16::from_le_bytes([read, read_high]),
        write: u16::from_le_bytes([write, write_high]),
        execute: u16::from_le_bytes([execute, execute_high]),
    }
}
