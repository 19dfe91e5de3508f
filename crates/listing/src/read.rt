// The lines of a listing, read from a slice: once for both models.
ghost use Rattle.std.specs.Prelude.{◌≡◌, [], ◌∷◌};
ghost use Rattle.text.specs.Fields.{fields};
ghost use Rattle.listing.specs.Read.{ended as ended_of, up_to, live_in, held_in, row_in, refusal};
ghost use Rattle.lend.specs.Refusals.{answer_of};
ghost use Rattle.listing.specs.Loop.{rises_to};

use lend::{Refusal, first_refusal};
use text::read::fields;

// What the line of a held page says: the page, its parent, and its rights.
#[derive(Clone, Copy, PartialEq, Eq, Debug)]
pub struct Row {
    pub space: u32,
    pub page: u32,
    pub parent: u32,
    pub at: u32,
    pub rights: u32,
}

// Whether the last byte is a newline.
pub fn ended(s: &[u8]) -> bool
    ensures { result ≡ ended_of s.now }
{
    s.last().is_some_and(|&byte| byte == b'\n')
}

// The number of a line that is a key and a number no larger than the most.
fn one_number(line: &[u8], key: &[u8], most: u32) -> Option<u32>
    ensures { result ≡ up_to most (fields (key.now ∷ []) line.now) }
{
    let [n] = fields::<1>(line, &[key])?;
    if n <= most { Some(n) } else { None }
}

// The number of the first line of a listing.
pub fn live_line(line: &[u8], most: u32) -> Option<u32>
    ensures { result ≡ live_in most line.now }
{
    one_number(line, b"live=", most)
}

// The number of the last line of a listing.
pub fn held_line(line: &[u8], most: u32) -> Option<u32>
    ensures { result ≡ held_in most line.now }
{
    one_number(line, b"held=", most)
}

// What a line between them says.
pub fn page_line(line: &[u8]) -> Option<Row>
    ensures { result ≡ row_in line.now }
{
    let [space, page, parent, at, rights] = fields::<5>(
        line,
        &[b"space=", b" page=", b" parent=", b" at=", b" rights="],
    )?;
    Some(Row {
        space,
        page,
        parent,
        at,
        rights,
    })
}

// Whether pages that rose as far as the last one still rise with the next.
pub fn rises(rising: bool, last: usize, next: usize) -> bool
    ensures { result ≡ rises_to rising last next }
{
    rising & (last < next)
}

// What refuses a text, by what was found of it.
#[tactic(auto, unfolding(crate::specs::Read::refusal))]
pub fn judged(formed: bool, ordered: bool, sound: bool) -> Result<(), Refusal>
    ensures { answer_of result ≡ refusal formed ordered sound }
{
    first_refusal(&[
        (!formed, Refusal::MalformedListing),
        (!ordered, Refusal::DisorderedListing),
        (!sound, Refusal::Unsound),
    ])
}
