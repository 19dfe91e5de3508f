// What a line of a script says, written out: once for both models. The whole program is the
// definition `script_output` in specs/, and the laws that a model's loop stands on are in proofs/.
#![tactic(auto)]

ghost use Rattle.std.specs.Prelude.{◌≡◌};
ghost use Rattle.text.specs.Writer.{writes};
ghost use Rattle.script.specs.Script.{said_line};

use text::write::Writer;

// Only so many bytes of an input are read, and are the whole input.
pub const INPUT_LIMIT: usize = 65536;

// The most bytes that are printed for a byte of the input, for a page outside space 0, and for the listing's first and last line
// (specs/Bound.antt).
pub const FOR_A_BYTE: usize = 21;

pub const FOR_A_PAGE: usize = 83;

pub const FOR_THE_END: usize = 32;

// What a line says: a comment nothing, a malformed line its number 16, translate where it came to, any other call what it emptied.
#[derive(Clone, Copy)]
pub enum Said {
    Silent,
    Garbled,
    Emptied {
        number: u32,
        emptied: u32,
    },
    Translated {
        number: u32,
        address: u32,
        hit: bool,
        links: u32,
    },
}

// Writes what the line of this number says.
pub fn say(out: &mut Writer<'_>, line: u32, said: Said)
    ensures { out.new ≡ writes out.old (said_line line said) }
{
    match said {
        Said::Silent => {}
        Said::Garbled => out.malformed(line),
        Said::Emptied { number, emptied } => out.answer(line, number, emptied),
        Said::Translated {
            number,
            address,
            hit,
            links,
        } => out.translation(line, number, address, hit, links),
    }
}
