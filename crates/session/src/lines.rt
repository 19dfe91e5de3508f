// The lines of a script, one after the other, from a board to its listing.
ghost use Rattle.std.specs.Prelude.{◌≤◌, ◌≡◌, length};
ghost use Rattle.text.specs.Writer.{writes};
ghost use Rattle.script.specs.Script.{input_limit, output_of};
ghost use Rattle.board.specs.Model.{sizes};
ghost use Rattle.board.specs.Board.{tables};

use crate::judge::line_turn;
use board::Board;
use board_listing::write::put_listing;
use script::say;
use text::line::line_end;
use text::write::Writer;

// Runs all lines and lists the pages. An input within the limit has no more lines than can be counted.
pub(crate) fn run_lines<
    const SPACES: usize,
    const PAGES: usize,
    const SLOTS: usize,
    const PLACES: usize,
>(b: &mut Board<SPACES, PAGES, SLOTS, PLACES>, input: &[u8], out: &mut Writer<'_>)
    requires { length input.now ≤ input_limit }
    ensures { out.new ≡ writes out.old (output_of (sizes SPACES PAGES PLACES) (tables b.old) input.now) }
{
    let mut line: u32 = 1;
    let mut from = 0;
    // By position: `split_inclusive` would hand out each line with the newline that `line_end` leaves out; it is no plainer.
    while from < input.len() {
        let end = line_end(input, from);
        let said = line_turn(b, &input[from..end]);
        say(out, line, said);
        line += 1;
        from = end + 1;
    }
    put_listing(out, b);
}
