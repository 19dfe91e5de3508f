// Made by tools/models.py from crates/board_script_from/src/main.rt: change that file.
// board-script --from for this model: runs the script on standard input, from the board of the listing that a file descriptor of its
// own gives, and writes its output to standard output.
#![tactic(auto)]

ghost use Rattle.std.specs.Prelude.{◌≤◌, ◌≡◌, length, take};
ghost use Rattle.io.specs.Counts.{IsPrefixLen};
ghost use Rattle.script.specs.Script.{input_limit};
ghost use Rattle.script.specs.From.{from_output};
ghost use Rattle.script.specs.Bound.{output_bound};
ghost use Rattle.lend.specs.Sizes.{premium as sizes};

use board::PREMIUM;
use session::run::run_from;

// The file descriptor that gives the listing: none that a shell has open by habit.
const LISTING: i32 = 42;

// The length of the output's buffer.
const ROOM: usize = 1500000;

// Runs the script in a buffer that is long enough for every script, and answers how many bytes at its start are the output.
fn answer(listing: &[u8], input: &[u8], output: &mut [u8]) -> usize
    requires { output_bound sizes input_limit ≤ length output.old }
    ensures prefix_len { IsPrefixLen result output.new }
    ensures output_after { take result output.new ≡ from_output sizes listing.now input.now }
{
    run_from(PREMIUM, listing, input, output)
}

// Runs the script and writes its output.
fn serve(listing: &[u8], input: &[u8], output: &mut [u8]) -> bool
    requires { output_bound sizes input_limit ≤ length output.old }
{
    let n = answer(listing, input, output);
    io::write_all(1, &output[..n])
}

// Lent as an array, the output asks no proof of its length, which would be counted out.
fn serve_in(listing: &[u8], input: &[u8], output: &mut [u8; ROOM]) -> bool {
    serve(listing, input, output)
}

fn main() {
    let mut listing = io::large_buffer();
    let m = io::read_full(LISTING, &mut listing);
    let mut input = io::large_buffer();
    let n = io::read_full(0, &mut input);
    let mut output = [0u8; ROOM];
    serve_in(&listing[..m], &input[..n], &mut output);
}
