// Made by tools/models.py from crates/board_script/src/main.rt: change that file.
// board-script for this model: runs the script on standard input and writes its output to standard output.
#![tactic(auto)]

ghost use Rattle.std.specs.Prelude.{◌≤◌, ◌≡◌, length, take};
ghost use Rattle.io.specs.Counts.{IsPrefixLen};
ghost use Rattle.script.specs.Script.{input_limit, script_output};
ghost use Rattle.script.specs.Bound.{output_bound};
ghost use Rattle.lend.specs.Sizes.{premium as sizes};

use board::PREMIUM;
use session::run::run;

// The length of the output's buffer.
const ROOM: usize = 1500000;

// Runs the script in a buffer that is long enough for every script, and answers how many bytes at its start are the output.
fn answer(input: &[u8], output: &mut [u8]) -> usize
    requires { output_bound sizes input_limit ≤ length output.old }
    ensures prefix_len { IsPrefixLen result output.new }
    ensures output_after { take result output.new ≡ script_output sizes input.now }
{
    run(PREMIUM, input, output)
}

// Runs the script and writes its output.
fn serve(input: &[u8], output: &mut [u8]) -> bool
    requires { output_bound sizes input_limit ≤ length output.old }
{
    let n = answer(input, output);
    io::write_all(1, &output[..n])
}

// Lent as an array, the output asks no proof of its length, which would be counted out.
fn serve_in(input: &[u8], output: &mut [u8; ROOM]) -> bool {
    serve(input, output)
}

fn main() {
    let mut input = io::large_buffer();
    let n = io::read_full(0, &mut input);
    let mut output = [0u8; ROOM];
    serve_in(&input[..n], &mut output);
}
