// A script run on a board, from the bytes of the input to the bytes of the output.
#![tactic(auto)]

mod judge;
mod lines;
pub mod run;
