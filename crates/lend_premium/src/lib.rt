// Made by tools/models.py from crates/lend_entry/src/lib.rt: change that file.
// The calls for C, as include/lend.h declares them: bytes in, bytes out, and every input is taken. The board is read from its image, the call
// is made, and the image is written where the call is done.
#![tactic(auto)]

pub mod address;
pub mod frame;
pub mod lending;
pub mod listed;
pub mod ranges;
pub mod spaces;
pub mod start;
pub mod withdraw;
