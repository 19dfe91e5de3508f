// The calls of both models on bytes: the board is read from its image, the call is made, and the image is written where the call is done. The
// exports for C are these functions for a model's shape; include/lend.h says what they promise.
#![tactic(auto)]

pub mod address;
mod finish;
pub mod frame;
pub mod lending;
pub mod listed;
pub mod ranges;
pub mod spaces;
pub mod start;
pub mod withdraw;
