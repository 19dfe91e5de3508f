// The listing of a board: written, and read back.
#![tactic(auto)]

mod live;
pub mod read;
pub mod write;
