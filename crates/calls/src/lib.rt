// The calls on a board: it is lent, and stands changed when the call is done, unchanged when it is refused. Every input is taken.
#![tactic(auto)]

mod checks;
pub mod create;
pub mod delete;
pub mod flush;
pub mod flush_range;
pub mod grant;
pub mod grant_range;
mod lines;
pub mod map;
pub mod map_range;
pub mod progress;
mod relink;
pub mod start;
pub mod unmap;
pub mod unmap_range;
mod withdraw;
