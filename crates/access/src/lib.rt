// Translations on a board, and the bytes of memory that they lead to. The board is lent, since a translation may change its cache; every input is
// taken.
#![tactic(auto)]

mod checks;
pub mod load;
mod look;
pub mod store;
pub mod translate;
