//! A set of words by open addressing: a word keeps its place, and a probe from its home finds it.
#![tactic(auto)]

mod outcome;
mod places;
mod probing;
mod table;

pub use outcome::Inserted;
pub use places::{home, next_place};
pub use table::WordTable;
