//! What the search of a query gave, read of its closed board.
#![tactic(auto)]

mod laws;
mod lists;
mod outcome;
mod searched;

pub use laws::{entries_fit_or_not, finishers_are_known};
pub use outcome::{Outcome, outcome_of};
pub use searched::{Lists, Searched};
