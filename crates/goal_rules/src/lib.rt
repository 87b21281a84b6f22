//! The rules of a board for the search of a query, and what holds of them.
#![tactic(auto)]

mod laws;
mod ranks;
mod rules;

pub use laws::{entries_are_known, explorations_are_known, members_are_explored, ranks_are_known};
pub use rules::Rules;
