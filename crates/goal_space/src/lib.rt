//! The goals of a search: which there are, which a goal waits for, what it asks for, its rank and
//! its word.
#![tactic(auto)]

mod goals;
mod laws;
mod phase;
mod ranks;
mod words;

pub use goals::GoalKind;
pub use laws::{answers_are_least, goals_are_known, goals_ask_for_members, ranks_fall};
pub use phase::Phase;
pub use ranks::{rank, table_count};
pub use words::goal_kinds_are_one;
