//! The searches of many queries, each by one of a crew of threads.
#![tactic(auto)]

mod outcome;
mod queries;
mod search;

pub use outcome::ListedOutcome;
pub use search::{BatchRun, run_batch};
