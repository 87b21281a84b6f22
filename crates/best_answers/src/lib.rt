//! The best answer for a request: what the least plan costs, and the node at its root; found from the
//! best answers for what nodes ask, in whatever order they are tried.
#![tactic(auto)]

mod best;
mod choices;
mod laws;

pub use best::{Best, lesser};
pub use choices::{best_in_mode, best_of_enforcer};
pub use laws::{answers_are_best, best_is_least};
