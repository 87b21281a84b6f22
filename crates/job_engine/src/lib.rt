//! The search of a query by any number of workers, from its root goal to all answers.
#![tactic(auto)]

mod engine;
mod note;
mod query_turns;
mod runs;
mod searches;

pub use engine::Engine;
pub use goal_rules::Rules;
pub use job_outcome::Outcome;
pub use job_scheduler::{Stepped, Worker};
pub use note::RunNote;
pub use query_turns::QueryTurns;
pub use runs::{run_alone, run_crew};
pub use searches::{search_alone, search_by_crew};
