//! Workers that make the turns of goals on a board: what is ready is found by hints and by scans, and any number of
//! threads work.
#![tactic(auto)]

mod claims;
mod crew;
mod goal_turns;
mod scheduler;
mod sought;
mod step;
mod stepped;
mod work;
mod worker;

pub use goal_turns::GoalTurns;
pub use scheduler::Scheduler;
pub use stepped::Stepped;
pub use worker::Worker;
