//! The items of a batch, run by a crew of threads that takes their numbers from one queue.
#![tactic(auto)]

mod batch;
mod crew;
mod laws;
mod pass_view;
mod places;
mod pool;
mod queue;
mod rule;
mod worker;

pub use batch::Batch;
pub use laws::pushes_come_first;
pub use places::PoolRun;
pub use pool::{run_all, run_alone};
