//! A query planned in stages, in each of which other rules are off, until a plan is enough.
#![tactic(auto)]

mod codes;
mod laws;
mod run;
mod search;
mod so_far;
mod staged;

pub use laws::{
    staged_plans_are_least, stages_have_one_answer, stages_share_costs, stages_share_props,
};
pub use query_stage::Stage;
pub use run::run_stages;
pub use staged::{Staged, StagedRun};
