//! The top call: what `orca` does for the words of a command line, over a shelf of files and a sink for the text.
#![tactic(auto)]

mod answer;
mod asked;
mod batch;
mod batch_text;
mod catalogs;
mod checks;
mod dumps;
mod ending;
mod faults;
mod generated;
mod laws;
mod lines;
mod lists;
mod planning;
mod prepared;
mod queries;
mod reading;
mod search;
mod sections;
mod stage_text;
mod stages;
mod status;
mod text;
mod top;
mod work;

pub use ending::finished;
pub use job_engine::RunNote;
pub use laws::{endings_have_causes, one_outcome, replays_are_plans, stages_are_bound_once};
pub use status::Status;
pub use top::{is_for_one, orca_alone, orca_run, put_usage};
