//! Whether a plan that is given is a valid plan of a query that meets a request, and what it costs.
#![tactic(auto)]

mod check;
mod fault;
mod findings;
mod kids;
mod needs;
mod nodes;
mod places;
mod walk;

pub use check::check_plan;
pub use fault::PlanFault;
pub use kids::has_kids;
pub use nodes::{is_enforcer_of, is_kind_of};
