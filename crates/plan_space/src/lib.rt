//! Definitions: the plans of a query, what they give and cost, and the least of them; and laws on them.
#![tactic(auto)]

mod laws;
mod lines;
mod modes;
mod motions;
mod nodes;
mod seen;
mod ways;

pub use laws::{
    best_at_root_is_least, best_of_all_is_least, choices_serve, costs_fit, keys_fall, least_is_one,
    modes_are_few, plans_are_ordered, root_request_fits, root_request_is_collected,
    satisfaction_splits, what_is_asked_fits, what_is_given_fits,
};
pub use lines::{LeftDist, LeftOrder, Line};
pub use modes::{END as MODES_END, Mode, ModeSets};
pub use motions::{merges_to, motion_to, motions_are_known, moving};
pub use nodes::{Enforcer, Motion, NodeKind};
pub use seen::Kid;
pub use ways::{GroupBy, JoinBy, Kept, Way, way_of};
