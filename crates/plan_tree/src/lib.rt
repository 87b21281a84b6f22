//! The nodes of plans: which of them may meet a request over which plans, and what a node costs.
#![tactic(auto)]

mod alternatives;
mod answers;
mod child_modes;
mod cost;
mod enforcers;
mod join_modes;
mod lines;
mod node;
mod node_costs;
mod plan;
mod read_modes;
mod seen;
mod seen_cost;
mod serving;
mod serving_modes;
mod walks;

pub use alternatives::{
    Alt, alternative, alternative_at, alternative_by, alternative_in, alternative_of,
    modes_are_one, word_of_candidate,
};
pub use answers::{Answered, Answers};
pub use cost::{ExprRows, enforcer_cost, enforcer_cost_by, expr_rows, native_cost, native_cost_by};
pub use enforcers::{Enforced, asked_by, enforcer, enforcer_for, enforcers_are_known};
pub use lines::{is_replicated, line_of};
pub use node::{Node, nodes_are_one};
pub use node_costs::node_cost;
pub use plan::{Found, Plan};
pub use seen::{Kids, given_satisfies, seen_above};
pub use seen_cost::{cost_above, rows_above};
pub use serving::may_give;
pub use serving_modes::{may_serve, may_serve_by, modes_to_try, next_alternative};
pub use walks::next_line;
