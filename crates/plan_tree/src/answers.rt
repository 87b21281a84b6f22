//! The answers to the goals of a search.
#![tactic(auto)]

use crate::node::Node;
use orca_base::List;
use query_core::Goal;

/// The answer to a goal: for a group or an expression and a request the root of the least plan and
/// what that costs. Where there is no plan the node is 0; a goal of another kind has node 0 and cost
/// 0.
#[derive(Clone, Copy, PartialEq, Eq)]
pub struct Answered {
    pub goal: Goal,
    pub node: Node,
    pub cost: Option<u64>,
}

/// The answers to all goals of a query, ascending by the goals' words.
#[derive(Drop)]
pub struct Answers {
    pub list: List<Answered>,
}
