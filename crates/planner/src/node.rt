//! What planning gives: the least plan as a list of nodes, or that there is none.
#![tactic(auto)]

use orca_base::{List, Text};
use plan_space::NodeKind;
use query_core::Query;

/// A column by which a node works.
#[derive(Drop)]
pub struct PlanColumn {
    /// Its table's alias, a point and its name; or what an aggregate computes, as `COUNT(*)`.
    pub name: Text,
    /// Whether rows are sorted by it from the greatest value down.
    pub descending: bool,
}

/// A node of a plan.
#[derive(Drop)]
pub struct PlanNode {
    /// How many nodes stand above it.
    pub depth: usize,
    /// What it does. Its tables have their places in FROM, and `Mode::at` tells what the number of its mode means.
    pub operator: NodeKind,
    /// The same by names, in its mode, as the program prints it: `HashJoin(colocated p0)`.
    pub text: Text,
    /// By which columns it works: of a sort and a merge those of its order, of a redistribution those whose hash it
    /// takes, of an aggregation those of GROUP BY, of an index those that it has, and of a join the two of each
    /// equality between its sides, the left one first. All other nodes have none.
    pub columns: List<PlanColumn>,
    /// The estimated rows that it gives, on all segments together and each once: 0 to 10^12.
    pub rows: u64,
    /// What it costs by itself, in units of cost: 1 to 10^15.
    pub cost: u64,
    /// Over how many nodes it stands: 0 to 2.
    pub children: usize,
}

/// The least plan of a query.
#[derive(Drop)]
pub struct LeastPlan {
    /// The query over numbers: its tables in the order of FROM, the columns that it uses, its predicates and its
    /// output.
    pub query: Query,
    /// The sum of the costs of the nodes.
    pub cost: u64,
    /// The nodes, the root first, each before those below it, and the left side of a join before the right one.
    pub nodes: List<PlanNode>,
}

/// What planning a query gives.
#[derive(Drop)]
pub enum Planned {
    /// Of all plans that give what is asked for the one that costs least, and of several such the first in code.
    Least(LeastPlan),
    /// No plan gives what is asked for: a rule that is needed is off, or a grouping without columns is asked for on the
    /// segments.
    NoPlan,
    /// The query has more members and goals than this capacity.
    TooManyEntries { capacity: u32 },
}
