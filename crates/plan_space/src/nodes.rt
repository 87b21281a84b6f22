//! The nodes of plans.
#![tactic(auto)]

use query_core::PhysicalExpr;

/// What moves or sorts the rows of a plan.
#[derive(Clone, Copy, PartialEq, Eq)]
pub enum Enforcer {
    /// Brings the rows of all segments to one.
    Gather,
    /// Brings all rows to each segment.
    Broadcast,
    /// Sorts by the order of this number, in each segment.
    Sort(u32),
    /// Brings the rows of all segments to one, and keeps the order of this number.
    GatherMerge(u32),
    /// Brings each row to the segment that the hash by the list of this number names.
    Redistribute(u32),
}

/// How rows that are shared out among the segments are brought elsewhere, in whatever order.
#[derive(Clone, Copy)]
pub enum Motion {
    /// To one segment.
    Gather,
    /// All of them to each segment.
    Broadcast,
    /// Each to the segment that the hash by the list of this number names.
    Redistribute(u32),
}

/// A node of a plan.
#[derive(Clone, Copy, PartialEq, Eq)]
pub enum NodeKind {
    /// A physical expression in the mode of this number.
    Native(PhysicalExpr, u32),
    Enforcer(Enforcer),
}
