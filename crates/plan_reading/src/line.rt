//! Lines of nodes.
#![tactic(auto)]

use crate::named::Named;

/// A line of a node: how deep it stands, the node as it is named, and the two numbers.
#[derive(Clone, Copy)]
pub struct NodeLine {
    pub level: u32,
    pub node: Named,
    pub rows: u64,
    pub cost: u64,
}
