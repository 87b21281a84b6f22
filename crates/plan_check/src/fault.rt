/// Why a plan isn't one of the query that meets the request. Nodes are counted in preorder, from 0.
#[derive(Clone, Copy, Debug, PartialEq, Eq)]
pub enum PlanFault {
    /// It has more than 1,000 nodes, and so many.
    TooLarge { nodes: u64 },
    /// The number of this node is that of no node of the query.
    Shape { node: u32 },
    /// The kids of this node are wrong in number or group.
    Kids { node: u32 },
    /// The kids of this node don't give what it needs, or its order or list isn't in its group.
    Needs { node: u32 },
    /// It doesn't meet the request.
    Unsatisfied,
}
