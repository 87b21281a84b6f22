//! What is found out of nodes in preorder.
#![tactic(auto)]

ghost use Rattle.std.specs.Prelude.{◌≡◌, ◌+◌, ◌≤◌};
ghost use Rattle.plan_check.specs.Outcome.{most_nodes};
ghost use Rattle.plan_check.specs.Passes.{both_of, AreInBounds};

use crate::places::{later, sooner};

/// How many nodes there are, what they cost, and which of them are wrong.
#[derive(Clone, Copy)]
pub struct Findings {
    pub nodes: u32,
    pub cost: u64,
    /// The first node whose number is that of no node of the query.
    pub unknown: Option<u32>,
    /// The last node whose kids are wrong in number or group.
    pub wrong: Option<u32>,
    /// The first node that may not stand over its kids.
    pub unfit: Option<u32>,
}

/// The same of some nodes and those behind them.
pub fn both(front: Findings, behind: Findings) -> Findings
    requires few { front.nodes + behind.nodes ≤ most_nodes }
    requires front { AreInBounds front }
    requires behind { AreInBounds behind }
    ensures value { result ≡ both_of front behind }
    ensures bounds { AreInBounds result }
{
    Findings {
        nodes: front.nodes + behind.nodes,
        cost: front.cost + behind.cost,
        unknown: sooner(front.unknown, front.nodes, behind.unknown),
        wrong: later(front.wrong, front.nodes, behind.wrong),
        unfit: sooner(front.unfit, front.nodes, behind.unfit),
    }
}
