//! Plans.
#![tactic(auto)]

ghost use Rattle.std.specs.Prelude.{IfOk};
ghost use Rattle.plan_space.specs.Nodes.{Tree};
ghost use Rattle.plan_tree.specs.Spells.{Spells};

use crate::node::Node;
use std::alloc::{AllocError, Global};

/// A plan: a node over none, one or two plans.
#[derive(Drop)]
pub enum Plan {
    Leaf(Node),
    Over(Node, Box<Plan>),
    Two(Node, Box<Plan>, Box<Plan>),
}

/// The outcome of a search for the least plan.
#[derive(Drop)]
pub enum Found {
    Least { plan: Plan, cost: u64 },
    NoPlan,
}

impl Plan {
    /// A plan that spells the tree that this one spells, if it spells one.
    pub fn copy(&self, alloc: Global) -> Result<Plan, AllocError>
        ensures { IfOk result (λ plan. (tree : Tree) → Spells self.now tree → Spells plan tree) }
    {
        Ok(match self {
            Plan::Leaf(node) => Plan::Leaf(*node),
            Plan::Over(node, kid) => Plan::Over(*node, Box::new(alloc, kid.copy(alloc)?)?),
            Plan::Two(node, left, right) => Plan::Two(
                *node,
                Box::new(alloc, left.copy(alloc)?)?,
                Box::new(alloc, right.copy(alloc)?)?,
            ),
        })
    }
}
