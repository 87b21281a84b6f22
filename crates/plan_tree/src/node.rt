//! Nodes as numbers. Nothing else packs or unpacks a node.
#![tactic(auto)]

ghost use Rattle.std.specs.Prelude.{ℕ, ◌≡◌, ◌≢◌, ◌↔◌, ◌<◌, Some, IfNone, IfSome};
ghost use Rattle.query_core.specs.Expressions.{HasWord, expr_of};
ghost use Rattle.query_core.specs.Goals.{FitsExpr};
ghost use Rattle.query_core.specs.declared.expressions.PhysicalExpr.{PhysicalExpr as AnyPhysicalExpr};
ghost use Rattle.plan_space.specs.Nodes.{enforcer_number as the_enforcer_number, node_modes, node_number};
ghost use Rattle.plan_space.specs.declared.nodes.NodeKind.{NodeKind as AnyNodeKind};
ghost use Rattle.plan_space.specs.declared.nodes.NodeKind.TheVariants.{Native};
ghost use Rattle.plan_tree.specs.Nodes.{EnforcerInRange, IsNodeInRange, IsNode, NativeInRange};

use plan_space::{Enforcer, NodeKind};
use query_core::{Expr, PhysicalExpr, expressions_are_one};

/// A node of a plan, in one word.
#[derive(Clone, Copy, Debug, PartialEq, Eq)]
pub struct Node(pub u64);

const GATHER: u64 = 1;

const BROADCAST: u64 = 2;

const SORT: u64 = 64;

const GATHER_MERGE: u64 = 128;

const REDISTRIBUTE: u64 = 192;

const NATIVE: u64 = 1 << 56;

impl Node {
    /// The node that does this.
    pub fn make(kind: NodeKind) -> Node
        requires { IsNodeInRange kind }
        ensures { IsNode result kind }
    {
        match kind {
            NodeKind::Native(e, mode) => Node::native(Expr::make(e.parts()), mode),
            NodeKind::Enforcer(enforcer) => Node(enforcer_number(enforcer)),
        }
    }

    /// The node of the physical expression of this word in a mode.
    #[inline(always)]
    pub fn native(word: Expr, mode: u32) -> Node
        requires word { FitsExpr word.0 }
        requires few { mode < node_modes }
        ensures { (e : AnyPhysicalExpr) → HasWord word.0 (expr_of e) →
            IsNode result (Native e mode) }
    {
        Node(NATIVE + (word.0 << 8) + mode as u64)
    }

    /// What the node does; none for a number that no node has.
    pub fn kind(self) -> Option<NodeKind>
        ensures exact { (k : AnyNodeKind) → IsNode self k ↔ (result ≡ Some k) }
    {
        nodes_are_one();
        match self.0 {
            GATHER => Some(NodeKind::Enforcer(Enforcer::Gather)),
            BROADCAST => Some(NodeKind::Enforcer(Enforcer::Broadcast)),
            65..=124 => Some(NodeKind::Enforcer(Enforcer::Sort((self.0 - SORT) as u32))),
            129..=188 => {
                let order = (self.0 - GATHER_MERGE) as u32;
                Some(NodeKind::Enforcer(Enforcer::GatherMerge(order)))
            }
            192..=251 => {
                let list = (self.0 - REDISTRIBUTE) as u32;
                Some(NodeKind::Enforcer(Enforcer::Redistribute(list)))
            }
            number => match native_of(number) {
                Some((expr, mode)) => Some(NodeKind::Native(expr, mode)),
                None => None,
            },
        }
    }
}

/// No two nodes in range have one number.
pub fn nodes_are_one()
    ensures { (k l : AnyNodeKind) → IsNodeInRange k → IsNodeInRange l →
        node_number k ≡ node_number l → k ≡ l }
{
    expressions_are_one();
}

fn enforcer_number(enforcer: Enforcer) -> u64
    requires { EnforcerInRange enforcer }
    ensures { result ≡ the_enforcer_number enforcer }
{
    match enforcer {
        Enforcer::Gather => GATHER,
        Enforcer::Broadcast => BROADCAST,
        Enforcer::Sort(order) => SORT + order as u64,
        Enforcer::GatherMerge(order) => GATHER_MERGE + order as u64,
        Enforcer::Redistribute(list) => REDISTRIBUTE + list as u64,
    }
}

// The expression and the mode that have this number.
fn native_of(number: u64) -> Option<(PhysicalExpr, u32)>
    ensures number { IfSome result (λ n. number ≡ node_number (Native n.0 n.1)) }
    ensures in_range { IfSome result (λ n. NativeInRange n.0 n.1) }
    ensures none { IfNone result ((e : AnyPhysicalExpr) (mode : ℕ) → NativeInRange e mode →
        number ≢ node_number (Native e mode)) }
{
    expressions_are_one();
    let past = number.checked_sub(NATIVE)?;
    let expr = Expr(past >> 8).parts()?;
    match expr.as_physical() {
        Some(expr) => Some((expr, (past % 256) as u32)),
        None => None,
    }
}
