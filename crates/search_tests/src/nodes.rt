//! Nodes of plans that are made by hand, and the node at the root of a plan.

ghost use Rattle.std.specs.Prelude.{◌<◌};
ghost use Rattle.query_core.specs.Keys.{IsGroupInRange};
ghost use Rattle.plan_tree.specs.Nodes.{NativeInRange};

use plan_space::NodeKind;
use plan_tree::{Node, Plan};
use query_core::{KeyParts, Physical, PhysicalExpr};

// A physical expression in a mode.
pub fn native(group: KeyParts, operator: Physical, mode: u32) -> Node
    requires { NativeInRange (record { group = group; operator = operator }) mode }
{
    Node::make(NodeKind::Native(PhysicalExpr::new(group, operator), mode))
}

pub fn hash_agg(child: KeyParts, mode: u32) -> Node
    requires child { IsGroupInRange child }
    requires mode { mode < 256 }
{
    native(KeyParts::Agg, Physical::HashAgg(child), mode)
}

pub fn stream_agg(child: KeyParts, mode: u32) -> Node
    requires child { IsGroupInRange child }
    requires mode { mode < 256 }
{
    native(KeyParts::Agg, Physical::StreamAgg(child), mode)
}

pub fn root_of(plan: &Plan) -> Node {
    match plan {
        Plan::Leaf(node) => *node,
        Plan::Over(node, _) => *node,
        Plan::Two(node, _, _) => *node,
    }
}
