//! Whether a node has the kids that it stands over. No call here takes memory.
#![tactic(auto)]

ghost use Rattle.std.specs.Prelude.{◌↔◌, IsTrue};
ghost use Rattle.plan_space.specs.Choices.{groups_of};
ghost use Rattle.plan_space.specs.Laws.{AreOf};
ghost use Rattle.plan_tree.specs.Seen.{kids_seen};
ghost use Rattle.plan_check.specs.Kids.{IsOne, HasKids};

use plan_space::NodeKind;
use plan_tree::Kids;
use query_core::Children;

/// Whether the kids are right in number and group.
pub fn has_kids(kind: NodeKind, below: Kids) -> bool
    ensures { IsTrue result ↔ HasKids kind (kids_seen below) }
{
    match kind {
        NodeKind::Native(expr, _) => are_of(expr.children(), below),
        NodeKind::Enforcer(_) => is_one(below),
    }
}

fn is_one(below: Kids) -> bool
    ensures { IsTrue result ↔ IsOne (kids_seen below) }
{
    match below {
        Kids::Nothing => false,
        Kids::One(_) => true,
        Kids::Two(_, _) => false,
    }
}

// Whether the kids are plans of the children, in order.
fn are_of(children: Children, below: Kids) -> bool
    ensures { IsTrue result ↔ AreOf (groups_of children) (kids_seen below) }
{
    match (children, below) {
        (Children::Zero, Kids::Nothing) => true,
        (Children::One(child), Kids::One(kid)) => kid.group == child,
        (Children::Two(first, second), Kids::Two(left, right)) => {
            left.group == first && right.group == second
        }
        _ => false,
    }
}
