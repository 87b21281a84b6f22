//! Passes over the lines of a plan, each for one question. No call here takes memory.
#![tactic(auto)]

ghost use Rattle.std.specs.Prelude.{◌≡◌, ◌↔◌, ◌<◌, ◌≤◌, All, IfSome, IsTrue, length, zip};
ghost use Rattle.plan_check.specs.Nodes.{IsKindOf};
ghost use Rattle.plan_check.specs.Outcome.{most_nodes};
ghost use Rattle.plan_check.specs.Passes.{IsFirst};
ghost use Rattle.text_check.specs.OwnLines.{IsLineOf};
ghost use Rattle.text_check.specs.Outcome.{IsMemberNode, IsMemberLine, HasNumbersOf, HasOwnNumbers};

use crate::own::OwnLine;
use plan_reading::NodeLine;
use plan_space::NodeKind;
use query_core::Query;
use xform_rules::in_closure_at;

/// The first node of an expression to which no rule leads.
pub fn first_outside(query: &Query, own: &[OwnLine]) -> Option<u32>
    requires few { length own.now ≤ most_nodes }
    requires nodes { All (IsLineOf query.now) own.now }
    ensures first { IsFirst (IsMemberLine query.now) own.now result }
    ensures within { IfSome result (λ place. place < length own.now) }
{
    let mut place = 0;
    for line in own {
        if !is_member(query, line.node) {
            return Some(place);
        }
        place += 1;
    }
    None
}

// Whether the rules lead to the node's expression; an enforcer has none.
fn is_member(query: &Query, node: NodeKind) -> bool
    requires { IsKindOf query.now node }
    ensures { IsTrue result ↔ IsMemberNode query.now node }
{
    match node {
        NodeKind::Native(expr, _) => in_closure_at(query, expr.parts()),
        NodeKind::Enforcer(_) => true,
    }
}

/// The first line that has other numbers than the plan's own.
pub fn first_other(lines: &[NodeLine], own: &[OwnLine]) -> Option<u32>
    requires few { length own.now ≤ most_nodes }
    requires as_many { length lines.now ≡ length own.now }
    ensures first { IsFirst HasOwnNumbers (zip lines.now own.now) result }
    ensures within { IfSome result (λ place. place < length own.now) }
{
    for place in 0..own.len() {
        if !has_numbers(lines[place], own[place]) {
            return Some(place as u32);
        }
    }
    None
}

// Whether the line has the rows and the cost of the plan's own.
fn has_numbers(line: NodeLine, own: OwnLine) -> bool
    ensures { IsTrue result ↔ HasNumbersOf line own }
{
    line.rows == own.rows && line.cost == own.cost
}
