//! Which numbers are nodes of a query. No call here takes memory.
#![tactic(auto)]

ghost use Rattle.std.specs.Prelude.{◌↔◌, IsTrue, MatchOption};
ghost use Rattle.request_props.specs.Numbered.{IsProps};
ghost use Rattle.plan_tree.specs.Nodes.{IsNodeInRange, IsNode};
ghost use Rattle.std.specs.Option.{IsSome};
ghost use Rattle.query_core.specs.Expressions.{expr_of, IsPacked};
ghost use Rattle.plan_space.specs.Lines.{line_of as the_line_of};
ghost use Rattle.plan_check.specs.Nodes.{IsOrder, IsEnforcerOf, IsNativeOf, IsKindOf, IsNodeOf};

use plan_space::{Enforcer, NodeKind};
use plan_tree::{Node, line_of};
use query_core::{PhysicalExpr, Query};
use request_props::Props;

/// The node of the query that the number is that of.
pub fn known_kind(query: &Query, props: &Props, node: Node) -> Option<NodeKind>
    requires { IsProps query.now props.now }
    ensures { MatchOption result (IsNodeOf query.now node → ⊥)
        (λ kind. IsNode node kind × IsKindOf query.now kind) }
{
    match node.kind() {
        Some(kind) if is_kind_of(query, props, kind) => Some(kind),
        _ => None,
    }
}

/// Whether the node is one of the query.
pub fn is_kind_of(query: &Query, props: &Props, kind: NodeKind) -> bool
    requires props { IsProps query.now props.now }
    requires in_range { IsNodeInRange kind }
    ensures { IsTrue result ↔ IsKindOf query.now kind }
{
    match kind {
        NodeKind::Native(expr, mode) => is_native_of(query, props, expr, mode),
        NodeKind::Enforcer(enforcer) => is_enforcer_of(query, props, enforcer),
    }
}

// Whether a group of the query can hold the expression, and it has the mode.
fn is_native_of(query: &Query, props: &Props, expr: PhysicalExpr, mode: u32) -> bool
    requires props { IsProps query.now props.now }
    requires packed { IsPacked (expr_of expr) }
    ensures { IsTrue result ↔ IsNativeOf query.now expr mode }
{
    query.can_hold(expr.parts()) && has_line(query, props, expr, mode)
}

fn has_line(query: &Query, props: &Props, expr: PhysicalExpr, mode: u32) -> bool
    requires { IsProps query.now props.now }
    ensures { IsTrue result ↔ IsSome (the_line_of query.now expr mode) }
{
    line_of(query, props, expr, mode).is_some()
}

/// Whether the enforcer is one by an order or a list of the query.
pub fn is_enforcer_of(query: &Query, props: &Props, enforcer: Enforcer) -> bool
    requires { IsProps query.now props.now }
    ensures { IsTrue result ↔ IsEnforcerOf query.now enforcer }
{
    match enforcer {
        Enforcer::Gather => true,
        Enforcer::Broadcast => true,
        Enforcer::Sort(order) => is_order(query, props, order),
        Enforcer::GatherMerge(order) => is_order(query, props, order),
        Enforcer::Redistribute(list) => props.has_list(query, list),
    }
}

fn is_order(query: &Query, props: &Props, order: u32) -> bool
    requires { IsProps query.now props.now }
    ensures { IsTrue result ↔ IsOrder query.now order }
{
    1 <= order && props.has_order(query, order)
}
