//! What a node costs by its number. No call here takes memory.
#![tactic(auto)]

ghost use Rattle.std.specs.Prelude.{◌≤◌};
ghost use Rattle.query_core.specs.Keys.{IsKey};
ghost use Rattle.cost_units.specs.Cost.{most_cost};
ghost use Rattle.request_props.specs.Numbered.{IsProps};
ghost use Rattle.plan_tree.specs.NodeCosts.{IsCostOf, IsThere};

use crate::cost::{enforcer_cost_by, native_cost};
use crate::node::{Node, nodes_are_one};
use plan_space::NodeKind;
use query_core::{Key, Query};
use request_props::{Props, Request};

/// The cost of a node of a group that `alternative` or `enforcer` gives for the request.
pub fn node_cost(query: &Query, props: &Props, key: Key, request: Request, node: Node) -> u64
    requires props { IsProps query.now props.now }
    requires key { IsKey query.now key }
    requires node { IsThere query.now request node }
    ensures value { IsCostOf query.now key request node result }
    ensures some { 1 ≤ result }
    ensures most { result ≤ most_cost }
{
    // For the proof: a number is that of one node.
    nodes_are_one();
    match node.kind() {
        Some(NodeKind::Native(expr, mode)) => native_cost(query, props, expr, mode, request),
        Some(NodeKind::Enforcer(_)) => {
            enforcer_cost_by(query, props.rows(query, key), request, node)
        }
        None => 1,
    }
}
