//! A walk over a plan for all that is asked of its nodes. No call here takes memory.
#![tactic(auto)]

ghost use Rattle.std.specs.Prelude.{◌≡◌, ◌-◌, ◌^◌, None, length, min};
ghost use Rattle.request_props.specs.Numbered.{IsProps};
ghost use Rattle.plan_check.specs.Preorder.{nodes_of};
ghost use Rattle.plan_check.specs.Nodes.{IsKindOf};
ghost use Rattle.plan_check.specs.Outcome.{IsSmall};
ghost use Rattle.plan_check.specs.Passes.{AreInBounds, IsNodeWalk, IsKindWalk, IsWalk};

use crate::findings::{Findings, both};
use crate::kids::has_kids;
use crate::needs::node_fits;
use crate::nodes::known_kind;
use crate::places::own_place;
use plan_space::{Enforcer, Kid, NodeKind};
use plan_tree::{Kids, Node, Plan, cost_above, nodes_are_one, seen_above};
use query_core::Query;
use request_props::Props;

/// What is seen of a plan, and what is found out of its nodes.
#[derive(Clone, Copy)]
pub struct Walked {
    pub kid: Kid,
    pub findings: Findings,
}

/// How many nodes the plan has, or the greatest number where they are more.
pub fn count(plan: &Plan) -> u64
    ensures { result ≡ min (length (nodes_of plan.now)) (2 ^ 64 - 1) }
{
    match plan {
        Plan::Leaf(_) => 1,
        Plan::Over(_, kid) => count(kid).saturating_add(1),
        Plan::Two(_, left, right) => count(left).saturating_add(count(right)).saturating_add(1),
    }
}

/// Goes once over the nodes of a plan.
pub fn walk(query: &Query, props: &Props, plan: &Plan) -> Walked
    requires props { IsProps query.now props.now }
    requires small { IsSmall plan.now }
    ensures walked { IsWalk query.now plan.now result }
    ensures bounds { AreInBounds result.findings }
    ensures nodes { result.findings.nodes ≡ length (nodes_of plan.now) }
{
    match plan {
        Plan::Leaf(node) => node_walk(query, props, *node, Kids::Nothing),
        Plan::Over(node, kid) => {
            let only = walk(query, props, kid);
            let own = node_walk(query, props, *node, Kids::One(only.kid));
            Walked {
                kid: own.kid,
                findings: both(own.findings, only.findings),
            }
        }
        Plan::Two(node, left, right) => {
            let first = walk(query, props, left);
            let second = walk(query, props, right);
            let own = node_walk(query, props, *node, Kids::Two(first.kid, second.kid));
            let below = both(first.findings, second.findings);
            Walked {
                kid: own.kid,
                findings: both(own.findings, below),
            }
        }
    }
}

// A node over plans that are seen so.
fn node_walk(query: &Query, props: &Props, node: Node, below: Kids) -> Walked
    requires { IsProps query.now props.now }
    ensures walked { IsNodeWalk query.now node below result }
    ensures bounds { AreInBounds result.findings }
    ensures nodes { result.findings.nodes ≡ 1 }
{
    // For the proof: the node is the only one that the number may mean.
    nodes_are_one();
    match known_kind(query, props, node) {
        Some(kind) => kind_walk(query, props, kind, below),
        None => {
            // A number that no node of the query has counts as that of a gather otherwise.
            let gather = NodeKind::Enforcer(Enforcer::Gather);
            let mut walked = kind_walk(query, props, gather, below);
            walked.findings.unknown = Some(0);
            walked
        }
    }
}

// The same of a node of the query.
fn kind_walk(query: &Query, props: &Props, kind: NodeKind, below: Kids) -> Walked
    requires props { IsProps query.now props.now }
    requires of_query { IsKindOf query.now kind }
    ensures walked { IsKindWalk query.now kind below result }
    ensures bounds { AreInBounds result.findings }
    ensures nodes { result.findings.nodes ≡ 1 }
    ensures known { result.findings.unknown ≡ None }
{
    Walked {
        kid: seen_above(query, props, kind, below),
        findings: Findings {
            nodes: 1,
            cost: cost_above(query, props, kind, below),
            unknown: None,
            wrong: own_place(has_kids(kind, below)),
            unfit: own_place(node_fits(query, props, kind, below)),
        },
    }
}
