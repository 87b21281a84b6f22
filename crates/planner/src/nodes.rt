//! The nodes of a plan as a list.
#![tactic(auto)]

ghost use Rattle.std.specs.Prelude.{◌≡◌, suc, IfOk, OnOk, length};
ghost use Rattle.request_props.specs.Numbered.{IsProps};
ghost use Rattle.xform_rules.specs.Closure.{IsMember};
ghost use Rattle.plan_space.specs.Nodes.{Tree};
ghost use Rattle.plan_space.specs.Valid.{IsValid};
ghost use Rattle.plan_tree.specs.Seen.{kids_seen};
ghost use Rattle.plan_tree.specs.Spells.{Spells};
ghost use Rattle.plan_lines.specs.Gathered.{IsKidOf, IsKidUnder};
ghost use Rattle.planner.specs.Nodes.{nodes_of as the_nodes_of};
ghost use Rattle.planner.specs.Adding.{AddsNodes, AddsOneNode, IsNodeOver};

use crate::columns::columns_of;
use crate::node::PlanNode;
use orca_base::{List, Text};
use plan_lines::{node_kind, node_text};
use plan_space::{Kid, NodeKind};
use plan_tree::{Kids, Node, Plan, cost_above, rows_above, seen_above};
use query_core::Query;
use request_props::Props;
use std::alloc::{AllocError, Global};
use xform_rules::members_are_candidates;

/// The nodes of the valid plan that this is.
pub fn nodes_of(
    alloc: Global,
    query: &Query,
    props: &Props,
    plan: &Plan,
) -> Result<List<PlanNode>, AllocError>
    requires { IsProps query.now props.now }
    ensures { IfOk result (λ nodes. (tree : Tree) → Spells plan.now tree →
        IsValid (IsMember query.now) query.now tree → nodes ≡ the_nodes_of query.now tree) }
{
    // For the proof: the groups of members are the query's.
    members_are_candidates();
    let mut nodes = Vec::new(alloc);
    push_plan(alloc, query, props, 0, plan, &mut nodes)?;
    nodes.as_mut_slice().reverse();
    Ok(List::of(nodes))
}

// Adds the nodes of a plan whose root stands at this depth, the last one first: a node is made of what is seen of the
// plans below it. Tells what is seen of the plan.
fn push_plan(
    alloc: Global,
    query: &Query,
    props: &Props,
    depth: usize,
    plan: &Plan,
    nodes: &mut Vec<PlanNode>,
) -> Result<Kid, AllocError>
    requires { IsProps query.now props.now }
    ensures kid { IfOk result (IsKidOf query.now plan.now) }
    ensures added { OnOk result (AddsNodes query.now depth plan.now nodes.old.items nodes.new.items) }
{
    match plan {
        Plan::Leaf(node) => push_node(alloc, query, props, depth, *node, Kids::Nothing, nodes),
        Plan::Over(node, kid) => {
            let deeper = depth_below(depth)?;
            let only = push_plan(alloc, query, props, deeper, kid, nodes)?;
            push_node(alloc, query, props, depth, *node, Kids::One(only), nodes)
        }
        Plan::Two(node, left, right) => {
            let deeper = depth_below(depth)?;
            let second = push_plan(alloc, query, props, deeper, right, nodes)?;
            let first = push_plan(alloc, query, props, deeper, left, nodes)?;
            push_node(
                alloc,
                query,
                props,
                depth,
                *node,
                Kids::Two(first, second),
                nodes,
            )
        }
    }
}

// How many nodes stand above those below a node at this depth. No memory holds a plan with too many levels for a
// number.
fn depth_below(depth: usize) -> Result<usize, AllocError>
    ensures { IfOk result (λ below. below ≡ suc depth) }
{
    depth.checked_add(1).ok_or(AllocError)
}

// Adds the node, and tells what is seen of a plan with this root.
fn push_node(
    alloc: Global,
    query: &Query,
    props: &Props,
    depth: usize,
    node: Node,
    below: Kids,
    nodes: &mut Vec<PlanNode>,
) -> Result<Kid, AllocError>
    requires { IsProps query.now props.now }
    ensures kid { IfOk result (IsKidUnder query.now node below) }
    ensures added { OnOk result
        (AddsOneNode query.now depth node below nodes.old.items nodes.new.items) }
{
    let kind = node_kind(node);
    nodes.push(node_over(alloc, query, props, depth, kind, below)?)?;
    Ok(seen_above(query, props, kind, below))
}

fn node_over(
    alloc: Global,
    query: &Query,
    props: &Props,
    depth: usize,
    kind: NodeKind,
    below: Kids,
) -> Result<PlanNode, AllocError>
    requires { IsProps query.now props.now }
    ensures { IfOk result (IsNodeOver query.now depth kind below) }
{
    Ok(PlanNode {
        depth,
        operator: kind,
        text: Text::of(node_text(alloc, query, props, kind)?),
        columns: columns_of(alloc, query, props, kind)?,
        rows: rows_above(query, props, kind, below),
        cost: cost_above(query, props, kind, below),
        children: count_of(below),
    })
}

// How many plans are seen below a node.
fn count_of(below: Kids) -> usize
    ensures { result ≡ length (kids_seen below) }
{
    match below {
        Kids::Nothing => 0,
        Kids::One(_) => 1,
        Kids::Two(_, _) => 2,
    }
}
