//! What a plan's own lines say.
#![tactic(auto)]

ghost use Rattle.std.specs.Prelude.{◌≡◌, IfOk, OnOk};
ghost use Rattle.request_props.specs.Numbered.{IsProps};
ghost use Rattle.plan_space.specs.Nodes.{Tree};
ghost use Rattle.plan_tree.specs.Spells.{Spells};
ghost use Rattle.plan_lines.specs.Gathered.{IsKidOf, IsKidUnder};
ghost use Rattle.plan_reading.specs.Outline.{IsPlanTree};
ghost use Rattle.text_check.specs.OwnLines.{own_lines as the_own_lines, AddsLine, AddsLines};

use plan_lines::node_kind;
use plan_space::{Kid, NodeKind};
use plan_tree::{Kids, Node, Plan, cost_above, rows_above, seen_above};
use query_core::Query;
use request_props::Props;
use std::alloc::{AllocError, Global};

/// What the line of a node says of it: what it is, its group's rows and its own cost.
#[derive(Clone, Copy)]
pub struct OwnLine {
    pub node: NodeKind,
    pub rows: u64,
    pub cost: u64,
}

/// The lines of a plan of nodes of the query, each node before those below it.
pub fn own_lines(
    alloc: Global,
    query: &Query,
    props: &Props,
    plan: &Plan,
) -> Result<Vec<OwnLine>, AllocError>
    requires { IsProps query.now props.now }
    ensures { IfOk result (λ lines. (t : Tree) → Spells plan.now t → IsPlanTree query.now t →
        lines.items ≡ the_own_lines query.now t) }
{
    let mut lines = Vec::new(alloc);
    push_lines(query, props, plan, &mut lines)?;
    lines.as_mut_slice().reverse();
    Ok(lines)
}

// Adds the lines of a plan, the last one first, and tells what is seen of the plan.
fn push_lines(
    query: &Query,
    props: &Props,
    plan: &Plan,
    lines: &mut Vec<OwnLine>,
) -> Result<Kid, AllocError>
    requires { IsProps query.now props.now }
    ensures kid { IfOk result (IsKidOf query.now plan.now) }
    ensures added { OnOk result (AddsLines query.now plan.now lines.old.items lines.new.items) }
{
    match plan {
        Plan::Leaf(node) => push_line(query, props, *node, Kids::Nothing, lines),
        Plan::Over(node, kid) => {
            let only = push_lines(query, props, kid, lines)?;
            push_line(query, props, *node, Kids::One(only), lines)
        }
        Plan::Two(node, left, right) => {
            let second = push_lines(query, props, right, lines)?;
            let first = push_lines(query, props, left, lines)?;
            push_line(query, props, *node, Kids::Two(first, second), lines)
        }
    }
}

// Adds the line of a node, and tells what is seen of a plan with this root.
fn push_line(
    query: &Query,
    props: &Props,
    node: Node,
    below: Kids,
    lines: &mut Vec<OwnLine>,
) -> Result<Kid, AllocError>
    requires { IsProps query.now props.now }
    ensures kid { IfOk result (IsKidUnder query.now node below) }
    ensures added { OnOk result (AddsLine query.now node below lines.old.items lines.new.items) }
{
    let kind = node_kind(node);
    lines.push(OwnLine {
        node: kind,
        rows: rows_above(query, props, kind, below),
        cost: cost_above(query, props, kind, below),
    })?;
    Ok(seen_above(query, props, kind, below))
}
