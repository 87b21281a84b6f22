//! The lines of a plan's nodes.
#![tactic(auto)]

ghost use Rattle.std.specs.Prelude.{◌≡◌, IfOk, OnOk, string_bytes};
ghost use Rattle.request_props.specs.Numbered.{IsProps};
ghost use Rattle.plan_space.specs.declared.nodes.NodeKind.{NodeKind as AnyNodeKind};
ghost use Rattle.plan_tree.specs.Nodes.{IsNode};
ghost use Rattle.plan_lines.specs.Text as texts;
ghost use Rattle.plan_lines.specs.Gathered.{IsKidOf, IsKidUnder};
ghost use Rattle.plan_lines.specs.Lines.{AddsLine, AddsLines, IsKindLine, IsNodeLine};

use crate::nodes::node_text;
use plan_space::{Enforcer, Kid, NodeKind};
use plan_tree::{Kids, Node, Plan, cost_above, rows_above, seen_above};
use query_core::Query;
use request_props::Props;
use std::alloc::{AllocError, Global};

/// Adds the lines of a plan, each with its newline: what the node is, its group's rows and its own cost. They are added
/// from the last byte to the first, since the line of a node says what is seen of the plans below it. A node's line
/// stands before those below it, which have two more spaces in front. Tells what is seen of the plan.
pub fn push_plan(
    alloc: Global,
    query: &Query,
    props: &Props,
    indent: &str,
    plan: &Plan,
    text: &mut Vec<u8>,
) -> Result<Kid, AllocError>
    requires { IsProps query.now props.now }
    ensures kid { IfOk result (IsKidOf query.now plan.now) }
    ensures added { OnOk result
        (AddsLines query.now indent.now plan.now text.old.items text.new.items) }
{
    match plan {
        Plan::Leaf(node) => { push_node(alloc, query, props, indent, *node, Kids::Nothing, text) }
        Plan::Over(node, kid) => {
            let deeper = format!(in alloc; "{indent}  ")?;
            let only = push_plan(alloc, query, props, &deeper, kid, text)?;
            push_node(alloc, query, props, indent, *node, Kids::One(only), text)
        }
        Plan::Two(node, left, right) => {
            let deeper = format!(in alloc; "{indent}  ")?;
            let second = push_plan(alloc, query, props, &deeper, right, text)?;
            let first = push_plan(alloc, query, props, &deeper, left, text)?;
            push_node(
                alloc,
                query,
                props,
                indent,
                *node,
                Kids::Two(first, second),
                text,
            )
        }
    }
}

// Adds the line of a node, from its last byte to its first, and tells what is seen of a plan with this root.
fn push_node(
    alloc: Global,
    query: &Query,
    props: &Props,
    indent: &str,
    node: Node,
    below: Kids,
    text: &mut Vec<u8>,
) -> Result<Kid, AllocError>
    requires { IsProps query.now props.now }
    ensures kid { IfOk result (IsKidUnder query.now node below) }
    ensures added { OnOk result
        (AddsLine query.now indent.now node below text.old.items text.new.items) }
{
    let line = node_line(alloc, query, props, indent, node, below)?;
    let mut turned = line.as_bytes().to_vec(alloc)?;
    turned.as_mut_slice().reverse();
    text.extend_from_slice(turned.as_slice())?;
    Ok(seen_above(query, props, node_kind(node), below))
}

/// What the node does; a number that no node has counts as that of a gather.
pub fn node_kind(node: Node) -> NodeKind
    ensures { (kind : AnyNodeKind) → IsNode node kind → result ≡ kind }
{
    match node.kind() {
        Some(kind) => kind,
        None => NodeKind::Enforcer(Enforcer::Gather),
    }
}

// The line of a node; nothing for a number that no node has.
fn node_line(
    alloc: Global,
    query: &Query,
    props: &Props,
    indent: &str,
    node: Node,
    below: Kids,
) -> Result<String, AllocError>
    requires { IsProps query.now props.now }
    ensures { IfOk result (λ line. IsNodeLine query.now indent.now node below (string_bytes line)) }
{
    match node.kind() {
        Some(kind) => kind_line(alloc, query, props, indent, kind, below),
        None => Ok(String::new(alloc)),
    }
}

fn kind_line(
    alloc: Global,
    query: &Query,
    props: &Props,
    indent: &str,
    kind: NodeKind,
    below: Kids,
) -> Result<String, AllocError>
    requires { IsProps query.now props.now }
    ensures { IfOk result (λ line.
        IsKindLine query.now indent.now kind below (string_bytes line)) }
{
    let name = node_text(alloc, query, props, kind)?;
    let rows = rows_above(query, props, kind, below);
    let cost = cost_above(query, props, kind, below);
    Ok(numbered(alloc, indent, &name, rows, cost)?)
}

// A name behind its indent, with its two numbers.
fn numbered(
    alloc: Global,
    indent: &str,
    name: &str,
    rows: u64,
    cost: u64,
) -> Result<String, AllocError>
    ensures { IfOk result (λ line.
        string_bytes line ≡ texts.numbered indent.now name.now rows cost) }
{
    Ok(format!(in alloc; "{indent}{name} rows={rows} cost={cost}\n")?)
}
