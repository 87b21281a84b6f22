//! The plan that lines spell, from the last line up.
#![tactic(auto)]

ghost use Rattle.std.specs.Prelude.{◌≡◌, ◌↔◌, ◌<◌, ◌≤◌, ℕ, List, IsTrue, IfOk, IfErr, MatchOption, length, reverse};
ghost use Rattle.std.specs.Prelude.{map};
ghost use Rattle.std.specs.List.{All};
ghost use Rattle.query_core.specs.Keys.{root_of};
ghost use Rattle.query_core.specs.declared.query.Query.{Query as AnyQuery};
ghost use Rattle.query_core.specs.Expressions.{expr_of, physical_fields, AreInRange as ChildrenInRange, IsPacked};
ghost use Rattle.request_props.specs.Numbered.{IsProps};
ghost use Rattle.plan_space.specs.Gives.{kid_of};
ghost use Rattle.plan_space.specs.Nodes.{Tree};
ghost use Rattle.plan_space.specs.declared.nodes.NodeKind.{NodeKind as AnyNodeKind};
ghost use Rattle.plan_tree.specs.Nodes.{IsNode};
ghost use Rattle.plan_tree.specs.Seen.{kids_seen};
ghost use Rattle.plan_tree.specs.Spells.{Spells};
ghost use Rattle.plan_check.specs.Nodes.{IsKindOf};
ghost use Rattle.plan_check.specs.Outcome.{most_nodes};
ghost use Rattle.plan_reading.specs.Formed.{AreInPlace};
ghost use Rattle.plan_reading.specs.Named.{HasForm};
ghost use Rattle.text_check.specs.Blocks.{AreLinesOf};
ghost use Rattle.text_check.specs.Grown.{AreGrown, HasMode, HasTreeFault, IsOver, MayStand, StandsOver};
ghost use Rattle.text_check.specs.Grown.{grown_kids, kids_list, tree_over, HaveRanges};

use crate::fault::TreeFault;
use crate::kids::{Grown, TakenKids, take_kids};
use crate::node_over::node_over;
use plan_check::{has_kids, is_enforcer_of, is_kind_of};
use plan_reading::{NodeLine, nodes_are_meant, outlines_are_one};
use plan_space::NodeKind;
use plan_tree::{Kids, Node, Plan, seen_above};
use query_core::{
    Access, Children, KeyParts, Physical, PhysicalExpr, Query, candidates_are_known,
    groups_are_known,
};
use request_props::Props;
use std::alloc::{AllocError, AllocFailed, Global};

/// The plan of lines in their places, or the last line that doesn't fit. Lines are counted from 2.
pub fn plan_of(
    alloc: Global,
    query: &Query,
    props: &Props,
    lines: &[NodeLine],
) -> Result<Plan, TreeFault>
    requires props { IsProps query.now props.now }
    requires in_place { AreInPlace query.now None lines.now }
    requires some { 1 ≤ length lines.now }
    requires few { length lines.now ≤ most_nodes }
    ensures ok { IfOk result (λ plan. (t : Tree) × Spells plan t × AreLinesOf query.now lines.now t) }
    ensures fault { IfErr result (HasTreeFault query.now lines.now) }
{
    // For the proof: what is known of plans and their groups.
    outlines_are_one();
    groups_are_known();
    let mut grown = Vec::new(alloc);
    let mut rest = lines;
    while let Some((line, before)) = rest.split_last() {
        let misfit = TreeFault::Kids {
            line: before.len() as u32 + 2,
        };
        let Some(kids) = take_kids(&mut grown, line.level) else {
            return Err(misfit);
        };
        let Some(plan) = over(alloc, query, props, *line, kids)? else {
            return Err(misfit);
        };
        grown.push(plan)?;
        rest = before;
    }
    match grown.pop() {
        Some(root) => Ok(root.plan),
        None => unreachable!(),
    }
}

// The plan of the line's node over these, if that is a node of the query over the right kids.
fn over(
    alloc: Global,
    query: &Query,
    props: &Props,
    line: NodeLine,
    kids: TakenKids,
) -> Result<Option<Grown>, AllocError>
    requires props { IsProps query.now props.now }
    requires form { HasForm query.now line.node }
    requires groups { HaveRanges (grown_kids (kids_list kids)) }
    ensures { (trees : List Tree) → AreGrown query.now (kids_list kids) trees →
        IfOk result (λ grown. MatchOption grown
        ((t : Tree) → StandsOver query.now line trees t → ⊥) (IsOver query.now line trees)) }
{
    // For the proof: the node is the only one that may be meant.
    nodes_are_meant();
    candidates_are_known();
    let below = kids.kids();
    let kind = node_over(line.node, below);
    if !may_stand(query, props, line.level, kind, below) {
        return Ok(None);
    }
    let kid = seen_above(query, props, kind, below);
    let plan = plan_over(alloc, Node::make(kind), kids)?;
    Ok(Some(Grown {
        level: line.level,
        plan,
        kid,
    }))
}

// The plan of a node over these.
fn plan_over(alloc: Global, node: Node, kids: TakenKids) -> Result<Plan, AllocError>
    ensures { (q : AnyQuery) (kind : AnyNodeKind) (trees : List Tree) → IsNode node kind →
        AreGrown q (kids_list kids) trees →
        IfOk result (λ plan. Spells plan (tree_over kind trees)) }
{
    Ok(match kids {
        TakenKids::Nothing => Plan::Leaf(node),
        TakenKids::One(only) => Plan::Over(node, Box::new(alloc, only.plan)?),
        TakenKids::Two(left, right) => Plan::Two(
            node,
            Box::new(alloc, left.plan)?,
            Box::new(alloc, right.plan)?,
        ),
    })
}

// ---- whether a node may stand over plans

// Whether the node is one of the query, over the right kids, and at level 0 of its root.
fn may_stand(query: &Query, props: &Props, level: u32, kind: NodeKind, below: Kids) -> bool
    requires props { IsProps query.now props.now }
    requires mode { HasMode kind }
    ensures { IsTrue result ↔ MayStand query.now level kind (kids_seen below) }
{
    is_known(query, props, kind)
        && has_kids(kind, below)
        && is_placed(query, level, seen_above(query, props, kind, below).group)
}

// Whether the node is one of the query.
fn is_known(query: &Query, props: &Props, kind: NodeKind) -> bool
    requires props { IsProps query.now props.now }
    requires mode { HasMode kind }
    ensures { IsTrue result ↔ IsKindOf query.now kind }
{
    // For the proof: each expression of the query has a word.
    candidates_are_known();
    match kind {
        NodeKind::Native(expr, _) => has_word(expr) && is_kind_of(query, props, kind),
        NodeKind::Enforcer(enforcer) => is_enforcer_of(query, props, enforcer),
    }
}

// Whether the parts of the expression fit a word.
fn has_word(expr: PhysicalExpr) -> bool
    ensures { IsTrue result ↔ IsPacked (expr_of expr) }
{
    expr.group.is_in_range() && index_of(expr.operator) < 32 && are_in_range(expr.children())
}

fn index_of(operator: Physical) -> u32
    ensures { result ≡ (physical_fields operator).index }
{
    match operator.access() {
        Access::Direct => 0,
        Access::Index(index) => index,
    }
}

fn are_in_range(children: Children) -> bool
    ensures { IsTrue result ↔ ChildrenInRange children }
{
    match children {
        Children::Zero => true,
        Children::One(child) => child.is_in_range(),
        Children::Two(left, right) => left.is_in_range() && right.is_in_range(),
    }
}

// Whether a plan of the group may stand at the level: at level 0 it is of the query's root.
fn is_placed(query: &Query, level: u32, group: KeyParts) -> bool
    ensures { IsTrue result ↔ (level ≡ 0 → group ≡ root_of query.now) }
{
    level != 0 || group == query.group(query.root())
}
