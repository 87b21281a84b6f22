//! The least plans of worked examples: what they cost, what stands at the root, how many nodes.

use crate::nodes::root_of;
use plan_search::plain_least;
use plan_space::{Enforcer, NodeKind};
use plan_tree::{Found, Plan};
use query_core::{KeyParts, Physical, PhysicalExpr, Query};
use std::alloc::Global;
use std::process::Abort;
use std::test::Fail;
use worked_queries::{
    cross_product, grouped, hashed_alike, huge_tables, implied, large_and_small, sorted_table,
    two_tables, without_a_plan,
};

// The two tables joined by a loop, rows of the left one outside, on one segment.
fn loop_of(left: u32, right: u32) -> NodeKind {
    NodeKind::Native(
        PhysicalExpr::new(
            KeyParts::Join(3),
            Physical::LoopJoin(KeyParts::Get(left), KeyParts::Get(right)),
        ),
        0,
    )
}

fn nodes_of(plan: &Plan) -> u64 {
    match plan {
        Plan::Leaf(_) => 1,
        Plan::Over(_, kid) => nodes_of(kid).saturating_add(1),
        Plan::Two(_, left, right) => nodes_of(left)
            .saturating_add(nodes_of(right))
            .saturating_add(1),
    }
}

// The first node over two plans, from the root on.
fn join_of(plan: &Plan) -> Option<NodeKind> {
    match plan {
        Plan::Leaf(_) => None,
        Plan::Over(_, kid) => join_of(kid),
        Plan::Two(node, _, _) => node.kind(),
    }
}

fn least_of(alloc: Global, query: Result<Query, Fail>) -> Result<Found, Fail> {
    let (query, props) = implied(alloc, query?)?;
    Ok(plain_least(alloc, &query, &props)?)
}

// Whether the least plan has this cost, this root and so many nodes.
fn is_least(found: &Found, least: u64, root: NodeKind, nodes: u64) -> bool {
    match found {
        Found::Least { plan, cost } => {
            *cost == least && root_of(plan).kind() == Some(root) && nodes_of(plan) == nodes
        }
        Found::NoPlan => false,
    }
}

fn assert_least(
    rt: &impl Abort,
    alloc: Global,
    query: Result<Query, Fail>,
    least: u64,
    root: NodeKind,
    nodes: u64,
) -> Result<(), Fail> {
    let found = least_of(alloc, query)?;
    assert!(rt; is_least(&found, least, root, nodes), "{least}");
    Ok(())
}

#[test]
fn one_side_is_redistributed_and_sorted_segments_are_merged(rt: HostRuntime) -> Result<(), Fail> {
    let root = NodeKind::Enforcer(Enforcer::GatherMerge(1));
    assert_least(&rt, rt.alloc(), two_tables(rt.alloc()), 7506, root, 6)
}

#[test]
fn tables_that_are_hashed_alike_are_joined_where_they_lie(rt: HostRuntime) -> Result<(), Fail> {
    let root = NodeKind::Enforcer(Enforcer::Gather);
    assert_least(&rt, rt.alloc(), hashed_alike(rt.alloc()), 3504, root, 4)
}

#[test]
fn small_tables_without_a_predicate_are_joined_on_one_segment(rt: HostRuntime) -> Result<(), Fail> {
    let root = loop_of(0, 1);
    assert_least(&rt, rt.alloc(), cross_product(rt.alloc()), 1253, root, 5)
}

#[test]
fn a_small_table_is_broadcast_to_a_large_one(rt: HostRuntime) -> Result<(), Fail> {
    let root = NodeKind::Enforcer(Enforcer::Gather);
    let query = large_and_small(rt.alloc());
    assert_least(&rt, rt.alloc(), query, 52_318, root, 5)
}

#[test]
fn the_cost_of_a_huge_join_is_capped(rt: HostRuntime) -> Result<(), Fail> {
    let root = loop_of(0, 1);
    let least = 1_004_500_000_000_004;
    assert_least(&rt, rt.alloc(), huge_tables(rt.alloc()), least, root, 5)
}

#[test]
fn one_table_is_sorted_on_its_segments_and_merged(rt: HostRuntime) -> Result<(), Fail> {
    let root = NodeKind::Enforcer(Enforcer::GatherMerge(1));
    assert_least(&rt, rt.alloc(), sorted_table(rt.alloc()), 5253, root, 3)
}

// Each segment groups its own rows, and these groups go where the hash of b says.
#[test]
fn groups_are_made_in_two_steps_on_the_segments(rt: HostRuntime) -> Result<(), Fail> {
    let root = NodeKind::Enforcer(Enforcer::GatherMerge(1));
    assert_least(&rt, rt.alloc(), grouped(rt.alloc()), 855, root, 6)
}

#[test]
fn there_is_no_plan_where_no_rule_makes_a_join(rt: HostRuntime) -> Result<(), Fail> {
    let found = least_of(rt.alloc(), without_a_plan(rt.alloc()))?;
    assert!(rt; matches!(found, Found::NoPlan));
    Ok(())
}

// Whether the least plan has this cost, and this join on top.
fn is_joined_by(found: &Found, least: u64, join: NodeKind) -> bool {
    match found {
        Found::Least { plan, cost } => *cost == least && join_of(plan) == Some(join),
        Found::NoPlan => false,
    }
}

// With the second table on the left the join costs as much. Its code comes later, since the key of that table is the
// greater one.
#[test]
fn of_plans_of_one_cost_the_first_by_code_is_least(rt: HostRuntime) -> Result<(), Fail> {
    let operator = Physical::HashJoin(KeyParts::Get(0), KeyParts::Get(1));
    let hashed_alike = NodeKind::Native(PhysicalExpr::new(KeyParts::Join(3), operator), 128);
    let found = least_of(rt.alloc(), two_tables(rt.alloc()))?;
    assert!(rt; is_joined_by(&found, 7506, hashed_alike));
    Ok(())
}
