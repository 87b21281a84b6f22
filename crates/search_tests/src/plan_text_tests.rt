//! Texts of plans that were made by hand.

ghost use Rattle.std.specs.Prelude.{◌<◌};
ghost use Rattle.request_props.specs.Numbered.{IsProps};
ghost use Rattle.plan_tree.specs.Nodes.{EnforcerInRange};

use crate::nodes::{hash_agg, native, stream_agg};
use crate::texts::assert_text;
use plan_report::plan_text;
use plan_space::{Enforcer, NodeKind};
use plan_tree::{Found, Node, Plan};
use query_core::{KeyParts, Physical, Query};
use request_props::Props;
use std::alloc::{AllocError, Global};
use std::process::Abort;
use std::test::Fail;
use worked_queries::{implied, totals, two_tables_descending};

fn enforcer(kind: Enforcer) -> Node
    requires { EnforcerInRange kind }
{
    Node::make(NodeKind::Enforcer(kind))
}

fn scan(table: u32) -> Node
    requires { table < 10 }
{
    native(KeyParts::Get(table), Physical::Scan, 0)
}

fn hash_join(mode: u32) -> Node
    requires { mode < 256 }
{
    let operator = Physical::HashJoin(KeyParts::Get(0), KeyParts::Get(1));
    native(KeyParts::Join(3), operator, mode)
}

fn merge_join(mode: u32) -> Node
    requires { mode < 256 }
{
    let operator = Physical::MergeJoin(KeyParts::Get(0), KeyParts::Get(1));
    native(KeyParts::Join(3), operator, mode)
}

fn over(alloc: Global, node: Node, kid: Plan) -> Result<Plan, AllocError> {
    Ok(Plan::Over(node, Box::new(alloc, kid)?))
}

fn two(alloc: Global, node: Node, left: Plan, right: Plan) -> Result<Plan, AllocError> {
    let right = Box::new(alloc, right)?;
    Ok(Plan::Two(node, Box::new(alloc, left)?, right))
}

// The rows of T1 where they lie, those of T2 moved to where the hash of T2.b says, and their join,
// sorted on each segment and then merged.
fn two_table_plan(alloc: Global) -> Result<Plan, AllocError> {
    let right = Plan::Leaf(scan(1));
    let moved = over(alloc, enforcer(Enforcer::Redistribute(2)), right)?;
    let joined = two(alloc, hash_join(128), Plan::Leaf(scan(0)), moved)?;
    let sorted = over(alloc, enforcer(Enforcer::Sort(2)), joined)?;
    over(alloc, enforcer(Enforcer::GatherMerge(2)), sorted)
}

// The text of what was found.
fn text_of(alloc: Global, query: Result<Query, Fail>, found: &Found) -> Result<Vec<u8>, Fail> {
    let (query, props) = implied(alloc, query?)?;
    Ok(plan_text(alloc, &query, &props, found)?)
}

fn text_of_plan(
    alloc: Global,
    query: Result<Query, Fail>,
    plan: Plan,
    cost: u64,
) -> Result<Vec<u8>, Fail> {
    let found = Found::Least { plan, cost };
    text_of(alloc, query, &found)
}

const PLAN: &str = "cost 7506
output T1.a, T2.b AS c
GatherMerge(T1.a DESC) rows=1000 cost=3001
  Sort(T1.a DESC) rows=1000 cost=2001
    HashJoin(colocated p0) rows=1000 cost=1001
      Scan(T1) rows=1000 cost=251
      Redistribute(T2.b) rows=1000 cost=1001
        Scan(T2) rows=1000 cost=251
";

#[test]
fn a_plan_is_printed_a_node_a_line(rt: HostRuntime) -> Result<(), Fail> {
    let alloc = rt.alloc();
    let plan = two_table_plan(alloc)?;
    let text = text_of_plan(alloc, two_tables_descending(alloc), plan, 7506)?;
    assert_text(&rt, text.as_slice(), PLAN);
    Ok(())
}

#[test]
fn a_copy_of_a_plan_has_the_same_text(rt: HostRuntime) -> Result<(), Fail> {
    let alloc = rt.alloc();
    let plan = two_table_plan(alloc)?;
    let copied = plan.copy(alloc)?;
    let text = text_of_plan(alloc, two_tables_descending(alloc), copied, 7506)?;
    assert_text(&rt, text.as_slice(), PLAN);
    Ok(())
}

#[test]
fn no_plan_is_one_line(rt: HostRuntime) -> Result<(), Fail> {
    let alloc = rt.alloc();
    let text = text_of(alloc, two_tables_descending(alloc), &Found::NoPlan)?;
    assert_text(&rt, text.as_slice(), "no plan\n");
    Ok(())
}

#[test]
fn an_order_names_an_aggregate_by_its_output_name(rt: HostRuntime) -> Result<(), Fail> {
    let alloc = rt.alloc();
    let plan = over(alloc, enforcer(Enforcer::Sort(2)), Plan::Leaf(scan(0)))?;
    let text = text_of_plan(alloc, totals(alloc), plan, 1)?;
    let wanted =
        "cost 1\noutput COUNT(*), SUM(t.a) AS total, t.b\nSort(total DESC, t.b) rows=1000 cost=2001\n";
    assert!(rt; text.starts_with(wanted.as_bytes()));
    Ok(())
}

// The text of a plan of this node alone, at a cost of 1.
fn text_of_node(
    alloc: Global,
    query: &Query,
    props: &Props,
    node: Node,
) -> Result<Vec<u8>, AllocError>
    requires { IsProps query.now props.now }
{
    let found = Found::Least {
        plan: Plan::Leaf(node),
        cost: 1,
    };
    plan_text(alloc, query, props, &found)
}

// Whether the text goes on so behind this head.
fn goes_on(text: &[u8], head: &str, line: &str) -> bool {
    match text.strip_prefix(head.as_bytes()) {
        Some(rest) => rest.starts_with(line.as_bytes()),
        None => false,
    }
}

// Asserts that the text of each node alone has such a line behind the head.
fn assert_lines(
    rt: &impl Abort,
    alloc: Global,
    query: Result<Query, Fail>,
    head: &str,
    lines: &[(Node, &str)],
) -> Result<(), Fail> {
    let (query, props) = implied(alloc, query?)?;
    for (node, line) in lines {
        let text = text_of_node(alloc, &query, &props, *node)?;
        assert!(rt; goes_on(text.as_slice(), head, line), "{line}");
    }
    Ok(())
}

#[test]
fn a_node_is_printed_with_its_mode(rt: HostRuntime) -> Result<(), Fail> {
    let alloc = rt.alloc();
    let index_scan = native(KeyParts::Get(1), Physical::IndexScan(0), 0);
    let lines = [
        (hash_join(0), "HashJoin(one) rows=1000 "),
        (hash_join(64), "HashJoin(copied) rows=1000 "),
        (merge_join(0), "MergeJoin(one p0) rows=1000 "),
        (merge_join(64), "MergeJoin(copied p0) rows=1000 "),
        (merge_join(128), "MergeJoin(colocated p0) rows=1000 "),
        (index_scan, "IndexScan(T2, i0) rows=1000 cost=501\n"),
    ];
    let head = "cost 1\noutput T1.a, T2.b AS c\n";
    assert_lines(&rt, alloc, two_tables_descending(alloc), head, &lines)
}

#[test]
fn an_aggregation_is_printed_with_where_it_groups(rt: HostRuntime) -> Result<(), Fail> {
    let alloc = rt.alloc();
    let rows = KeyParts::Filter(0);
    let index_seek = native(rows, Physical::IndexSeek(0), 0);
    let partial_agg = native(KeyParts::Partial, Physical::PartialAgg(rows), 0);
    let lines = [
        (index_seek, "IndexSeek(t, i0) rows=100 cost=76\n"),
        (hash_agg(rows, 0), "HashAgg(one) rows=10 "),
        (hash_agg(rows, 128), "HashAgg(hashed t.a) rows=10 "),
        (hash_agg(rows, 129), "HashAgg(hashed t.b) rows=10 "),
        (stream_agg(rows, 0), "StreamAgg(one) rows=10 "),
        (stream_agg(rows, 129), "StreamAgg(hashed t.b) rows=10 "),
        (partial_agg, "PartialAgg rows=40 "),
    ];
    let head = "cost 1\noutput COUNT(*), SUM(t.a) AS total, t.b\n";
    assert_lines(&rt, alloc, totals(alloc), head, &lines)
}
