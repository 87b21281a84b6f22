//! What a node costs over the plans that it sees. No call here takes memory.
#![tactic(auto)]

ghost use Rattle.std.specs.Prelude.{◌≡◌, ◌≤◌};
ghost use Rattle.query_core.specs.Keys.{IsGroup};
ghost use Rattle.cardinality.specs.Rows.{rows_of};
ghost use Rattle.cost_units.specs.Cost.{IsBounded, local_cost, most_cost, most_rows};
ghost use Rattle.request_props.specs.Numbered.{IsProps};
ghost use Rattle.plan_space.specs.Gives.{first_group as the_first_group, node_group as the_node_group};
ghost use Rattle.request_props.specs.Dists.{class_of as the_class_of};
ghost use Rattle.plan_space.specs.Cost.{native_shape as the_native_shape, enforcer_shape as the_enforcer_shape};
ghost use Rattle.plan_space.specs.Cost.{shape_of};
ghost use Rattle.plan_space.specs.Cost.{share_of, first_share as the_first_share, second_share as the_second_share};
ghost use Rattle.plan_tree.specs.Seen.{kids_seen, HasGroup, HaveGroups};

use crate::cost::operator_shape;
use crate::seen::{Kids, first_group, seen_above};
use cost_units::{CostShape, local, share};
use plan_space::{Enforcer, Kid, NodeKind};
use query_core::{Key, KeyParts, PhysicalExpr, Query, groups_are_known};
use request_props::{Props, class_of};

/// The cost of a node over plans that are seen so. Of groups that the query hasn't, only the least and the most are
/// said.
pub fn cost_above(query: &Query, props: &Props, kind: NodeKind, below: Kids) -> u64
    requires { IsProps query.now props.now }
    ensures value { HasGroup query.now kind → HaveGroups query.now below →
        result ≡ local_cost (shape_of query.now kind (kids_seen below)) }
    ensures some { 1 ≤ result }
    ensures most { result ≤ most_cost }
{
    local(node_shape(query, props, kind, below))
}

/// The rows of a node's group over plans that are seen so, where the groups are the query's.
pub fn rows_above(query: &Query, props: &Props, kind: NodeKind, below: Kids) -> u64
    requires { IsProps query.now props.now }
    ensures { HasGroup query.now kind → HaveGroups query.now below →
        result ≡ rows_of query.now (the_node_group kind (kids_seen below)) }
{
    match kind {
        NodeKind::Native(expr, _) => group_rows(query, props, expr.group),
        NodeKind::Enforcer(_) => first_rows(query, props, below),
    }
}

// What the node does.
fn node_shape(query: &Query, props: &Props, kind: NodeKind, below: Kids) -> CostShape
    requires { IsProps query.now props.now }
    ensures value { HasGroup query.now kind → HaveGroups query.now below →
        result ≡ shape_of query.now kind (kids_seen below) }
    ensures bounded { IsBounded result }
{
    match kind {
        NodeKind::Native(expr, mode) => native_shape(query, props, expr, mode, below),
        NodeKind::Enforcer(enforcer) => enforcer_shape(query, props, enforcer, below),
    }
}

fn enforcer_shape(query: &Query, props: &Props, enforcer: Enforcer, below: Kids) -> CostShape
    requires { IsProps query.now props.now }
    ensures value { HaveGroups query.now below →
        result ≡ the_enforcer_shape query.now enforcer (kids_seen below) }
    ensures bounded { IsBounded result }
{
    match enforcer {
        Enforcer::Gather => CostShape::Gather(first_rows(query, props, below)),
        Enforcer::Broadcast => CostShape::Broadcast(first_rows(query, props, below)),
        Enforcer::Sort(_) => CostShape::Sort(first_share(query, props, below)),
        Enforcer::GatherMerge(_) => CostShape::GatherMerge(first_rows(query, props, below)),
        Enforcer::Redistribute(_) => CostShape::Redistribute(first_share(query, props, below)),
    }
}

fn native_shape(
    query: &Query,
    props: &Props,
    expr: PhysicalExpr,
    mode: u32,
    below: Kids,
) -> CostShape
    requires { IsProps query.now props.now }
    ensures value { IsGroup query.now expr.group → HaveGroups query.now below →
        result ≡ the_native_shape query.now expr mode (kids_seen below) }
    ensures bounded { IsBounded result }
{
    let above = seen_above(query, props, NodeKind::Native(expr, mode), below);
    operator_shape(
        expr.operator,
        first_share(query, props, below),
        second_share(query, props, below),
        seen_share(query, props, above),
    )
}

// The rows of the first plan's group.
fn first_rows(query: &Query, props: &Props, below: Kids) -> u64
    requires { IsProps query.now props.now }
    ensures value { HaveGroups query.now below →
        result ≡ rows_of query.now (the_first_group (kids_seen below)) }
    ensures most { result ≤ most_rows }
{
    group_rows(query, props, first_group(below))
}

// How many rows of the first plan the busiest segment has.
fn first_share(query: &Query, props: &Props, below: Kids) -> u64
    requires { IsProps query.now props.now }
    ensures value { HaveGroups query.now below →
        result ≡ the_first_share query.now (kids_seen below) }
    ensures most { result ≤ most_rows }
{
    match below {
        Kids::Nothing => 0,
        Kids::One(kid) => seen_share(query, props, kid),
        Kids::Two(left, _) => seen_share(query, props, left),
    }
}

// How many rows of the second plan the busiest segment has.
fn second_share(query: &Query, props: &Props, below: Kids) -> u64
    requires { IsProps query.now props.now }
    ensures value { HaveGroups query.now below →
        result ≡ the_second_share query.now (kids_seen below) }
    ensures most { result ≤ most_rows }
{
    match below {
        Kids::Nothing => 0,
        Kids::One(_) => 0,
        Kids::Two(_, right) => seen_share(query, props, right),
    }
}

// How many rows of the plan the busiest segment has.
fn seen_share(query: &Query, props: &Props, kid: Kid) -> u64
    requires { IsProps query.now props.now }
    ensures value { IsGroup query.now kid.group →
        result ≡ share_of query.now kid.group (the_class_of kid.given.dist) }
    ensures most { result ≤ most_rows }
{
    share(
        group_rows(query, props, kid.group),
        class_of(kid.given.dist),
        query.segments,
    )
}

// The rows of a group, where it is the query's.
fn group_rows(query: &Query, props: &Props, group: KeyParts) -> u64
    requires { IsProps query.now props.now }
    ensures value { IsGroup query.now group → result ≡ rows_of query.now group }
    ensures most { result ≤ most_rows }
{
    // For the proof: each group of the query has a key.
    groups_are_known();
    if group.is_in_range() {
        props.rows(query, Key::make(group))
    } else {
        0
    }
}
