//! What nodes see of the plans below them, and what they give over these. No call here takes memory.
#![tactic(auto)]

ghost use Rattle.std.specs.Prelude.{◌≡◌, ◌↔◌, IsTrue};
ghost use Rattle.request_props.specs.Numbered.{IsProps, IsNumbered, order_of};
ghost use Rattle.request_props.specs.Satisfied.{Satisfies};
ghost use Rattle.plan_space.specs.Gives.{kid_under, first_group as the_first_group};
ghost use Rattle.plan_space.specs.Gives.{first_given as the_first_given};
ghost use Rattle.plan_space.specs.Gives.{node_group as the_node_group, node_gives as the_node_gives};
ghost use Rattle.plan_space.specs.Gives.{native_gives as the_native_gives, enforcer_gives as the_enforcer_gives};
ghost use Rattle.plan_space.specs.Gives.{line_gives as the_line_gives, left_gives as the_left_gives};
ghost use Rattle.plan_space.specs.Gives.{left_dist as the_left_dist, left_order as the_left_order};
ghost use Rattle.plan_tree.specs.Seen.{kids_seen};

use crate::lines::line_of;
use crate::serving::gives;
use plan_space::{Enforcer, Kid, LeftDist, LeftOrder, Line, NodeKind};
use query_core::{KeyParts, PhysicalExpr, Query};
use request_props::{Given, GivenDist, GivenOrder, Props, Request};

/// What a node sees of all plans below it.
#[derive(Clone, Copy)]
pub enum Kids {
    Nothing,
    One(Kid),
    /// The left plan and the right one.
    Two(Kid, Kid),
}

/// What is seen of a node over plans that are seen so.
pub fn seen_above(query: &Query, props: &Props, kind: NodeKind, below: Kids) -> Kid
    requires { IsProps query.now props.now }
    ensures { result ≡ kid_under query.now kind (kids_seen below) }
{
    Kid {
        group: node_group(kind, below),
        given: node_gives(query, props, kind, below),
    }
}

/// Whether what is given is what is asked for. An order that isn't there counts as empty.
pub fn given_satisfies(query: &Query, props: &Props, given: Given, wanted: Request) -> bool
    requires { IsProps query.now props.now }
    ensures { IsTrue result ↔ Satisfies query.now given wanted }
{
    gives(
        query,
        props,
        given.dist,
        given.order,
        known_request(query, props, wanted),
    )
}

fn node_group(kind: NodeKind, below: Kids) -> KeyParts
    ensures { result ≡ the_node_group kind (kids_seen below) }
{
    match kind {
        NodeKind::Native(expr, _) => expr.group,
        NodeKind::Enforcer(_) => first_group(below),
    }
}

/// The group of the first plan below.
pub fn first_group(below: Kids) -> KeyParts
    ensures { result ≡ the_first_group (kids_seen below) }
{
    match below {
        Kids::Nothing => KeyParts::Get(0),
        Kids::One(kid) => kid.group,
        Kids::Two(left, _) => left.group,
    }
}

// What the first plan below gives.
fn first_given(below: Kids) -> Given
    ensures { result ≡ the_first_given (kids_seen below) }
{
    match below {
        Kids::Nothing => unordered(GivenDist::One),
        Kids::One(kid) => kid.given,
        Kids::Two(left, _) => left.given,
    }
}

fn node_gives(query: &Query, props: &Props, kind: NodeKind, below: Kids) -> Given
    requires { IsProps query.now props.now }
    ensures { result ≡ the_node_gives query.now kind (kids_seen below) }
{
    match kind {
        NodeKind::Native(expr, mode) => native_gives(query, props, expr, mode, below),
        NodeKind::Enforcer(enforcer) => enforcer_gives(enforcer, first_given(below)),
    }
}

fn enforcer_gives(enforcer: Enforcer, given: Given) -> Given
    ensures { result ≡ the_enforcer_gives enforcer given }
{
    match enforcer {
        Enforcer::Gather => unordered(GivenDist::One),
        Enforcer::Broadcast => unordered(GivenDist::Copies),
        Enforcer::Sort(order) => ordered(given.dist, order),
        Enforcer::GatherMerge(order) => ordered(GivenDist::One, order),
        Enforcer::Redistribute(list) => unordered(GivenDist::Hashed(list)),
    }
}

fn unordered(dist: GivenDist) -> Given
    ensures { result ≡ record { dist = dist; order = GivenOrder.Listed 0 } }
{
    ordered(dist, 0)
}

fn ordered(dist: GivenDist, order: u32) -> Given
    ensures { result ≡ record { dist = dist; order = GivenOrder.Listed order } }
{
    Given {
        dist,
        order: GivenOrder::Listed(order),
    }
}

fn native_gives(query: &Query, props: &Props, expr: PhysicalExpr, mode: u32, below: Kids) -> Given
    requires { IsProps query.now props.now }
    ensures { result ≡ the_native_gives query.now expr mode (kids_seen below) }
{
    match line_of(query, props, expr, mode) {
        Some(line) => line_gives(line, below),
        None => unordered(GivenDist::One),
    }
}

fn line_gives(line: Line, below: Kids) -> Given
    ensures { result ≡ the_line_gives line (kids_seen below) }
{
    match line {
        Line::Leaf(dist, order) => Given { dist, order },
        Line::Above(dist, order) => left_gives(dist, order, first_given(below)),
        Line::Beside(dist, order, _) => left_gives(dist, order, first_given(below)),
    }
}

fn left_gives(dist: LeftDist, order: LeftOrder, given: Given) -> Given
    ensures { result ≡ the_left_gives dist order given }
{
    Given {
        dist: left_dist(dist, given.dist),
        order: left_order(order, given.order),
    }
}

fn left_dist(dist: LeftDist, given: GivenDist) -> GivenDist
    ensures { result ≡ the_left_dist dist given }
{
    match dist {
        LeftDist::Fixed(gives, _) => gives,
        LeftDist::Grouped(list) => GivenDist::Hashed(list),
        LeftDist::Same => given,
        LeftDist::SameSpread => given,
    }
}

fn left_order(order: LeftOrder, given: GivenOrder) -> GivenOrder
    ensures { result ≡ the_left_order order given }
{
    match order {
        LeftOrder::Fixed(gives, _) => gives,
        LeftOrder::Same => given,
    }
}

// The same request, with an order that is there: one that isn't is empty.
fn known_request(query: &Query, props: &Props, wanted: Request) -> Request
    requires { IsProps query.now props.now }
    ensures known { IsNumbered query.now result.order }
    ensures dist { result.dist ≡ wanted.dist }
    ensures same { order_of query.now result.order ≡ order_of query.now wanted.order }
{
    if props.has_order(query, wanted.order) {
        wanted
    } else {
        Request {
            dist: wanted.dist,
            order: 0,
        }
    }
}
