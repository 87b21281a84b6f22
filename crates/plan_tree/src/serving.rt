//! Which requests a line may serve, and what it asks of the children then. No call here takes
//! memory.
#![tactic(auto)]

ghost use Rattle.std.specs.Prelude.{◌≡◌, ◌↔◌, IsTrue, slice_get};
ghost use Rattle.request_props.specs.Numbered.{IsProps, IsNumbered, order_of};
ghost use Rattle.request_props.specs.Satisfied.{BeginsWith, Satisfies, IsOrderKnown, given_order};
ghost use Rattle.plan_space.specs.Gives.{gives_so};
ghost use Rattle.plan_space.specs.Choices.{groups_of};
ghost use Rattle.plan_space.specs.Alternatives.{DistServes, OrderServes, LeftServes, JoinServes, LineServes};
ghost use Rattle.plan_space.specs.Alternatives.{WantsSpread, asked_of, dist_asked as the_dist_asked};
ghost use Rattle.plan_space.specs.Alternatives.{order_asked as the_order_asked, left_asked as the_left_asked};
ghost use Rattle.plan_tree.specs.Alternatives.{MayGive};

use plan_space::{LeftDist, LeftOrder, Line};
use query_core::{Children, KeyParts, Query};
use request_props::{Dist, Given, GivenDist, GivenOrder, Props, Request, meets, satisfies};

/// Whether the line is there for the request, over these children.
pub fn serves(query: &Query, props: &Props, line: Line, children: Children, wanted: Request) -> bool
    requires props { IsProps query.now props.now }
    requires wanted { IsNumbered query.now wanted.order }
    ensures { IsTrue result ↔ LineServes query.now line children wanted }
{
    match (line, children) {
        (Line::Leaf(dist, order), Children::Zero) => gives(query, props, dist, order, wanted),
        (Line::Above(dist, order), Children::One(_)) => {
            left_serves(query, props, dist, order, wanted)
        }
        (Line::Beside(dist, order, _), Children::Two(left, _)) => {
            join_serves(query, props, left, dist, order, wanted)
        }
        _ => false,
    }
}

/// Whether the line may give the distribution. Where it doesn't, it serves no request for it.
pub fn may_give(query: &Query, props: &Props, line: Line, wanted: Dist) -> bool
    requires { IsProps query.now props.now }
    ensures { IsTrue result ↔ MayGive query.now line wanted }
{
    match line {
        Line::Leaf(dist, _) => meets(dist, wanted),
        Line::Above(dist, _) => dist_serves(query, props, dist, wanted),
        Line::Beside(dist, _, _) => dist_serves(query, props, dist, wanted),
    }
}

/// What the line asks of the left child.
#[inline(always)]
pub fn asked_left(line: &Line, wanted: Request) -> Option<Request>
    ensures { result ≡ slice_get (asked_of line.now wanted) 0 }
{
    match line {
        Line::Leaf(_, _) => None,
        Line::Above(dist, order) => Some(left_asked(*dist, *order, wanted)),
        Line::Beside(dist, order, _) => Some(left_asked(*dist, *order, wanted)),
    }
}

/// What the line asks of the right child.
#[inline(always)]
pub fn asked_right(line: &Line, wanted: Request) -> Option<Request>
    ensures { result ≡ slice_get (asked_of line.now wanted) 1 }
{
    match line {
        Line::Leaf(_, _) => None,
        Line::Above(_, _) => None,
        Line::Beside(_, _, right) => Some(*right),
    }
}

#[inline(always)]
pub fn left_child(children: Children) -> Option<KeyParts>
    ensures { result ≡ slice_get (groups_of children) 0 }
{
    match children {
        Children::Zero => None,
        Children::One(child) => Some(child),
        Children::Two(left, _) => Some(left),
    }
}

#[inline(always)]
pub fn right_child(children: Children) -> Option<KeyParts>
    ensures { result ≡ slice_get (groups_of children) 1 }
{
    match children {
        Children::Zero => None,
        Children::One(_) => None,
        Children::Two(_, right) => Some(right),
    }
}

#[inline(always)]
fn left_asked(dist: LeftDist, order: LeftOrder, wanted: Request) -> Request
    ensures { result ≡ the_left_asked dist order wanted }
{
    Request {
        dist: dist_asked(dist, wanted.dist),
        order: order_asked(order, wanted.order),
    }
}

#[inline(always)]
fn dist_asked(dist: LeftDist, wanted: Dist) -> Dist
    ensures { result ≡ the_dist_asked dist wanted }
{
    match dist {
        LeftDist::Fixed(_, asked) => asked,
        LeftDist::Grouped(list) => Dist::Hashed(list),
        LeftDist::Same => wanted,
        LeftDist::SameSpread => wanted,
    }
}

#[inline(always)]
fn order_asked(order: LeftOrder, wanted: u32) -> u32
    ensures { result ≡ the_order_asked order wanted }
{
    match order {
        LeftOrder::Fixed(_, asked) => asked,
        LeftOrder::Same => wanted,
    }
}

fn left_serves(
    query: &Query,
    props: &Props,
    dist: LeftDist,
    order: LeftOrder,
    wanted: Request,
) -> bool
    requires props { IsProps query.now props.now }
    requires wanted { IsNumbered query.now wanted.order }
    ensures { IsTrue result ↔ LeftServes query.now dist order wanted }
{
    dist_serves(query, props, dist, wanted.dist) && order_serves(query, props, order, wanted.order)
}

fn join_serves(
    query: &Query,
    props: &Props,
    left: KeyParts,
    dist: LeftDist,
    order: LeftOrder,
    wanted: Request,
) -> bool
    requires props { IsProps query.now props.now }
    requires wanted { IsNumbered query.now wanted.order }
    ensures { IsTrue result ↔ JoinServes query.now left dist order wanted }
{
    left_serves(query, props, dist, order, wanted)
        && props.fits(query, left, left_asked(dist, order, wanted))
}

fn dist_serves(query: &Query, props: &Props, dist: LeftDist, wanted: Dist) -> bool
    requires { IsProps query.now props.now }
    ensures { IsTrue result ↔ DistServes query.now dist wanted }
{
    match dist {
        LeftDist::Fixed(given, _) => meets(given, wanted),
        LeftDist::Grouped(list) => {
            meets(GivenDist::Hashed(list), wanted) && props.is_grouped_list(query, list)
        }
        LeftDist::Same => true,
        LeftDist::SameSpread => wants_spread(wanted),
    }
}

pub fn wants_spread(dist: Dist) -> bool
    ensures { IsTrue result ↔ WantsSpread dist }
{
    match dist {
        Dist::One => false,
        Dist::Spread => true,
        Dist::Copies => false,
        Dist::Hashed(_) => true,
    }
}

fn order_serves(query: &Query, props: &Props, order: LeftOrder, wanted: u32) -> bool
    requires props { IsProps query.now props.now }
    requires wanted { IsNumbered query.now wanted }
    ensures { IsTrue result ↔ OrderServes query.now order wanted }
{
    match order {
        _ if wanted == 0 => true,
        LeftOrder::Fixed(given, _) => order_begins(query, props, given, wanted),
        LeftOrder::Same => true,
    }
}

/// Whether rows in the one order are in the other.
pub fn order_begins(query: &Query, props: &Props, given: GivenOrder, wanted: u32) -> bool
    requires props { IsProps query.now props.now }
    requires wanted { IsNumbered query.now wanted }
    ensures { IsTrue result ↔ BeginsWith (given_order query.now given) (order_of query.now wanted) }
{
    let anywhere = Request {
        dist: Dist::One,
        order: wanted,
    };
    gives(query, props, GivenDist::One, given, anywhere)
}

/// Whether the distribution and the order are what is asked for.
pub fn gives(
    query: &Query,
    props: &Props,
    dist: GivenDist,
    order: GivenOrder,
    wanted: Request,
) -> bool
    requires props { IsProps query.now props.now }
    requires wanted { IsNumbered query.now wanted.order }
    ensures { IsTrue result ↔ Satisfies query.now (gives_so dist order) wanted }
{
    let given = Given {
        dist,
        order: known_order(query, props, order),
    };
    satisfies(query, props, given, wanted)
}

// The same order, by a number or an index that is there: one that isn't there is empty.
fn known_order(query: &Query, props: &Props, order: GivenOrder) -> GivenOrder
    requires { IsProps query.now props.now }
    ensures known { IsOrderKnown query.now result }
    ensures same { given_order query.now result ≡ given_order query.now order }
{
    match order {
        GivenOrder::Listed(number) => {
            if props.has_order(query, number) {
                order
            } else {
                GivenOrder::Listed(0)
            }
        }
        GivenOrder::Index(table, index) => {
            if query.has_index(table, index) {
                order
            } else {
                GivenOrder::Listed(0)
            }
        }
    }
}
