//! Whether a node may stand over the plans below it. No call here takes memory.
#![tactic(auto)]

ghost use Rattle.std.specs.Prelude.{◌≡◌, ◌↔◌, IsTrue};
ghost use Rattle.query_core.specs.Expressions.{IsCandidate};
ghost use Rattle.request_props.specs.Numbered.{IsProps, order_of};
ghost use Rattle.request_props.specs.Satisfied.{Meets, BeginsWith, given_order};
ghost use Rattle.plan_space.specs.Valid.{IsSpread, DistNeeds, OrderNeeds, LeftNeeds, LineFits, NativeFits};
ghost use Rattle.plan_space.specs.Valid.{CanSort, CanMerge, CanRedistribute, EnforcerFits, OverOne, NodeFits};
ghost use Rattle.plan_tree.specs.Seen.{kids_seen};
ghost use Rattle.plan_check.specs.Nodes.{IsKindOf};

use cost_units::Class;
use plan_space::{Enforcer, Kid, LeftDist, LeftOrder, Line, NodeKind};
use plan_tree::{Kids, given_satisfies, line_of};
use query_core::{Children, KeyParts, PhysicalExpr, Query};
use request_props::{Dist, Given, GivenDist, GivenOrder, Props, Request, class_of};

/// Whether the node may stand over plans that are seen so.
pub fn node_fits(query: &Query, props: &Props, kind: NodeKind, below: Kids) -> bool
    requires props { IsProps query.now props.now }
    requires of_query { IsKindOf query.now kind }
    ensures { IsTrue result ↔
        NodeFits (IsCandidate query.now) query.now kind (kids_seen below) }
{
    match kind {
        NodeKind::Native(expr, mode) => native_fits(query, props, expr, mode, below),
        NodeKind::Enforcer(enforcer) => over_one(query, props, enforcer, below),
    }
}

// ---- enforcers

// Whether the enforcer stands over one plan, and may.
fn over_one(query: &Query, props: &Props, enforcer: Enforcer, below: Kids) -> bool
    requires { IsProps query.now props.now }
    ensures { IsTrue result ↔ OverOne (EnforcerFits query.now enforcer) (kids_seen below) }
{
    match below {
        Kids::Nothing => false,
        Kids::One(kid) => enforcer_fits(query, props, enforcer, kid),
        Kids::Two(_, _) => false,
    }
}

fn enforcer_fits(query: &Query, props: &Props, enforcer: Enforcer, kid: Kid) -> bool
    requires { IsProps query.now props.now }
    ensures { IsTrue result ↔ EnforcerFits query.now enforcer kid }
{
    match enforcer {
        Enforcer::Gather => is_spread(kid.given.dist),
        Enforcer::Broadcast => is_spread(kid.given.dist),
        Enforcer::Sort(order) => can_sort(query, props, order, kid),
        Enforcer::GatherMerge(order) => can_merge(query, props, order, kid),
        Enforcer::Redistribute(list) => can_redistribute(query, props, list, kid),
    }
}

fn can_sort(query: &Query, props: &Props, order: u32, kid: Kid) -> bool
    requires { IsProps query.now props.now }
    ensures { IsTrue result ↔ CanSort query.now order kid }
{
    1 <= order && props.order_fits(query, kid.group, order)
}

fn can_merge(query: &Query, props: &Props, order: u32, kid: Kid) -> bool
    requires { IsProps query.now props.now }
    ensures { IsTrue result ↔ CanMerge query.now order kid }
{
    can_sort(query, props, order, kid)
        && is_spread(kid.given.dist)
        && order_meets(query, props, kid.given.order, order)
}

fn can_redistribute(query: &Query, props: &Props, list: u32, kid: Kid) -> bool
    requires { IsProps query.now props.now }
    ensures { IsTrue result ↔ CanRedistribute query.now list kid }
{
    is_spread(kid.given.dist) && props.hash_fits(query, kid.group, list)
}

// ---- expressions

fn native_fits(query: &Query, props: &Props, expr: PhysicalExpr, mode: u32, below: Kids) -> bool
    requires { IsProps query.now props.now }
    ensures { IsTrue result ↔ NativeFits query.now expr mode (kids_seen below) }
{
    match line_of(query, props, expr, mode) {
        Some(line) => line_fits(query, props, line, expr.children(), below),
        None => false,
    }
}

// Whether the line may stand over these plans, where the children are these groups.
fn line_fits(query: &Query, props: &Props, line: Line, children: Children, below: Kids) -> bool
    requires { IsProps query.now props.now }
    ensures { IsTrue result ↔
        LineFits query.now line children (kids_seen below) }
{
    match (line, below) {
        (Line::Leaf(_, _), Kids::Nothing) => children == Children::Zero,
        (Line::Above(dist, order), Kids::One(kid)) => {
            children == Children::One(kid.group) && left_needs(query, props, dist, order, kid.given)
        }
        (Line::Beside(dist, order, request), Kids::Two(left, right)) => {
            are_these(children, left.group, right.group)
                && left_needs(query, props, dist, order, left.given)
                && given_satisfies(query, props, right.given, request)
        }
        _ => false,
    }
}

fn are_these(children: Children, left: KeyParts, right: KeyParts) -> bool
    ensures { IsTrue result ↔ (children ≡ Children.Two left right) }
{
    children == Children::Two(left, right)
}

// Whether the left child gives what the line needs.
fn left_needs(query: &Query, props: &Props, dist: LeftDist, order: LeftOrder, given: Given) -> bool
    requires { IsProps query.now props.now }
    ensures { IsTrue result ↔
        LeftNeeds query.now dist order given }
{
    dist_needs(query, props, dist, given.dist) && order_needs(query, props, order, given.order)
}

fn dist_needs(query: &Query, props: &Props, dist: LeftDist, given: GivenDist) -> bool
    requires { IsProps query.now props.now }
    ensures { IsTrue result ↔ DistNeeds query.now dist given }
{
    match dist {
        LeftDist::Fixed(_, asked) => has_dist(query, props, given, asked),
        LeftDist::Grouped(list) => {
            props.is_grouped_list(query, list) && has_dist(query, props, given, Dist::Hashed(list))
        }
        LeftDist::Same => true,
        LeftDist::SameSpread => is_spread(given),
    }
}

fn order_needs(query: &Query, props: &Props, order: LeftOrder, given: GivenOrder) -> bool
    requires { IsProps query.now props.now }
    ensures { IsTrue result ↔ OrderNeeds query.now order given }
{
    match order {
        LeftOrder::Fixed(_, asked) => order_meets(query, props, given, asked),
        LeftOrder::Same => true,
    }
}

// ---- distributions and orders

fn is_spread(dist: GivenDist) -> bool
    ensures { IsTrue result ↔ IsSpread dist }
{
    class_of(dist) == Class::Spread
}

// Whether rows that lie so are distributed as asked.
fn has_dist(query: &Query, props: &Props, dist: GivenDist, asked: Dist) -> bool
    requires { IsProps query.now props.now }
    ensures { IsTrue result ↔ Meets dist asked }
{
    let given = Given {
        dist,
        order: GivenOrder::Listed(0),
    };
    let wanted = Request {
        dist: asked,
        order: 0,
    };
    given_satisfies(query, props, given, wanted)
}

// Whether rows in this order are in the order that is asked for.
fn order_meets(query: &Query, props: &Props, order: GivenOrder, asked: u32) -> bool
    requires { IsProps query.now props.now }
    ensures { IsTrue result ↔
        BeginsWith (given_order query.now order) (order_of query.now asked) }
{
    let given = Given {
        dist: GivenDist::One,
        order,
    };
    let wanted = Request {
        dist: Dist::One,
        order: asked,
    };
    given_satisfies(query, props, given, wanted)
}
