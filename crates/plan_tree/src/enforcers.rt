//! The enforcers that may meet a request. No call here takes memory.
#![tactic(auto)]

ghost use Rattle.std.specs.Prelude.{◌≡◌, ◌↔◌, IsTrue, None, IfSome, slice_get};
ghost use Rattle.query_core.specs.Keys.{IsKey, NamesGroup};
ghost use Rattle.query_core.specs.declared.query.Query.{Query as AnyQuery};
ghost use Rattle.query_core.specs.declared.words.KeyParts.{KeyParts as AnyKeyParts};
ghost use Rattle.request_props.specs.Numbered.{IsProps};
ghost use Rattle.request_props.specs.Fitting.{Fits};
ghost use Rattle.plan_space.specs.Enforcers.{Among, EnforcedBy, below_of, enforcers_of, motions_of};
ghost use Rattle.plan_space.specs.Enforcers.{moving as the_moving};
ghost use Rattle.plan_space.specs.declared.nodes.NodeKind.TheVariants.{Enforcer as enforcing};
ghost use Rattle.plan_tree.specs.Nodes.{EnforcerInRange, IsNode};
ghost use Rattle.plan_tree.specs.Enforcers.{AreBoth, IsEnforced, IsEnforcerAt, LiesIn};
ghost use Rattle.plan_tree.specs.Enforcers.{EnforcersLie, EnforcersAreInRange};
ghost use Rattle.plan_tree.specs.NodeCosts.{IsThere};

use crate::node::Node;
use plan_space::{Enforcer, Motion, NodeKind, merges_to, motion_to, moving};
use query_core::{Key, KeyParts, Query};
use request_props::{Dist, Props, Request};

/// An enforcer that may meet a request, and what it asks of a plan of the same group.
#[derive(Clone, Copy, PartialEq, Eq)]
pub struct Enforced {
    pub node: Node,
    pub below: Request,
}

/// The enforcer at this place, of those for the request that fit the group.
pub fn enforcer(
    query: &Query,
    props: &Props,
    key: Key,
    request: Request,
    n: u32,
) -> Option<Enforced>
    requires props { IsProps query.now props.now }
    requires key { IsKey query.now key }
    ensures at_place { (g : AnyKeyParts) → NamesGroup query.now key g →
        IsEnforcerAt query.now g request n result }
    ensures fitting { (g : AnyKeyParts) → NamesGroup query.now key g → Fits query.now g request →
        IsEnforced result (slice_get (enforcers_of request) n) }
    ensures there { IfSome result (λ found. IsThere query.now request found.node) }
{
    enforcer_of_group(query, props, query.group(key), request, n)
}

/// The enforcer at this place, of all those for a request that fits the group.
pub fn enforcer_for(
    query: &Query,
    props: &Props,
    group: KeyParts,
    wanted: Request,
    place: u32,
) -> Option<Enforced>
    requires props { IsProps query.now props.now }
    requires fits { Fits query.now group wanted }
    ensures { IsEnforced result (slice_get (enforcers_of wanted) place) }
{
    enforcer_of_group(query, props, group, wanted, place)
}

// The enforcer at this place, of those for the request that fit the group.
fn enforcer_of_group(
    query: &Query,
    props: &Props,
    group: KeyParts,
    request: Request,
    n: u32,
) -> Option<Enforced>
    requires props { IsProps query.now props.now }
    ensures at_place { IsEnforcerAt query.now group request n result }
    ensures fitting { Fits query.now group request →
        IsEnforced result (slice_get (enforcers_of request) n) }
    ensures there { IfSome result (λ found. IsThere query.now request found.node) }
{
    let (first, second) = both(query, props, group, request);
    match n {
        0 => first,
        1 => second,
        _ => None,
    }
}

/// What an enforcer for the request asks of a plan of the same group.
pub fn asked_by(enforcer: Enforcer, request: Request) -> Request
    ensures value { result ≡ below_of enforcer request }
    ensures only { (e : EnforcedBy) → Among e (enforcers_of request) → e.node ≡ enforcer →
        e.below ≡ result }
{
    match enforcer {
        Enforcer::Gather => ask(Dist::Spread, 0),
        Enforcer::Broadcast => ask(Dist::Spread, 0),
        Enforcer::Sort(_) => ask(request.dist, 0),
        Enforcer::GatherMerge(_) => ask(Dist::Spread, request.order),
        Enforcer::Redistribute(_) => ask(Dist::Spread, 0),
    }
}

/// Where a request fits a group, what an enforcer for it sorts or moves by lies in the group. Its
/// number names it, where the query has at most 60 hashed lists and 60 orders.
pub fn enforcers_are_known()
    ensures lie { (q : AnyQuery) → EnforcersLie q }
    ensures in_range { (q : AnyQuery) → EnforcersAreInRange q }
{}

fn ask(dist: Dist, order: u32) -> Request
    ensures { result ≡ record { dist = dist; order = order } }
{
    Request { dist, order }
}

// The two enforcers for the request, where they fit the group.
fn both(
    query: &Query,
    props: &Props,
    group: KeyParts,
    request: Request,
) -> (Option<Enforced>, Option<Enforced>)
    requires { IsProps query.now props.now }
    ensures { AreBoth query.now group (enforcers_of request) result.0 result.1 }
{
    if request.order == 0 {
        return (motion(query, props, group, request), None);
    }
    if !props.order_fits(query, group, request.order) {
        return (None, None);
    }
    let sorted = over(Enforcer::Sort(request.order), request);
    if !merges_to(request.dist) {
        return (Some(sorted), None);
    }
    let merge = Enforcer::GatherMerge(request.order);
    (Some(sorted), Some(over(merge, request)))
}

// The enforcer that brings rows to the distribution, where no order is asked for.
fn motion(query: &Query, props: &Props, group: KeyParts, request: Request) -> Option<Enforced>
    requires { IsProps query.now props.now }
    ensures { AreBoth query.now group (motions_of request.dist) result None }
{
    match motion_to(request.dist) {
        None => None,
        Some(motion) => {
            if !lies_in(query, props, group, motion) {
                return None;
            }
            Some(over(moving(motion), request))
        }
    }
}

// Whether what the motion moves by lies in the group.
fn lies_in(query: &Query, props: &Props, group: KeyParts, motion: Motion) -> bool
    requires { IsProps query.now props.now }
    ensures { IsTrue result ↔ LiesIn query.now group (the_moving motion) }
{
    match motion {
        Motion::Gather => true,
        Motion::Broadcast => true,
        Motion::Redistribute(list) => props.hash_fits(query, group, list),
    }
}

// The enforcer for the request, over a plan for what it asks.
fn over(enforcer: Enforcer, request: Request) -> Enforced
    requires { EnforcerInRange enforcer }
    ensures node { IsNode result.node (enforcing enforcer) }
    ensures below { result.below ≡ below_of enforcer request }
{
    Enforced {
        node: Node::make(NodeKind::Enforcer(enforcer)),
        below: asked_by(enforcer, request),
    }
}
