//! The modes in which a join serves a request: for the distribution on one segment or spread, and by what gives the
//! order. A hash join is in no order, a loop join in that of its left child, and a merge join in that of the left
//! columns of the predicates by which it merges.
#![tactic(auto)]

ghost use Rattle.std.specs.Prelude.{ℕ, ◌≡◌, ◌↔◌, [], IsTrue};
ghost use Rattle.request_props.specs.JoinSets.{Merges};
ghost use Rattle.request_props.specs.NumberSets.{IsInSet};
ghost use Rattle.request_props.specs.Numbered.{IsProps, order_of};
ghost use Rattle.request_props.specs.Satisfied.{BeginsWith};
ghost use Rattle.plan_space.specs.Lines.{on_one};
ghost use Rattle.plan_space.specs.declared.lines.LeftDist.TheVariants.{SameSpread};
ghost use Rattle.plan_tree.specs.ServingModes.{AreJoinModes, DistSuits, IsPlaced, OrderSuits};

use crate::walks::tried;
use plan_space::{JoinBy, ModeSets};
use query_core::{KeyParts, Query};
use request_props::{Dist, NumberSet, Props, Request};

/// Whether a join of these groups may serve the request in some mode: it can give the distribution and the order.
pub fn join_may_serve(
    query: &Query,
    props: &Props,
    by: JoinBy,
    left: KeyParts,
    right: KeyParts,
    wanted: Request,
) -> bool
    requires { IsProps query.now props.now }
    ensures { IsTrue result ↔ (DistSuits query.now left wanted.dist ×
        OrderSuits query.now by left right wanted.order) }
{
    match by {
        JoinBy::Hashing => {
            wants_no_order(query, props, wanted.order)
                && dist_suits(query, props, left, wanted.dist)
        }
        JoinBy::Merging => {
            dist_suits(query, props, left, wanted.dist)
                && merges(query, props, left, right, wanted.order)
        }
        JoinBy::Looping => {
            props.order_fits(query, left, wanted.order)
                && dist_suits(query, props, left, wanted.dist)
        }
    }
}

/// The modes in which a join of these groups serves the request, if the left columns of what it equates fit its left
/// child.
pub fn join_modes(
    query: &Query,
    props: &Props,
    by: JoinBy,
    left: KeyParts,
    right: KeyParts,
    wanted: Request,
) -> ModeSets
    requires { IsProps query.now props.now }
    ensures { AreJoinModes query.now by left right wanted result }
{
    match by {
        JoinBy::Hashing if wants_no_order(query, props, wanted.order) => {
            let hashed = props.hashing(query, left, right, wanted.dist);
            placed(query, props, left, wanted.dist, NumberSet::below(1), hashed)
        }
        JoinBy::Hashing => ModeSets::none(),
        JoinBy::Merging => {
            let merging = props.merging(query, left, right, wanted.order);
            let hashing = props.hashing(query, left, right, wanted.dist);
            let hashed = merging.and(hashing);
            placed(query, props, left, wanted.dist, merging, hashed)
        }
        JoinBy::Looping if props.order_fits(query, left, wanted.order) => {
            placed(
                query,
                props,
                left,
                wanted.dist,
                NumberSet::below(1),
                NumberSet::none(),
            )
        }
        JoinBy::Looping => ModeSets::none(),
    }
}

// By these numbers on one segment and with copies, where that is as asked, and by the others hashed alike.
fn placed(
    query: &Query,
    props: &Props,
    left: KeyParts,
    dist: Dist,
    numbers: NumberSet,
    hashed: NumberSet,
) -> ModeSets
    requires { IsProps query.now props.now }
    ensures plain { (number : ℕ) → IsInSet result.plain number ↔
        (IsInSet numbers number × IsPlaced query.now left on_one dist) }
    ensures copied { (number : ℕ) → IsInSet result.copied number ↔
        (IsInSet numbers number × IsPlaced query.now left SameSpread dist) }
    ensures hashed { result.hashed ≡ hashed }
{
    match dist {
        Dist::One => tried(numbers, NumberSet::none(), hashed),
        Dist::Spread => tried(NumberSet::none(), numbers, hashed),
        Dist::Copies => tried(NumberSet::none(), NumberSet::none(), hashed),
        Dist::Hashed(list) => {
            let copied = if props.hash_fits(query, left, list) {
                numbers
            } else {
                NumberSet::none()
            };
            tried(NumberSet::none(), copied, hashed)
        }
    }
}

// Whether the order is empty, so that rows in no order are in it. Without a number it is.
fn wants_no_order(query: &Query, props: &Props, order: u32) -> bool
    requires { IsProps query.now props.now }
    ensures { IsTrue result ↔ BeginsWith [] (order_of query.now order) }
{
    !props.has_order(query, order) || props.order(order).is_empty()
}

// Whether a predicate equates columns across the groups, that of the left group giving the order.
fn merges(query: &Query, props: &Props, left: KeyParts, right: KeyParts, order: u32) -> bool
    requires { IsProps query.now props.now }
    ensures { IsTrue result ↔ Merges query.now left right order }
{
    !props.merging(query, left, right, order).is_empty()
}

// Whether a join over this left child can give the distribution: no copies, and a hash only by what lies in the child.
fn dist_suits(query: &Query, props: &Props, left: KeyParts, dist: Dist) -> bool
    requires { IsProps query.now props.now }
    ensures { IsTrue result ↔ DistSuits query.now left dist }
{
    match dist {
        Dist::One => true,
        Dist::Spread => true,
        Dist::Copies => false,
        Dist::Hashed(list) => props.hash_fits(query, left, list),
    }
}
