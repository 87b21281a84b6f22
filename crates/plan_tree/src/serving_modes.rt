//! The modes in which an expression may serve a request, one after the other, and whether there are any. The way in
//! which the operator works tells them with the request: no line is looked at to find them.
#![tactic(auto)]

ghost use Rattle.std.specs.Prelude.{◌↔◌, IfSome, IsTrue};
ghost use Rattle.query_core.specs.Expressions.{expr_of, IsCandidate};
ghost use Rattle.request_props.specs.JoinSets.{AreSetsOf};
ghost use Rattle.request_props.specs.Numbered.{IsProps, IsNumbered};
ghost use Rattle.plan_tree.specs.ServingModes.{AreToTry, IsNextServing, MayServe};

use crate::child_modes::{group_modes, kept_modes};
use crate::join_modes::{join_may_serve, join_modes};
use crate::lines::{grouped_order, order_read};
use crate::read_modes::read_modes;
use crate::walks::next_of;
use plan_space::{Line, MODES_END, ModeSets, Way, modes_are_few, way_of, what_is_asked_fits};
use query_core::{PhysicalExpr, Query};
use request_props::{JoinSets, Props, Request};

/// Whether the expression may serve the request in some mode.
pub fn may_serve(query: &Query, props: &Props, expr: &PhysicalExpr, wanted: Request) -> bool
    requires props { IsProps query.now props.now }
    requires candidate { IsCandidate query.now (expr_of expr.now) }
    requires numbered { IsNumbered query.now wanted.order }
    ensures { IsTrue result ↔ MayServe query.now expr.now wanted }
{
    // For the proof: the columns of a join have lists and orders that fit its left child.
    what_is_asked_fits();
    match way_of(expr.operator) {
        Way::Reads(_) => serves_in_some(query, props, *expr, wanted),
        Way::Passes(_, _) => serves_in_some(query, props, *expr, wanted),
        Way::Joins(by, left, right) => join_may_serve(query, props, by, left, right, wanted),
        Way::Groups(_, _) => serves_in_some(query, props, *expr, wanted),
    }
}

/// The same, by what the expression can give as a join, where that was found before.
#[inline(always)]
pub fn may_serve_by(
    query: &Query,
    props: &Props,
    expr: &PhysicalExpr,
    sets: Option<JoinSets>,
    wanted: Request,
) -> bool
    requires props { IsProps query.now props.now }
    requires candidate { IsCandidate query.now (expr_of expr.now) }
    requires sets { IfSome sets (AreSetsOf query.now expr.now.operator) }
    requires numbered { IsNumbered query.now wanted.order }
    ensures { IsTrue result ↔ MayServe query.now expr.now wanted }
{
    // For the proof: the columns of a join have lists and orders that fit its left child.
    what_is_asked_fits();
    match sets {
        Some(sets) => sets.allow(wanted),
        None => may_serve(query, props, expr, wanted),
    }
}

// Whether there is a mode in which it may.
fn serves_in_some(query: &Query, props: &Props, expr: PhysicalExpr, wanted: Request) -> bool
    requires props { IsProps query.now props.now }
    requires candidate { IsCandidate query.now (expr_of expr) }
    ensures { IsTrue result ↔ MayServe query.now expr wanted }
{
    // For the proof: an expression has few modes.
    modes_are_few();
    modes_to_try(query, props, expr, wanted).next(0) < MODES_END
}

/// The modes in which the expression may serve the request: all of them, and no others where a group can hold it.
pub fn modes_to_try(query: &Query, props: &Props, expr: PhysicalExpr, wanted: Request) -> ModeSets
    requires { IsProps query.now props.now }
    ensures { AreToTry query.now expr wanted result }
{
    // For the proof: the columns of a join have lists and orders that fit its left child.
    what_is_asked_fits();
    match way_of(expr.operator) {
        Way::Reads(access) => {
            read_modes(
                query,
                props,
                expr.group,
                order_read(expr.group, access),
                wanted,
            )
        }
        Way::Passes(kept, _) => kept_modes(query, props, kept, wanted),
        Way::Joins(by, left, right) => join_modes(query, props, by, left, right, wanted),
        Way::Groups(by, _) => { group_modes(query, props, grouped_order(query, props, by), wanted) }
    }
}

/// The first of these modes from this number on, with its line. In each of them the expression serves the request.
#[inline(always)]
pub fn next_alternative(
    query: &Query,
    props: &Props,
    expr: PhysicalExpr,
    wanted: Request,
    modes: ModeSets,
    from: u32,
) -> Option<(u32, Line)>
    requires props { IsProps query.now props.now }
    requires candidate { IsCandidate query.now (expr_of expr) }
    requires numbered { IsNumbered query.now wanted.order }
    requires modes { AreToTry query.now expr wanted modes }
    ensures { IsNextServing query.now expr wanted from result }
{
    next_of(query, props, expr, modes, from)
}
