//! The modes in which what stands on one child serves a request: what passes rows on, and aggregations.
#![tactic(auto)]

ghost use Rattle.std.specs.Prelude.{ℕ, ◌≡◌, ◌<◌, ◌↔◌, IsTrue};
ghost use Rattle.query_core.specs.declared.expressions.Children.TheVariants.{One};
ghost use Rattle.query_core.specs.declared.words.KeyParts.{KeyParts as AnyKeyParts};
ghost use Rattle.request_props.specs.NumberSets.{IsInSet};
ghost use Rattle.request_props.specs.Numbered.{IsProps, is_grouped_list};
ghost use Rattle.request_props.specs.Satisfied.{Meets};
ghost use Rattle.request_props.specs.declared.given.GivenDist.TheVariants.{One as OnOne};
ghost use Rattle.plan_space.specs.Alternatives.{DistServes, LineServes};
ghost use Rattle.plan_space.specs.Lines.{agg_line, kept_line, single_line};
ghost use Rattle.plan_space.specs.Modes.{HasModeIn};
ghost use Rattle.plan_space.specs.declared.lines.LeftDist.TheVariants.{Grouped};
ghost use Rattle.plan_space.specs.declared.modes.Mode.{Mode};
ghost use Rattle.plan_tree.specs.ServingModes.{ServesBy};

use crate::read_modes::order_is_given;
use crate::serving::wants_spread;
use crate::walks::tried;
use plan_space::{Kept, ModeSets};
use query_core::Query;
use request_props::{Dist, GivenDist, GivenOrder, NumberSet, Props, Request, meets};

/// The modes in which what passes these rows on gives what is asked for.
pub fn kept_modes(query: &Query, props: &Props, kept: Kept, wanted: Request) -> ModeSets
    requires { IsProps query.now props.now }
    ensures { (child : AnyKeyParts) (mode : Mode) → HasModeIn result mode ↔
        ServesBy query.now (single_line (kept_line kept) mode) (One child) wanted }
{
    if kept_serves(query, props, kept, wanted) {
        let nothing = NumberSet::none();
        tried(NumberSet::below(1), nothing, nothing)
    } else {
        ModeSets::none()
    }
}

// Whether it does: all rows are as the child has them, and spread rows are in no order.
fn kept_serves(query: &Query, props: &Props, kept: Kept, wanted: Request) -> bool
    requires { IsProps query.now props.now }
    ensures { (child : AnyKeyParts) → IsTrue result ↔
        LineServes query.now (kept_line kept) (One child) wanted }
{
    match kept {
        Kept::Rows => true,
        Kept::SpreadRows => {
            wants_spread(wanted.dist)
                && order_is_given(query, props, GivenOrder::Listed(0), wanted.order)
        }
    }
}

/// The modes in which an aggregation that gives this order gives what is asked for: on one segment, or by each list
/// that is grouped and whose hash is as asked.
pub fn group_modes(query: &Query, props: &Props, order: u32, wanted: Request) -> ModeSets
    requires { IsProps query.now props.now }
    ensures { (child : AnyKeyParts) (mode : Mode) → HasModeIn result mode ↔
        ServesBy query.now (agg_line query.now order mode) (One child) wanted }
{
    if order_is_given(query, props, GivenOrder::Listed(order), wanted.order) {
        let plain = one_for(wanted.dist);
        let hashed = grouped_for(query, props, wanted.dist);
        tried(plain, NumberSet::none(), hashed)
    } else {
        ModeSets::none()
    }
}

// The first number, where rows on one segment are distributed as asked.
fn one_for(dist: Dist) -> NumberSet
    ensures { (number : ℕ) → IsInSet result number ↔ ((number < 1) × Meets OnOne dist) }
{
    if meets(GivenDist::One, dist) {
        NumberSet::below(1)
    } else {
        NumberSet::none()
    }
}

// The lists that are grouped and whose hash is as asked.
fn grouped_for(query: &Query, props: &Props, dist: Dist) -> NumberSet
    requires { IsProps query.now props.now }
    ensures { (list : ℕ) → IsInSet result list ↔ DistServes query.now (Grouped list) dist }
{
    match dist {
        Dist::One => NumberSet::none(),
        Dist::Spread => grouped_lists(query, props),
        Dist::Copies => NumberSet::none(),
        Dist::Hashed(list) => grouped_list(query, props, list),
    }
}

// The list, if it is grouped.
fn grouped_list(query: &Query, props: &Props, list: u32) -> NumberSet
    requires { IsProps query.now props.now }
    ensures { (other : ℕ) → IsInSet result other ↔
        (IsTrue (is_grouped_list query.now other) × (other ≡ list)) }
{
    if props.is_grouped_list(query, list) {
        NumberSet::none().with(list, true)
    } else {
        NumberSet::none()
    }
}

// The lists that are grouped.
fn grouped_lists(query: &Query, props: &Props) -> NumberSet
    requires { IsProps query.now props.now }
    ensures { (list : ℕ) → IsInSet result list ↔ IsTrue (is_grouped_list query.now list) }
{
    let mut lists = NumberSet::none();
    for list in 0..props.hashed.len() as u32 {
        lists = lists.with(list, props.is_grouped_list(query, list));
    }
    lists
}
