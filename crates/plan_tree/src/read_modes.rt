//! The modes in which a read of a table serves a request: those whose rows lie as asked, where they are in the order.
#![tactic(auto)]

ghost use Rattle.std.specs.Prelude.{ℕ, ◌↔◌, IsTrue};
ghost use Rattle.query_core.specs.declared.expressions.Children.TheVariants.{Zero};
ghost use Rattle.request_props.specs.NumberSets.{IsInSet};
ghost use Rattle.request_props.specs.Numbered.{IsProps, order_of};
ghost use Rattle.request_props.specs.Satisfied.{BeginsWith, given_order};
ghost use Rattle.plan_space.specs.Lines.{replica_dists, dists_of_table, table_line};
ghost use Rattle.plan_space.specs.Modes.{HasModeIn};
ghost use Rattle.plan_space.specs.declared.modes.Mode.{Mode};
ghost use Rattle.plan_tree.specs.ServingModes.{MeetsAt, ServesBy};

use crate::lines::is_replicated;
use crate::serving::order_begins;
use crate::walks::tried;
use plan_space::ModeSets;
use query_core::{KeyParts, Query, table_in};
use request_props::{Dist, GivenDist, GivenOrder, NumberSet, Props, Request, meets};

/// The modes in which the rows of the group's table, read in this order, are what is asked for.
pub fn read_modes(
    query: &Query,
    props: &Props,
    group: KeyParts,
    order: GivenOrder,
    wanted: Request,
) -> ModeSets
    requires { IsProps query.now props.now }
    ensures { (mode : Mode) → HasModeIn result mode ↔
        ServesBy query.now (table_line query.now group order mode) Zero wanted }
{
    if order_is_given(query, props, order, wanted.order) {
        let plain = reads_for(query, props, table_in(group), wanted.dist);
        let nothing = NumberSet::none();
        tried(plain, nothing, nothing)
    } else {
        ModeSets::none()
    }
}

/// Whether rows in the one order are in the other.
pub fn order_is_given(query: &Query, props: &Props, given: GivenOrder, wanted: u32) -> bool
    requires { IsProps query.now props.now }
    ensures { IsTrue result ↔ BeginsWith (given_order query.now given) (order_of query.now wanted) }
{
    !props.has_order(query, wanted) || order_begins(query, props, given, wanted)
}

// The numbers of the distributions of the table that are as asked.
fn reads_for(query: &Query, props: &Props, table: u32, dist: Dist) -> NumberSet
    requires { IsProps query.now props.now }
    ensures { (number : ℕ) → IsInSet result number ↔
        MeetsAt (dists_of_table query.now table) number dist }
{
    if is_replicated(query, table) {
        replicas_for(dist)
    } else if meets(props.table_dist(query, table), dist) {
        NumberSet::below(1)
    } else {
        NumberSet::none()
    }
}

// The same of a table all of whose rows lie on each segment.
fn replicas_for(dist: Dist) -> NumberSet
    ensures { (number : ℕ) → IsInSet result number ↔ MeetsAt replica_dists number dist }
{
    NumberSet::none()
        .with(0, meets(GivenDist::Random, dist))
        .with(1, meets(GivenDist::One, dist))
        .with(2, meets(GivenDist::Copies, dist))
}
