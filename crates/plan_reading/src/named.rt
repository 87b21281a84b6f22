//! Nodes as their lines name them.
#![tactic(auto)]

ghost use Rattle.std.specs.Prelude.{◌≡◌, ◌↔◌, ◌<◌, IsTrue, length};
ghost use Rattle.request_props.specs.Numbered.{IsProps};
ghost use Rattle.plan_space.specs.Lines.{dists_of_table};
ghost use Rattle.plan_reading.specs.Operators.{AreFirst};
ghost use Rattle.plan_reading.specs.Named.{named_of, HasForm, IsOperatorOf};
ghost use Rattle.plan_reading.specs.Named.{HasTable, HasPlace, IsPassed, HasModeForm, HasJoinForm};
ghost use Rattle.plan_reading.specs.Named.{HasOnlyForm, HasReadForm, HasHashForm, HasMergeForm};
ghost use Rattle.plan_reading.specs.Named.{HasLoopForm, HasAggForm};

use crate::operators::unplaced;
use plan_check::is_enforcer_of;
use plan_space::{Enforcer, JoinBy, Kept, Mode, NodeKind, Way, way_of};
use plan_tree::is_replicated;
use query_core::{Access, Children, KeyParts, Operator, Physical, Query, table_in};
use request_props::Props;

/// A node as its line names it: an operator in a mode, with the table whose rows it makes, or an
/// enforcer. Of which group it is isn't said.
#[derive(Clone, Copy, PartialEq, Eq)]
pub enum Named {
    /// The groups that the operator stands on count as the first table. The table is 0 for an
    /// operator that makes no table's rows.
    Native(Physical, u32, Mode),
    Enforcer(Enforcer),
}

impl Named {
    /// How its line names a node.
    pub fn of(kind: NodeKind) -> Named
        ensures { result ≡ named_of kind }
    {
        match kind {
            NodeKind::Native(expr, mode) => Named::Native(
                unplaced(expr.operator),
                table_in(expr.group),
                Mode::at(mode),
            ),
            NodeKind::Enforcer(enforcer) => Named::Enforcer(enforcer),
        }
    }
}

// ---- the nodes that a query can name

/// Whether its tables, indexes, predicates, orders and lists are the query's.
pub fn has_form(query: &Query, props: &Props, node: Named) -> bool
    requires { IsProps query.now props.now }
    ensures { IsTrue result ↔ HasForm query.now node }
{
    match node {
        Named::Native(operator, table, mode) => {
            is_operator_of(query, props, operator, table, mode)
        }
        Named::Enforcer(enforcer) => is_enforcer_of(query, props, enforcer),
    }
}

fn is_operator_of(query: &Query, props: &Props, operator: Physical, table: u32, mode: Mode) -> bool
    requires { IsProps query.now props.now }
    ensures { IsTrue result ↔ IsOperatorOf query.now operator table mode }
{
    let way = way_of(operator);
    are_first(Operator::Physical(operator).children())
        && has_table(query, way, table)
        && has_mode_form(query, props, way, table, mode)
}

// Whether the groups count as the first table.
fn are_first(children: Children) -> bool
    ensures { IsTrue result ↔ AreFirst children }
{
    let first = KeyParts::Get(0);
    match children {
        Children::Zero => true,
        Children::One(child) => child == first,
        Children::Two(left, right) => left == first && right == first,
    }
}

// ---- its table

fn has_table(query: &Query, way: Way, table: u32) -> bool
    ensures { IsTrue result ↔ HasTable query.now way table }
{
    match way {
        Way::Reads(access) => has_place(query, table, access),
        Way::Passes(kept, _) => is_passed(query, table, kept),
        Way::Joins(_, _, _) => table == 0,
        Way::Groups(_, _) => table == 0,
    }
}

fn has_place(query: &Query, table: u32, access: Access) -> bool
    ensures { IsTrue result ↔ HasPlace query.now table access }
{
    match access {
        Access::Direct => is_table(query, table),
        Access::Index(index) => query.has_index(table, index),
    }
}

fn is_passed(query: &Query, table: u32, kept: Kept) -> bool
    ensures { IsTrue result ↔ IsPassed query.now table kept }
{
    match kept {
        Kept::Rows => is_table(query, table),
        Kept::SpreadRows => table == 0,
    }
}

fn is_table(query: &Query, table: u32) -> bool
    ensures { IsTrue result ↔ (table < length query.now.tables) }
{
    (table as usize) < query.tables.len()
}

// ---- its mode

fn has_mode_form(query: &Query, props: &Props, way: Way, table: u32, mode: Mode) -> bool
    requires { IsProps query.now props.now }
    ensures { IsTrue result ↔ HasModeForm query.now way table mode }
{
    match way {
        Way::Reads(_) => has_read_form(query, table, mode),
        Way::Passes(_, _) => has_only_form(mode),
        Way::Joins(by, _, _) => has_join_form(query, by, mode),
        Way::Groups(_, _) => has_agg_form(query, props, mode),
    }
}

fn has_join_form(query: &Query, by: JoinBy, mode: Mode) -> bool
    ensures { IsTrue result ↔ HasJoinForm query.now by mode }
{
    match by {
        JoinBy::Hashing => has_hash_form(query, mode),
        JoinBy::Merging => has_merge_form(query, mode),
        JoinBy::Looping => has_loop_form(mode),
    }
}

fn has_predicate(query: &Query, number: u32) -> bool
    ensures { IsTrue result ↔ (number < length query.now.preds) }
{
    (number as usize) < query.preds.len()
}

fn has_only_form(mode: Mode) -> bool
    ensures { IsTrue result ↔ HasOnlyForm mode }
{
    match mode {
        Mode::Plain(number) => number == 0,
        Mode::Copied(_) => false,
        Mode::Hashed(_) => false,
    }
}

fn has_read_form(query: &Query, table: u32, mode: Mode) -> bool
    ensures { IsTrue result ↔ HasReadForm query.now table mode }
{
    match mode {
        Mode::Plain(number) => is_read(query, table, number),
        Mode::Copied(_) => false,
        Mode::Hashed(_) => false,
    }
}

// Where each segment has all rows of a table, these are read in three ways.
fn is_read(query: &Query, table: u32, number: u32) -> bool
    ensures { IsTrue result ↔ (number < length (dists_of_table query.now table)) }
{
    if is_replicated(query, table) {
        number < 3
    } else {
        number == 0
    }
}

fn has_hash_form(query: &Query, mode: Mode) -> bool
    ensures { IsTrue result ↔ HasHashForm query.now mode }
{
    match mode {
        Mode::Plain(number) => number == 0,
        Mode::Copied(number) => number == 0,
        Mode::Hashed(number) => has_predicate(query, number),
    }
}

fn has_merge_form(query: &Query, mode: Mode) -> bool
    ensures { IsTrue result ↔ HasMergeForm query.now mode }
{
    match mode {
        Mode::Plain(number) => has_predicate(query, number),
        Mode::Copied(number) => has_predicate(query, number),
        Mode::Hashed(number) => has_predicate(query, number),
    }
}

fn has_loop_form(mode: Mode) -> bool
    ensures { IsTrue result ↔ HasLoopForm mode }
{
    match mode {
        Mode::Plain(number) => number == 0,
        Mode::Copied(number) => number == 0,
        Mode::Hashed(_) => false,
    }
}

fn has_agg_form(query: &Query, props: &Props, mode: Mode) -> bool
    requires { IsProps query.now props.now }
    ensures { IsTrue result ↔ HasAggForm query.now mode }
{
    match mode {
        Mode::Plain(number) => number == 0,
        Mode::Copied(_) => false,
        Mode::Hashed(list) => props.has_list(query, list),
    }
}
