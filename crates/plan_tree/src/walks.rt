//! The modes of an expression, one after the other. No call here takes memory.
#![tactic(auto)]

ghost use Rattle.std.specs.Prelude.{ℕ, ◌≡◌, ◌<◌, ◌↔◌, length};
ghost use Rattle.query_core.specs.Expressions.{table_in as the_table_in};
ghost use Rattle.query_core.specs.declared.words.KeyParts.{KeyParts as AnyKeyParts};
ghost use Rattle.request_props.specs.NumberSets.{IsInSet};
ghost use Rattle.request_props.specs.Numbered.{IsProps, lists_of};
ghost use Rattle.plan_space.specs.Lines.{dists_of_table};
ghost use Rattle.plan_space.specs.Ways.{way_of as the_way_of};
ghost use Rattle.plan_space.specs.declared.ways.Way.TheVariants.{Joins};
ghost use Rattle.plan_tree.specs.Walks.{AreLined, AreModesOf, IsNextLine, IsNextOf};

use crate::lines::{line_of, read_count};
use plan_space::{JoinBy, Line, MODES_END, ModeSets, Way, modes_are_few, way_of};
use query_core::{KeyParts, PhysicalExpr, Query, table_in};
use request_props::{NumberSet, Props};

/// The first mode from this number on in which the expression works, with its line.
pub fn next_line(query: &Query, props: &Props, expr: PhysicalExpr, from: u32) -> Option<(u32, Line)>
    requires { IsProps query.now props.now }
    ensures { IsNextLine query.now expr from result }
{
    next_of(query, props, expr, modes_of(query, props, expr), from)
}

/// The first of these modes from this number on, with its line.
#[inline(always)]
pub fn next_of(
    query: &Query,
    props: &Props,
    expr: PhysicalExpr,
    modes: ModeSets,
    from: u32,
) -> Option<(u32, Line)>
    requires props { IsProps query.now props.now }
    requires lined { AreLined query.now expr modes }
    ensures { IsNextOf query.now expr modes from result }
{
    // For the proof: an expression has few modes.
    modes_are_few();
    let mode = modes.next(from);
    if mode < MODES_END {
        let line = line_of(query, props, expr, mode)?;
        Some((mode, line))
    } else {
        None
    }
}

// The modes in which the expression works.
fn modes_of(query: &Query, props: &Props, expr: PhysicalExpr) -> ModeSets
    requires { IsProps query.now props.now }
    ensures { AreModesOf query.now expr.group (the_way_of expr.operator) result }
{
    modes_by(query, props, expr.group, way_of(expr.operator))
}

// The same of a group's way of working.
fn modes_by(query: &Query, props: &Props, group: KeyParts, way: Way) -> ModeSets
    requires { IsProps query.now props.now }
    ensures { AreModesOf query.now group way result }
{
    let first = NumberSet::below(1);
    let nothing = NumberSet::none();
    match way {
        Way::Reads(_) => tried(reads_of(query, group), nothing, nothing),
        Way::Passes(_, _) => tried(first, nothing, nothing),
        Way::Joins(by, left, right) => modes_joining(query, props, by, left, right),
        Way::Groups(_, _) => tried(first, nothing, all_lists(query, props)),
    }
}

// Those of a join: the first of a kind, or those by the equalities across its groups.
fn modes_joining(
    query: &Query,
    props: &Props,
    by: JoinBy,
    left: KeyParts,
    right: KeyParts,
) -> ModeSets
    requires { IsProps query.now props.now }
    ensures { (group : AnyKeyParts) → AreModesOf query.now group (Joins by left right) result }
{
    let first = NumberSet::below(1);
    let crossings = props.crossings(query, left, right);
    match by {
        JoinBy::Hashing => tried(first, first, crossings),
        JoinBy::Merging => tried(crossings, crossings, crossings),
        JoinBy::Looping => tried(first, first, NumberSet::none()),
    }
}

// A number for each distribution in which the rows of the group's table are read.
fn reads_of(query: &Query, group: KeyParts) -> NumberSet
    ensures { (number : ℕ) → IsInSet result number ↔
        (number < length (dists_of_table query.now (the_table_in group))) }
{
    NumberSet::below(read_count(query, table_in(group)))
}

// The numbers of all hashed lists.
fn all_lists(query: &Query, props: &Props) -> NumberSet
    requires { IsProps query.now props.now }
    ensures { (list : ℕ) → IsInSet result list ↔ (list < length (lists_of query.now)) }
{
    NumberSet::below(props.hashed.len() as u32)
}

#[inline(always)]
pub fn tried(plain: NumberSet, copied: NumberSet, hashed: NumberSet) -> ModeSets
    ensures { result ≡ record { plain = plain; copied = copied; hashed = hashed } }
{
    ModeSets {
        plain,
        copied,
        hashed,
    }
}
