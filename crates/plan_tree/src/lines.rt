//! The line of an expression in a mode. No call here takes memory.
#![tactic(auto)]

ghost use Rattle.std.specs.Prelude.{ℕ, ◌≡◌, slice_get, length};
ghost use Rattle.request_props.specs.Numbered.{IsProps, side_of};
ghost use Rattle.plan_space.specs.Lines.{line_of as the_line_of, table_line as the_table_line};
ghost use Rattle.plan_space.specs.Lines.{way_line as the_way_line, order_read as the_order_read};
ghost use Rattle.plan_space.specs.Lines.{kept_line as the_kept_line, grouped_order as the_grouped_order};
ghost use Rattle.plan_space.specs.Lines.{join_line as the_join_line};
ghost use Rattle.plan_space.specs.Lines.{hash_line as the_hash_line, merge_line as the_merge_line};
ghost use Rattle.plan_space.specs.Lines.{loop_line as the_loop_line, agg_line as the_agg_line};
ghost use Rattle.plan_space.specs.Lines.{hash_colocated as the_hash_colocated, merge_with as the_merge_with};
ghost use Rattle.plan_space.specs.Lines.{only_line as the_only_line, single_line as the_single_line};
ghost use Rattle.plan_space.specs.Lines.{merge_colocated as the_merge_colocated};
ghost use Rattle.plan_space.specs.Lines.{on_one, on_hashed, in_order};
ghost use Rattle.plan_space.specs.Lines.{is_replicated as the_is_replicated, replica_dists, dists_of_table};

use plan_space::{GroupBy, JoinBy, Kept, LeftDist, LeftOrder, Line, Mode, Way, way_of};
use query_core::{Access, KeyParts, PhysicalExpr, Query, table_in};
use request_props::{Dist, GivenDist, GivenOrder, Props, Request, Side};

/// The line of an expression in the mode of a number, if it has the mode.
#[inline(always)]
pub fn line_of(query: &Query, props: &Props, expr: PhysicalExpr, mode: u32) -> Option<Line>
    requires { IsProps query.now props.now }
    ensures { result ≡ the_line_of query.now expr mode }
{
    line_by(
        query,
        props,
        expr.group,
        way_of(expr.operator),
        Mode::at(mode),
    )
}

// The line of a group's way of working in a mode, if it has the mode.
#[inline(always)]
fn line_by(query: &Query, props: &Props, group: KeyParts, way: Way, mode: Mode) -> Option<Line>
    requires { IsProps query.now props.now }
    ensures { result ≡ the_way_line query.now group way mode }
{
    match way {
        Way::Reads(access) => table_line(query, props, group, order_read(group, access), mode),
        Way::Passes(kept, _) => single_line(kept_line(kept), mode),
        Way::Joins(by, left, right) => join_line(query, props, by, left, right, mode),
        Way::Groups(by, _) => agg_line(query, props, grouped_order(query, props, by), mode),
    }
}

/// In no order, or in that of the index of this number of the group's table.
pub fn order_read(group: KeyParts, access: Access) -> GivenOrder
    ensures { result ≡ the_order_read group access }
{
    match access {
        Access::Direct => GivenOrder::Listed(0),
        Access::Index(index) => GivenOrder::Index(table_in(group), index),
    }
}

// All rows where they lie and in their order, or rows that are shared out, in no order.
fn kept_line(kept: Kept) -> Line
    ensures { result ≡ the_kept_line kept }
{
    match kept {
        Kept::Rows => Line::Above(LeftDist::Same, LeftOrder::Same),
        Kept::SpreadRows => Line::Above(LeftDist::SameSpread, left_in_order(0)),
    }
}

// The line of a join over these children.
#[inline(always)]
fn join_line(
    query: &Query,
    props: &Props,
    by: JoinBy,
    left: KeyParts,
    right: KeyParts,
    mode: Mode,
) -> Option<Line>
    requires { IsProps query.now props.now }
    ensures { result ≡ the_join_line query.now by left right mode }
{
    match by {
        JoinBy::Hashing => hash_line(query, props, left, right, mode),
        JoinBy::Merging => merge_line(query, props, left, right, mode),
        JoinBy::Looping => loop_line(mode),
    }
}

/// The order in which rows are grouped.
pub fn grouped_order(query: &Query, props: &Props, by: GroupBy) -> u32
    requires { IsProps query.now props.now }
    ensures { result ≡ the_grouped_order query.now by }
{
    match by {
        GroupBy::Hashing => 0,
        GroupBy::Ordered => props.group_order(query),
    }
}

// A line where the number is 0.
#[inline(always)]
fn only_line(line: Line, number: u32) -> Option<Line>
    ensures { result ≡ the_only_line line number }
{
    if number == 0 { Some(line) } else { None }
}

// One line, in one mode.
#[inline(always)]
fn single_line(line: Line, mode: Mode) -> Option<Line>
    ensures { result ≡ the_single_line line mode }
{
    match mode {
        Mode::Plain(number) => only_line(line, number),
        Mode::Copied(_) => None,
        Mode::Hashed(_) => None,
    }
}

/// Whether all rows of the table lie on each segment.
pub fn is_replicated(query: &Query, table: u32) -> bool
    ensures { result ≡ the_is_replicated query.now table }
{
    match query.tables.as_slice().get(table as usize) {
        Some(found) => found.replicated,
        None => false,
    }
}

/// In how many distributions the rows of the table are read.
pub fn read_count(query: &Query, table: u32) -> u32
    ensures { result ≡ length (dists_of_table query.now table) }
{
    if is_replicated(query, table) { 3 } else { 1 }
}

// The distribution in which the rows of the table are read in the mode of this number, if they are.
fn read_dist(query: &Query, props: &Props, table: u32, number: u32) -> Option<GivenDist>
    requires { IsProps query.now props.now }
    ensures { result ≡ slice_get (dists_of_table query.now table) number }
{
    if is_replicated(query, table) {
        replica_dist(number)
    } else if number == 0 {
        Some(props.table_dist(query, table))
    } else {
        None
    }
}

// On each segment a share of its own, all rows at one place, or all rows on each segment.
fn replica_dist(number: u32) -> Option<GivenDist>
    ensures { result ≡ slice_get replica_dists number }
{
    match number {
        0 => Some(GivenDist::Random),
        1 => Some(GivenDist::One),
        2 => Some(GivenDist::Copies),
        _ => None,
    }
}

// The rows of a group's table in this order: a line for each distribution in which they are
// read.
fn table_line(
    query: &Query,
    props: &Props,
    group: KeyParts,
    order: GivenOrder,
    mode: Mode,
) -> Option<Line>
    requires { IsProps query.now props.now }
    ensures { result ≡ the_table_line query.now group order mode }
{
    match mode {
        Mode::Plain(number) => {
            let dist = read_dist(query, props, table_in(group), number)?;
            Some(Line::Leaf(dist, order))
        }
        Mode::Copied(_) => None,
        Mode::Hashed(_) => None,
    }
}

// An aggregation that gives this order, over a child in the same order: on one segment, or for
// each list over rows that are hashed by it.
fn agg_line(query: &Query, props: &Props, order: u32, mode: Mode) -> Option<Line>
    requires { IsProps query.now props.now }
    ensures { result ≡ the_agg_line query.now order mode }
{
    match mode {
        Mode::Plain(number) => only_line(Line::Above(left_on_one(), left_in_order(order)), number),
        Mode::Copied(_) => None,
        Mode::Hashed(list) => {
            if props.has_list(query, list) {
                Some(Line::Above(LeftDist::Grouped(list), left_in_order(order)))
            } else {
                None
            }
        }
    }
}

// A hash join: on one segment, with copies of the right side, or for each crossing equality of
// rows hashed alike.
fn hash_line(
    query: &Query,
    props: &Props,
    left: KeyParts,
    right: KeyParts,
    mode: Mode,
) -> Option<Line>
    requires { IsProps query.now props.now }
    ensures { result ≡ the_hash_line query.now left right mode }
{
    match mode {
        Mode::Plain(number) => {
            let line = Line::Beside(left_on_one(), left_in_order(0), unordered(Dist::One));
            only_line(line, number)
        }
        Mode::Copied(number) => {
            let asked = unordered(Dist::Copies);
            only_line(
                Line::Beside(LeftDist::SameSpread, left_in_order(0), asked),
                number,
            )
        }
        Mode::Hashed(number) => {
            let sides = props.crossing(query, left, right, number)?;
            Some(hash_colocated(query, sides.0, sides.1))
        }
    }
}

// A hash join of rows that are hashed alike on the two sides of an equality.
#[inline(always)]
fn hash_colocated(query: &Query, left: Side, right: Side) -> Line
    ensures { (a b : ℕ) → left ≡ side_of query.now a → right ≡ side_of query.now b →
        result ≡ the_hash_colocated query.now (a, b) }
{
    Line::Beside(
        left_on_hashed(left.list),
        left_in_order(0),
        unordered(Dist::Hashed(right.list)),
    )
}

// A merge join for each crossing equality: on one segment, with copies of the right side, or of
// rows hashed alike.
fn merge_line(
    query: &Query,
    props: &Props,
    left: KeyParts,
    right: KeyParts,
    mode: Mode,
) -> Option<Line>
    requires { IsProps query.now props.now }
    ensures { result ≡ the_merge_line query.now left right mode }
{
    match mode {
        Mode::Plain(number) => {
            let sides = props.crossing(query, left, right, number)?;
            Some(merge_with(query, left_on_one(), Dist::One, sides.0, sides.1))
        }
        Mode::Copied(number) => {
            let sides = props.crossing(query, left, right, number)?;
            Some(merge_with(query, LeftDist::SameSpread, Dist::Copies, sides.0, sides.1))
        }
        Mode::Hashed(number) => {
            let sides = props.crossing(query, left, right, number)?;
            Some(merge_colocated(query, sides.0, sides.1))
        }
    }
}

// A merge join of rows in the order of the two sides of an equality.
#[inline(always)]
fn merge_with(query: &Query, dist: LeftDist, asked: Dist, left: Side, right: Side) -> Line
    ensures { (a b : ℕ) → left ≡ side_of query.now a → right ≡ side_of query.now b →
        result ≡ the_merge_with query.now dist asked (a, b) }
{
    let needed = Request {
        dist: asked,
        order: right.order,
    };
    Line::Beside(dist, left_in_order(left.order), needed)
}

// And that are hashed alike on them.
#[inline(always)]
fn merge_colocated(query: &Query, left: Side, right: Side) -> Line
    ensures { (a b : ℕ) → left ≡ side_of query.now a → right ≡ side_of query.now b →
        result ≡ the_merge_colocated query.now (a, b) }
{
    merge_with(
        query,
        left_on_hashed(left.list),
        Dist::Hashed(right.list),
        left,
        right,
    )
}

// A loop join: on one segment, or with copies of the right side; it keeps the left child's order.
fn loop_line(mode: Mode) -> Option<Line>
    ensures { result ≡ the_loop_line mode }
{
    match mode {
        Mode::Plain(number) => {
            let line = Line::Beside(left_on_one(), LeftOrder::Same, unordered(Dist::One));
            only_line(line, number)
        }
        Mode::Copied(number) => {
            let asked = unordered(Dist::Copies);
            only_line(
                Line::Beside(LeftDist::SameSpread, LeftOrder::Same, asked),
                number,
            )
        }
        Mode::Hashed(_) => None,
    }
}

// All rows on one segment, over a left child that is so.
#[inline(always)]
fn left_on_one() -> LeftDist
    ensures { result ≡ on_one }
{
    LeftDist::Fixed(GivenDist::One, Dist::One)
}

// Rows by the hash of the list, over a left child that is so.
#[inline(always)]
fn left_on_hashed(list: u32) -> LeftDist
    ensures { result ≡ on_hashed list }
{
    LeftDist::Fixed(GivenDist::Hashed(list), Dist::Hashed(list))
}

// An order that is given, over a left child in the same order.
#[inline(always)]
fn left_in_order(order: u32) -> LeftOrder
    ensures { result ≡ in_order order }
{
    LeftOrder::Fixed(GivenOrder::Listed(order), order)
}

#[inline(always)]
fn unordered(dist: Dist) -> Request
    ensures { result ≡ record { dist = dist; order = 0 } }
{
    Request { dist, order: 0 }
}
