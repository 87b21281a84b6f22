//! A query of two tables, worked by hand.

ghost use Rattle.std.specs.Prelude.{IfOk, IsTrue};
ghost use Rattle.request_props.specs.Numbered.{IsProps};
ghost use Rattle.request_props.specs.Requests.{IsRequestInRange};
ghost use Rattle.request_props.specs.Satisfied.{IsOrderKnown};

use crate::made_tests::lent;
use query_core::*;
use request_props::*;
use std::alloc::Global;
use std::process::Abort;
use std::test::Fail;
use worked_queries::{cycle_of_four_predicates, implied, two_equalities};

// Two tables with two equalities, and what the query implies.
fn equated(alloc: Global) -> Result<(Box<Query>, Box<Props>), Fail>
    ensures { IfOk result (λ made. IsProps made.0.value made.1.value) }
{
    implied(alloc, two_equalities(alloc)?)
}

fn has_list(props: &Props, place: usize, list: &[u32]) -> bool {
    match props.hashed.as_slice().get(place) {
        Some(hashed) => hashed.as_slice() == list,
        None => false,
    }
}

// Whether the order at the place is by this column alone.
fn has_order(props: &Props, place: usize, item: u32, desc: bool) -> bool {
    match props.orders.as_slice().get(place) {
        Some(listed) => listed.as_slice() == [OrderKey { item, desc }].as_slice(),
        None => false,
    }
}

fn has_lists(props: &Props) -> bool {
    props.hashed.len() == 3
        && has_list(props, 0, &[0])
        && has_list(props, 1, &[2])
        && has_list(props, 2, &[0, 1])
}

fn has_orders(props: &Props) -> bool {
    props.orders.len() == 3
        && props.root.order == 2
        && has_order(props, 0, 0, false)
        && has_order(props, 1, 0, true)
        && has_order(props, 2, 2, false)
}

// Lists by their length and then by their elements, and orders by their elements.
#[test]
fn lists_and_orders_are_numbered(rt: HostRuntime) -> Result<(), Fail> {
    let (_query, props) = equated(rt.alloc())?;
    assert!(rt; has_lists(&props));
    assert!(rt; has_orders(&props));
    Ok(())
}

#[test]
fn what_is_collected_can_be_shared(rt: HostRuntime) -> Result<(), Fail> {
    let (_query, props) = equated(rt.alloc())?;
    assert!(rt; lent::<Props>(&props).orders.len() == 3);
    Ok(())
}

// Whether the first predicate crosses the second table and the filtered first one, and the second predicate doesn't.
fn has_its_crossings(query: &Query, props: &Props) -> bool
    requires { IsProps query.now props.now }
{
    let (second, first) = (KeyParts::Get(1), KeyParts::Filter(0));
    let sides = Some((side(2, 1, 3), side(0, 0, 1)));
    props.crossing(query, second, first, 0) == sides
        && props.crossing(query, second, first, 1).is_none()
}

// Whether it has these groups, and joins all pairs of 10 and 100 rows, of which a tenth and then a third is left.
fn has_its_groups(query: &Query, props: &Props) -> bool
    requires { IsProps query.now props.now }
{
    props.is_key(query, Key(1027))
        && !props.is_key(query, Key(17))
        && props.rows(query, query.root()) == 34
}

// Whether the first table is hashed by both its columns and the second one at random, and no rows are grouped.
fn has_its_dists(query: &Query, props: &Props) -> bool
    requires { IsProps query.now props.now }
{
    props.table_dist(query, 0) == GivenDist::Hashed(2)
        && props.table_dist(query, 1) == GivenDist::Random
        && !props.is_grouped_list(query, 0)
        && props.group_order(query) == 0
}

// Whether a request, a list and an order fit the groups that have their columns, and no others.
fn fit_groups(query: &Query, props: &Props) -> bool
    requires { IsProps query.now props.now }
{
    let wanted = Request {
        dist: Dist::Hashed(1),
        order: 3,
    };
    props.fits(query, KeyParts::Join(3), wanted)
        && !props.fits(query, KeyParts::Get(0), wanted)
        && props.hash_fits(query, KeyParts::Filter(0), 2)
        && !props.order_fits(query, KeyParts::Agg, 3)
}

#[test]
fn what_a_query_implies_is_looked_up(rt: HostRuntime) -> Result<(), Fail> {
    let (query, props) = equated(rt.alloc())?;
    assert!(rt; has_its_groups(&query, &props));
    assert!(rt; has_its_crossings(&query, &props));
    assert!(rt; has_its_dists(&query, &props));
    assert!(rt; fit_groups(&query, &props));
    Ok(())
}

fn has(numbers: NumberSet, number: u32) -> bool {
    numbers.next(number) == number
}

// Whether the set has just these of the first four numbers.
fn has_just(set: NumberSet, numbers: &[u32]) -> bool {
    for number in 0..4u32 {
        if has(set, number) != numbers.contains(&number) {
            return false;
        }
    }
    true
}

// Whether the first four predicates are those that cross the two groups where the set of all these has them.
fn crossings_agree(query: &Query, props: &Props, left: KeyParts, right: KeyParts) -> bool
    requires { IsProps query.now props.now }
{
    let crossings = props.crossings(query, left, right);
    for pred in 0..4u32 {
        let crosses = props.crossing(query, left, right, pred).is_some();
        if has(crossings, pred) != crosses {
            return false;
        }
    }
    true
}

// Asserts that merges of the two groups in this order are by these predicates.
fn assert_merging(
    rt: &impl Abort,
    query: &Query,
    props: &Props,
    left: KeyParts,
    right: KeyParts,
    order: u32,
    preds: &[u32],
)
    requires { IsProps query.now props.now }
{
    assert!(rt;
        crossings_agree(query, props, left, right)
            && has_just(props.merging(query, left, right, order), preds),
        "{left:?} {right:?} {order}"
    );
}

// Two groups, an order and the predicates. The order of a column has the number after the column's.
const MERGES: [(KeyParts, KeyParts, u32, &[u32]); 10] = [
    (KeyParts::Join(3), KeyParts::Get(2), 0, &[2, 3]),
    (KeyParts::Join(3), KeyParts::Get(2), 6, &[2]),
    (KeyParts::Join(3), KeyParts::Get(2), 3, &[3]),
    // A right column alone gives the first order, and a column of no such predicate the second.
    (KeyParts::Join(3), KeyParts::Get(2), 7, &[]),
    (KeyParts::Join(3), KeyParts::Get(2), 1, &[]),
    (KeyParts::Get(2), KeyParts::Join(3), 7, &[2]),
    (KeyParts::Get(2), KeyParts::Join(3), 6, &[]),
    (KeyParts::Get(0), KeyParts::Filter(1), 0, &[0, 1]),
    (KeyParts::Get(0), KeyParts::Filter(1), 2, &[1]),
    (KeyParts::Filter(1), KeyParts::Get(0), 5, &[1]),
];

#[test]
fn merges_are_by_a_left_column_that_gives_the_order(rt: HostRuntime) -> Result<(), Fail> {
    let (query, props) = implied(rt.alloc(), cycle_of_four_predicates(rt.alloc())?)?;
    for (left, right, order, preds) in &MERGES {
        assert_merging(&rt, &query, &props, *left, *right, *order, preds);
    }
    Ok(())
}

// Asserts that hash joins of the two groups for this distribution are by these predicates.
fn assert_hashing(
    rt: &impl Abort,
    query: &Query,
    props: &Props,
    left: KeyParts,
    right: KeyParts,
    wanted: Dist,
    preds: &[u32],
)
    requires { IsProps query.now props.now }
{
    let hashing = props.hashing(query, left, right, wanted);
    assert!(rt; has_just(hashing, preds), "{left:?} {right:?} {wanted:?}");
}

// Two groups, what is asked for and the predicates. The list of a column has the column's number.
const HASHES: [(KeyParts, KeyParts, Dist, &[u32]); 7] = [
    (KeyParts::Join(3), KeyParts::Get(2), Dist::Spread, &[2, 3]),
    (KeyParts::Join(3), KeyParts::Get(2), Dist::Hashed(5), &[2]),
    (KeyParts::Join(3), KeyParts::Get(2), Dist::Hashed(2), &[3]),
    // A right column alone is the list.
    (KeyParts::Join(3), KeyParts::Get(2), Dist::Hashed(6), &[]),
    (KeyParts::Get(2), KeyParts::Join(3), Dist::Hashed(6), &[2]),
    (KeyParts::Get(0), KeyParts::Filter(1), Dist::Hashed(1), &[1]),
    (KeyParts::Filter(1), KeyParts::Get(0), Dist::Hashed(4), &[1]),
];

#[test]
fn hashes_are_by_a_left_column_that_is_the_list(rt: HostRuntime) -> Result<(), Fail> {
    let (query, props) = implied(rt.alloc(), cycle_of_four_predicates(rt.alloc())?)?;
    for (left, right, wanted, preds) in &HASHES {
        assert_hashing(&rt, &query, &props, *left, *right, *wanted, preds);
    }
    Ok(())
}

fn side(column: u32, list: u32, order: u32) -> Side {
    Side {
        column,
        list,
        order,
    }
}

fn is_known(query: &Query, props: &Props, order: GivenOrder) -> bool
    requires { IsProps query.now props.now }
    ensures { IsTrue result → IsOrderKnown query.now order }
{
    match order {
        GivenOrder::Listed(number) => props.has_order(query, number),
        GivenOrder::Index(table, index) => query.has_index(table, index),
    }
}

fn answer(query: &Query, props: &Props, given: Given, request: Request) -> Option<bool>
    requires { IsProps query.now props.now }
{
    if is_known(query, props, given.order) && props.has_order(query, request.order) {
        Some(satisfies(query, props, given, request))
    } else {
        None
    }
}

// Where rows lie, in which order, what is asked for, and whether it is met.
const ROWS: [(GivenDist, GivenOrder, Dist, u32, bool); 12] = [
    (GivenDist::One, GivenOrder::Listed(2), Dist::One, 2, true),
    (GivenDist::One, GivenOrder::Listed(2), Dist::One, 0, true),
    (GivenDist::One, GivenOrder::Listed(0), Dist::One, 2, false),
    (GivenDist::One, GivenOrder::Index(0, 0), Dist::One, 1, true),
    (GivenDist::One, GivenOrder::Index(0, 0), Dist::One, 2, false),
    (
        GivenDist::Copies,
        GivenOrder::Listed(0),
        Dist::One,
        0,
        false,
    ),
    (
        GivenDist::Copies,
        GivenOrder::Listed(0),
        Dist::Copies,
        0,
        true,
    ),
    (
        GivenDist::Random,
        GivenOrder::Listed(0),
        Dist::Spread,
        0,
        true,
    ),
    (
        GivenDist::Random,
        GivenOrder::Listed(0),
        Dist::Hashed(0),
        0,
        false,
    ),
    (
        GivenDist::Hashed(2),
        GivenOrder::Listed(0),
        Dist::Spread,
        0,
        true,
    ),
    (
        GivenDist::Hashed(2),
        GivenOrder::Listed(0),
        Dist::Hashed(2),
        0,
        true,
    ),
    (
        GivenDist::Hashed(1),
        GivenOrder::Listed(0),
        Dist::Hashed(0),
        0,
        false,
    ),
];

fn assert_answer(
    rt: &impl Abort,
    query: &Query,
    props: &Props,
    given: Given,
    request: Request,
    met: bool,
)
    requires { IsProps query.now props.now }
{
    assert!(rt;
        answer(query, props, given, request) == Some(met),
        "{given:?} {request:?}"
    );
}

#[test]
fn requests_are_met_as_by_hand(rt: HostRuntime) -> Result<(), Fail> {
    let (query, props) = equated(rt.alloc())?;
    for (given_dist, given_order, dist, order, met) in &ROWS {
        let given = Given {
            dist: *given_dist,
            order: *given_order,
        };
        let request = Request {
            dist: *dist,
            order: *order,
        };
        assert_answer(&rt, &query, &props, given, request, *met);
    }
    Ok(())
}

fn has_code(request: Request, number: u32) -> bool
    requires { IsRequestInRange request }
{
    code(request) == number && request_of(number) == Some(request)
}

#[test]
fn requests_have_codes(rt: HostRuntime) {
    let dist = Dist::Hashed(3);
    assert!(rt; has_code(Request { dist, order: 2 }, 386));
    let dist = Dist::Hashed(59);
    assert!(rt; has_code(Request { dist, order: 60 }, 4028));
    assert!(rt; request_of(61).is_none() && request_of(4032).is_none());
}
