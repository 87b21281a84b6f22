//! A grouped query over one table with an index, worked by hand.

ghost use Rattle.std.specs.Prelude.{IfOk, IfSome};
ghost use Rattle.query_core.specs.Expressions.{IsCandidate, expr_of};
ghost use Rattle.request_props.specs.Numbered.{IsProps};

use crate::node_tests::{ask, made, origin, step};
use plan_tree::*;
use query_core::*;
use request_props::{Dist, Props, Request};
use std::alloc::Global;
use std::process::Abort;
use std::test::Fail;
use worked_queries::{implied, per_group};
use xform_rules::Rule;

const TABLE: u32 = 0;

const FILTERED: u32 = 16;

const PARTIAL: u32 = 2048;

const AGG: u32 = 2049;

// The hashed lists are (a) and (b, c), and the orders are that of ORDER BY and (b, c).
const BY_A: u32 = 0;

const BY_B_C: u32 = 1;

const WANTED: u32 = 1;

const GROUPS: u32 = 2;

// The rows of each group by b and c, in the order of one of these, and what the query implies.
fn counted(alloc: Global, ordered_by: &str) -> Result<(Box<Query>, Box<Props>), Fail>
    ensures { IfOk result (λ made. IsProps made.0.value made.1.value) }
{
    implied(alloc, per_group(alloc, ordered_by)?)
}

fn first_of(query: &Query, key: u32) -> Option<ExprParts>
    ensures { IfSome result (IsCandidate query.now) }
{
    if query.is_key(Key(key)) {
        Some(origin(query, query.group(Key(key))))
    } else {
        None
    }
}

// The aggregation by this rule, of the rows or of partial groups.
fn aggregation(query: &Query, rule: Rule, of_partial: bool) -> Option<PhysicalExpr>
    ensures { IfSome result (λ made. IsCandidate query.now (expr_of made)) }
{
    let whole = first_of(query, AGG)?;
    if of_partial {
        let split = step(query, Rule::SplitAgg, whole)?;
        made(query, rule, split)
    } else {
        made(query, rule, whole)
    }
}

// What the expression asks of its child in the mode, if it has one and may serve the request, and
// what it costs.
fn serving(
    query: &Query,
    props: &Props,
    e: PhysicalExpr,
    request: Request,
    mode: u32,
) -> Option<(Option<Request>, u64)>
    requires props { IsProps query.now props.now }
    requires candidate { IsCandidate query.now (expr_of e) }
{
    if mode >= 256 || !props.has_order(query, request.order) {
        return None;
    }
    let alt = alternative_in(query, props, e, request, mode)?;
    let asked = match alt.left {
        Some((_, asked)) => Some(asked),
        None => None,
    };
    Some((asked, native_cost(query, props, e, mode, request)))
}

fn aggregation_serving(
    query: &Query,
    props: &Props,
    rule: Rule,
    of_partial: bool,
    request: Request,
    mode: u32,
) -> Option<(Option<Request>, u64)>
    requires { IsProps query.now props.now }
{
    let aggregated = aggregation(query, rule, of_partial)?;
    serving(query, props, aggregated, request, mode)
}

// The expression that the rule makes of the first one of the group.
fn made_serving(
    query: &Query,
    props: &Props,
    key: u32,
    rule: Rule,
    request: Request,
) -> Option<(Option<Request>, u64)>
    requires { IsProps query.now props.now }
{
    let expr = made(query, rule, first_of(query, key)?)?;
    serving(query, props, expr, request, 0)
}

// The distribution by the hash of the GROUP BY columns.
const HASHED: Dist = Dist::Hashed(BY_B_C);

// A distribution, an order and a mode; and what is then asked for, and the costs over rows and partial groups.
const HASH_AGGREGATIONS: [(Dist, u32, u32, Option<(Dist, u32, u64, u64)>); 10] = [
    // On one segment, and by the hash of the GROUP BY columns.
    (Dist::One, 0, 0, Some((Dist::One, 0, 709, 361))),
    (Dist::Spread, 0, 129, Some((HASHED, 0, 179, 91))),
    (HASHED, 0, 129, Some((HASHED, 0, 179, 91))),
    // Not for another distribution, and in no order.
    (Dist::Spread, 0, 0, None),
    (Dist::One, 0, 129, None),
    (Dist::Copies, 0, 0, None),
    (Dist::One, WANTED, 0, None),
    // Not by a list that isn't in GROUP BY, or that isn't there.
    (Dist::Spread, 0, 128, None),
    (Dist::Spread, 0, 130, None),
    (Dist::Spread, 0, 64, None),
];

// Over rows in the order of GROUP BY, and for each order with which that begins.
const STREAM_AGGREGATIONS: [(Dist, u32, u32, Option<(Dist, u32, u64, u64)>); 6] = [
    (Dist::One, 0, 0, Some((Dist::One, GROUPS, 335, 161))),
    (Dist::One, WANTED, 0, Some((Dist::One, GROUPS, 335, 161))),
    (Dist::One, GROUPS, 0, Some((Dist::One, GROUPS, 335, 161))),
    (Dist::Spread, GROUPS, 129, Some((HASHED, GROUPS, 85, 41))),
    (HASHED, WANTED, 129, Some((HASHED, GROUPS, 85, 41))),
    (Dist::Spread, GROUPS, 128, None),
];

// Asserts that the aggregation by the rule asks so of its child, and costs so much over rows and over partial groups.
fn assert_aggregated(
    rt: &impl Abort,
    query: &Query,
    props: &Props,
    rule: Rule,
    request: Request,
    mode: u32,
    wanted: Option<(Dist, u32, u64, u64)>,
)
    requires { IsProps query.now props.now }
{
    let of_rows = aggregation_serving(query, props, rule, false, request, mode);
    let of_partial = aggregation_serving(query, props, rule, true, request, mode);
    let is_so = match wanted {
        Some((dist, order, cost, partial_cost)) => {
            let asked = Some(ask(dist, order));
            of_rows == Some((asked, cost)) && of_partial == Some((asked, partial_cost))
        }
        None => of_rows.is_none() && of_partial.is_none(),
    };
    assert!(rt; is_so, "{rule:?} {request:?} {mode}");
}

fn assert_aggregations(
    rt: &impl Abort,
    query: &Query,
    props: &Props,
    rule: Rule,
    rows: &[(Dist, u32, u32, Option<(Dist, u32, u64, u64)>)],
)
    requires { IsProps query.now props.now }
{
    for (dist, order, mode, wanted) in rows {
        let request = ask(*dist, *order);
        assert_aggregated(rt, query, props, rule, request, *mode, *wanted);
    }
}

#[test]
fn aggregations_are_as_by_hand(rt: HostRuntime) -> Result<(), Fail> {
    let (query, props) = counted(rt.alloc(), "b")?;
    assert_aggregations(&rt, &query, &props, Rule::AggToHash, &HASH_AGGREGATIONS);
    assert_aggregations(&rt, &query, &props, Rule::AggToStream, &STREAM_AGGREGATIONS);
    Ok(())
}

fn assert_partial(rt: &impl Abort, query: &Query, props: &Props, request: Request, stays: bool)
    requires { IsProps query.now props.now }
{
    let wanted = if stays {
        Some((Some(request), 169))
    } else {
        None
    };
    let serving = made_serving(query, props, PARTIAL, Rule::PartialToHash, request);
    assert!(rt; serving == wanted, "{request:?}");
}

#[test]
fn partial_groups_stay_where_spread_rows_lie(rt: HostRuntime) -> Result<(), Fail> {
    let (query, props) = counted(rt.alloc(), "b")?;
    assert_partial(&rt, &query, &props, ask(Dist::Spread, 0), true);
    assert_partial(&rt, &query, &props, ask(HASHED, 0), true);
    assert_partial(&rt, &query, &props, ask(Dist::Hashed(BY_A), 0), true);
    assert_partial(&rt, &query, &props, ask(Dist::One, 0), false);
    assert_partial(&rt, &query, &props, ask(Dist::Copies, 0), false);
    assert_partial(&rt, &query, &props, ask(Dist::Spread, WANTED), false);
    Ok(())
}

// Asserts that a scan and a seek by the index serve the request, or neither does.
fn assert_by_index(rt: &impl Abort, query: &Query, props: &Props, request: Request, served: bool)
    requires { IsProps query.now props.now }
{
    let (scan, seek) = if served {
        (Some((None, 501)), Some((None, 253)))
    } else {
        (None, None)
    };
    let is_so = made_serving(query, props, TABLE, Rule::GetToIndexScan, request) == scan
        && made_serving(query, props, FILTERED, Rule::SelectToIndexSeek, request) == seek;
    assert!(rt; is_so, "{request:?}");
}

// Asserts that the index, whose columns begin with b, serves what it can, and an order as told.
fn assert_orders(
    rt: &impl Abort,
    alloc: Global,
    ordered_by: &str,
    begins: bool,
) -> Result<(), Fail> {
    let (query, props) = counted(alloc, ordered_by)?;
    assert_by_index(rt, &query, &props, ask(Dist::Spread, 0), true);
    assert_by_index(rt, &query, &props, ask(Dist::Spread, WANTED), begins);
    assert_by_index(rt, &query, &props, ask(Dist::Spread, GROUPS), true);
    assert_by_index(rt, &query, &props, ask(Dist::Hashed(BY_A), GROUPS), true);
    assert_by_index(rt, &query, &props, ask(Dist::Hashed(BY_B_C), 0), false);
    assert_by_index(rt, &query, &props, ask(Dist::One, 0), false);
    Ok(())
}

#[test]
fn an_index_gives_each_order_with_which_its_columns_begin(rt: HostRuntime) -> Result<(), Fail> {
    assert_orders(&rt, rt.alloc(), "b", true)?;
    assert_orders(&rt, rt.alloc(), "c", false)
}

// Whether a stream aggregation of the rows gives the order.
fn streams_in(query: &Query, props: &Props, order: u32) -> bool
    requires { IsProps query.now props.now }
{
    let request = ask(Dist::One, order);
    aggregation_serving(query, props, Rule::AggToStream, false, request, 0).is_some()
}

#[test]
fn a_stream_aggregation_gives_the_order_of_its_groups_alone(rt: HostRuntime) -> Result<(), Fail> {
    let (query, props) = counted(rt.alloc(), "c")?;
    assert!(rt; !streams_in(&query, &props, WANTED) && streams_in(&query, &props, GROUPS));
    Ok(())
}
