//! Two tables that are joined by an equality, worked by hand.

ghost use Rattle.std.specs.Prelude.{IfOk, IfSome};
ghost use Rattle.query_core.specs.Keys.{IsGroup};
ghost use Rattle.query_core.specs.Expressions.{IsCandidate, IsCandidateWord, expr_of};
ghost use Rattle.request_props.specs.Numbered.{IsProps};

use plan_space::{Enforcer, NodeKind};
use plan_tree::*;
use query_core::*;
use request_props::{Dist, Props, Request};
use std::alloc::Global;
use std::process::Abort;
use std::test::Fail;
use worked_queries::{compared_tables, implied, one_linked_pair};
use xform_rules::{Rule, result_at, results_are_candidates};

// Two tables that are joined by this comparison, and what the query implies.
fn compared(alloc: Global, op: CmpOp) -> Result<(Box<Query>, Box<Props>), Fail>
    ensures { IfOk result (λ made. IsProps made.0.value made.1.value) }
{
    implied(alloc, compared_tables(alloc, op, 0)?)
}

// The result of the rule at the expression.
pub fn step(query: &Query, rule: Rule, e: ExprParts) -> Option<ExprParts>
    requires { IsCandidate query.now e }
    ensures { IfSome result (IsCandidate query.now) }
{
    // For the proof: the result of a rule at a candidate is one.
    candidates_are_known();
    let other = result_at(query, rule, e, None, 0)?;
    results_are_candidates();
    Some(other)
}

// The physical expression that the rule makes.
pub fn made(query: &Query, rule: Rule, e: ExprParts) -> Option<PhysicalExpr>
    requires { IsCandidate query.now e }
    ensures { IfSome result (λ made. IsCandidate query.now (expr_of made)) }
{
    step(query, rule, e)?.as_physical()
}

pub fn origin(query: &Query, group: KeyParts) -> ExprParts
    requires { IsGroup query.now group }
    ensures { IsCandidate query.now result }
{
    candidates_are_known();
    query.origin_of_group(group)
}

// The join of the two tables by this rule.
fn join_by(query: &Query, rule: Rule) -> Option<PhysicalExpr>
    ensures { IfSome result (λ made. IsCandidate query.now (expr_of made)) }
{
    let whole = origin(query, query.group(query.root()));
    let join = step(query, Rule::ExpandNAry, whole)?;
    made(query, rule, join)
}

pub fn ask(dist: Dist, order: u32) -> Request {
    Request { dist, order }
}

fn join_in(query: &Query, props: &Props, rule: Rule, request: Request, mode: u32) -> Option<Alt>
    requires { IsProps query.now props.now }
{
    let join = join_by(query, rule)?;
    if mode < 256 && props.has_order(query, request.order) {
        alternative_in(query, props, join, request, mode)
    } else {
        None
    }
}

// The mode of the alternative at the place.
fn mode_at(query: &Query, props: &Props, rule: Rule, request: Request, n: u32) -> Option<u32>
    requires { IsProps query.now props.now }
{
    let join = join_by(query, rule)?;
    if !props.has_order(query, request.order) {
        return None;
    }
    let alt = alternative_of(query, props, join, request, n)?;
    match alt.node.kind() {
        Some(NodeKind::Native(_, mode)) => Some(mode),
        _ => None,
    }
}

// The number of the enforcer at the place, and what it asks for.
fn enforced(query: &Query, props: &Props, request: Request, n: u32) -> Option<(u64, Dist, u32)>
    requires { IsProps query.now props.now }
{
    let found = enforcer(query, props, query.root(), request, n)?;
    Some((found.node.0, found.below.dist, found.below.order))
}

// The first mode with a line from this one on.
fn next_mode(query: &Query, props: &Props, join: PhysicalExpr, from: u32) -> Option<u32>
    requires props { IsProps query.now props.now }
    requires candidate { IsCandidate query.now (expr_of join) }
{
    match next_line(query, props, join, from) {
        Some((mode, _)) => Some(mode),
        None => None,
    }
}

// Whether the modes with a line are 0, 64 and 128, and are found one after another.
fn has_three_modes(query: &Query, props: &Props, join: PhysicalExpr) -> bool
    requires props { IsProps query.now props.now }
    requires candidate { IsCandidate query.now (expr_of join) }
{
    for mode in 0..256 {
        let is_one = mode == 0 || mode == 64 || mode == 128;
        if line_of(query, props, join, mode).is_some() != is_one {
            return false;
        }
    }
    next_mode(query, props, join, 0) == Some(0)
        && next_mode(query, props, join, 1) == Some(64)
        && next_mode(query, props, join, 65) == Some(128)
        && next_mode(query, props, join, 129).is_none()
}

fn assert_three_modes(rt: &impl Abort, query: &Query, props: &Props, rule: Rule)
    requires { IsProps query.now props.now }
{
    assert!(rt;
        matches!(join_by(query, rule), Some(join) if has_three_modes(query, props, join)),
        "{rule:?}"
    );
}

#[test]
fn a_hash_join_with_one_crossing_equality_has_three_modes(rt: HostRuntime) -> Result<(), Fail> {
    let (query, props) = compared(rt.alloc(), CmpOp::Eq)?;
    assert_three_modes(&rt, &query, &props, Rule::JoinToHash);
    assert_three_modes(&rt, &query, &props, Rule::JoinToMerge);
    Ok(())
}

// A distribution, a mode, and whether a join by loops serves the one in the other.
const LOOP_MODES: [(Dist, u32, bool); 4] = [
    (Dist::One, 0, true),
    (Dist::One, 64, false),
    (Dist::Spread, 64, true),
    (Dist::Spread, 128, false),
];

#[test]
fn a_join_without_an_equality_has_two_modes(rt: HostRuntime) -> Result<(), Fail> {
    let (query, props) = compared(rt.alloc(), CmpOp::Lt)?;
    for (dist, mode, is_one) in &LOOP_MODES {
        let alt = join_in(&query, &props, Rule::JoinToLoop, ask(*dist, 0), *mode);
        assert!(rt; alt.is_some() == *is_one, "{mode}");
    }
    Ok(())
}

// Asserts that the first two alternatives are in these modes, and that there is no third one.
fn assert_modes(
    rt: &impl Abort,
    query: &Query,
    props: &Props,
    rule: Rule,
    request: Request,
    first: Option<u32>,
    second: Option<u32>,
)
    requires { IsProps query.now props.now }
{
    let has_modes = mode_at(query, props, rule, request, 0) == first
        && mode_at(query, props, rule, request, 1) == second
        && mode_at(query, props, rule, request, 2).is_none();
    assert!(rt; has_modes, "{rule:?} {request:?}");
}

// A rule, a distribution and an order, and the modes of the two first alternatives.
const JOIN_MODES: [(Rule, Dist, u32, Option<u32>, Option<u32>); 11] = [
    (Rule::JoinToHash, Dist::One, 0, Some(0), None),
    (Rule::JoinToHash, Dist::One, 1, None, None),
    (Rule::JoinToHash, Dist::Spread, 0, Some(64), Some(128)),
    (Rule::JoinToHash, Dist::Hashed(0), 0, Some(64), Some(128)),
    (Rule::JoinToHash, Dist::Hashed(1), 0, None, None),
    (Rule::JoinToHash, Dist::Copies, 0, None, None),
    (Rule::JoinToMerge, Dist::One, 1, Some(0), None),
    (Rule::JoinToMerge, Dist::Spread, 1, Some(64), Some(128)),
    (Rule::JoinToMerge, Dist::Spread, 2, None, None),
    (Rule::JoinToLoop, Dist::One, 1, Some(0), None),
    (Rule::JoinToLoop, Dist::Spread, 2, None, None),
];

#[test]
fn alternatives_are_as_by_hand(rt: HostRuntime) -> Result<(), Fail> {
    let (query, props) = compared(rt.alloc(), CmpOp::Eq)?;
    for (rule, dist, order, first, second) in &JOIN_MODES {
        let request = ask(*dist, *order);
        assert_modes(&rt, &query, &props, *rule, request, *first, *second);
    }
    Ok(())
}

#[test]
fn joins_ask_as_by_hand(rt: HostRuntime) -> Result<(), Fail> {
    let merged = Alt {
        node: Node((1 << 56) + (70_594_229_968_898 + (1 << 31)) * 256 + 128),
        left: Some((Key(0), ask(Dist::Hashed(0), 1))),
        right: Some((Key(1), ask(Dist::Hashed(1), 2))),
    };
    let looped = Alt {
        node: Node((1 << 56) + (70_594_229_968_898 + (2 << 31)) * 256),
        left: Some((Key(0), ask(Dist::One, 1))),
        right: Some((Key(1), ask(Dist::One, 0))),
    };
    let (query, props) = compared(rt.alloc(), CmpOp::Eq)?;
    let by_merge = join_in(&query, &props, Rule::JoinToMerge, ask(Dist::Spread, 1), 128);
    assert!(rt; by_merge == Some(merged));
    let by_loops = join_in(&query, &props, Rule::JoinToLoop, ask(Dist::One, 1), 0);
    assert!(rt; by_loops == Some(looped));
    Ok(())
}

const ENFORCER_COSTS: [(Enforcer, u64); 5] = [
    (Enforcer::Sort(1), 2001),
    (Enforcer::Broadcast, 4001),
    (Enforcer::Gather, 2001),
    (Enforcer::GatherMerge(1), 3001),
    (Enforcer::Redistribute(0), 1001),
];

// Whether a scan of the table and each enforcer over its rows cost what they do in worked examples.
fn table_costs(query: &Query, props: &Props, table: KeyParts) -> bool
    requires props { IsProps query.now props.now }
    requires group { IsGroup query.now table }
{
    let spread = ask(Dist::Spread, 0);
    for (enforcer, cost) in &ENFORCER_COSTS {
        if enforcer_cost(query, props, *enforcer, table, spread) != *cost {
            return false;
        }
    }
    match made(query, Rule::GetToScan, origin(query, table)) {
        Some(scan) => native_cost(query, props, scan, 0, spread) == 251,
        None => false,
    }
}

// Whether the hash join in each of its modes does.
fn join_costs(query: &Query, props: &Props) -> bool
    requires { IsProps query.now props.now }
{
    let spread = ask(Dist::Spread, 0);
    match join_by(query, Rule::JoinToHash) {
        Some(join) => {
            native_cost(query, props, join, 128, spread) == 1001
                && native_cost(query, props, join, 64, spread) == 2501
                && native_cost(query, props, join, 0, ask(Dist::One, 0)) == 4001
        }
        None => false,
    }
}

#[test]
fn costs_are_those_of_worked_examples(rt: HostRuntime) -> Result<(), Fail> {
    let (query, props) = compared(rt.alloc(), CmpOp::Eq)?;
    assert!(rt; query.is_key(Key(0)) && table_costs(&query, &props, query.group(Key(0))));
    assert!(rt; join_costs(&query, &props));
    Ok(())
}

// The word of a physical expression that a group can hold.
fn word_of(_query: &Query, e: PhysicalExpr) -> Expr
    requires { IsCandidate _query.now (expr_of e) }
    ensures { IsCandidateWord _query.now result.0 }
{
    // For the proof: a candidate has a word.
    candidates_are_known();
    Expr::make(e.parts())
}

// What the join by this rule costs as the alternative at the place.
fn alternative_cost(
    query: &Query,
    props: &Props,
    rule: Rule,
    request: Request,
    n: u32,
) -> Option<u64>
    requires { IsProps query.now props.now }
{
    let join = join_by(query, rule)?;
    if !props.has_order(query, request.order) {
        return None;
    }
    let alt = alternative(query, props, word_of(query, join), request, n)?;
    Some(node_cost(query, props, query.root(), request, alt.node))
}

// What the enforcer at the place costs over the join.
fn cost_of_enforcer(query: &Query, props: &Props, request: Request, n: u32) -> Option<u64>
    requires { IsProps query.now props.now }
{
    let found = enforcer(query, props, query.root(), request, n)?;
    Some(node_cost(query, props, query.root(), request, found.node))
}

// What is asked for, the place, and what the hash join and the enforcer there cost.
const COSTS_BY_PLACE: [(Dist, u32, u32, Option<u64>, Option<u64>); 5] = [
    (Dist::Spread, 0, 0, Some(2501), None),
    (Dist::Spread, 0, 1, Some(1001), None),
    (Dist::One, 0, 0, Some(4001), Some(2001)),
    (Dist::One, 1, 1, None, Some(3001)),
    (Dist::Copies, 0, 0, None, Some(4001)),
];

#[test]
fn a_node_costs_the_same_by_its_number(rt: HostRuntime) -> Result<(), Fail> {
    let (query, props) = compared(rt.alloc(), CmpOp::Eq)?;
    for (dist, order, n, join_cost, motion_cost) in &COSTS_BY_PLACE {
        let request = ask(*dist, *order);
        assert!(rt;
            alternative_cost(&query, &props, Rule::JoinToHash, request, *n) == *join_cost,
            "{request:?} {n}"
        );
        assert!(rt;
            cost_of_enforcer(&query, &props, request, *n) == *motion_cost,
            "{request:?} {n}"
        );
    }
    Ok(())
}

// What is asked for, the place of the enforcer, its number, and what it asks for.
const ENFORCERS: [(Dist, u32, u32, Option<(u64, Dist, u32)>); 12] = [
    (Dist::One, 1, 0, Some((65, Dist::One, 0))),
    (Dist::One, 1, 1, Some((129, Dist::Spread, 1))),
    (Dist::One, 1, 2, None),
    (Dist::One, 0, 0, Some((1, Dist::Spread, 0))),
    (Dist::One, 0, 1, None),
    (Dist::Spread, 0, 0, None),
    (Dist::Copies, 0, 0, Some((2, Dist::Spread, 0))),
    (Dist::Copies, 2, 0, Some((66, Dist::Copies, 0))),
    (Dist::Copies, 2, 1, None),
    (Dist::Hashed(1), 0, 0, Some((193, Dist::Spread, 0))),
    (Dist::Hashed(2), 0, 0, None),
    (Dist::One, 3, 0, None),
];

fn assert_enforced(
    rt: &impl Abort,
    query: &Query,
    props: &Props,
    request: Request,
    n: u32,
    wanted: Option<(u64, Dist, u32)>,
)
    requires { IsProps query.now props.now }
{
    assert!(rt;
        enforced(query, props, request, n) == wanted,
        "{request:?} {n}"
    );
}

#[test]
fn a_sort_comes_before_a_merge(rt: HostRuntime) -> Result<(), Fail> {
    let (query, props) = compared(rt.alloc(), CmpOp::Eq)?;
    for (dist, order, n, wanted) in &ENFORCERS {
        assert_enforced(&rt, &query, &props, ask(*dist, *order), *n, *wanted);
    }
    Ok(())
}

// Whether a filter of the second table is there for the request.
fn filter_is_there(query: &Query, props: &Props, request: Request) -> Option<bool>
    requires { IsProps query.now props.now }
{
    let group = KeyParts::Filter(1);
    if !query.has_group(group) {
        return None;
    }
    let filter = made(query, Rule::SelectToFilter, origin(query, group))?;
    if !props.has_order(query, request.order) {
        return None;
    }
    Some(alternative_of(query, props, filter, request, 0).is_some())
}

// The orders are those of U.x and of V.y, and the filter is of U: a line over one child asks for no fit.
#[test]
fn a_filter_is_there_for_an_order_of_another_table(rt: HostRuntime) -> Result<(), Fail> {
    let (query, props) = implied(rt.alloc(), one_linked_pair(rt.alloc())?)?;
    assert!(rt; filter_is_there(&query, &props, ask(Dist::Spread, 1)) == Some(true));
    assert!(rt; filter_is_there(&query, &props, ask(Dist::Spread, 2)) == Some(true));
    assert!(rt; filter_is_there(&query, &props, ask(Dist::Spread, 3)).is_none());
    Ok(())
}

fn assert_kind(rt: &impl Abort, number: u64, kind: Option<NodeKind>) {
    assert!(rt; Node(number).kind() == kind, "{number}");
}

fn assert_enforcer(rt: &impl Abort, number: u64, enforcer: Enforcer) {
    assert_kind(rt, number, Some(NodeKind::Enforcer(enforcer)));
}

#[test]
fn nodes_are_told_by_their_numbers(rt: HostRuntime) {
    assert_enforcer(&rt, 1, Enforcer::Gather);
    assert_enforcer(&rt, 2, Enforcer::Broadcast);
    assert_enforcer(&rt, 65, Enforcer::Sort(1));
    assert_enforcer(&rt, 124, Enforcer::Sort(60));
    assert_enforcer(&rt, 188, Enforcer::GatherMerge(60));
    assert_enforcer(&rt, 192, Enforcer::Redistribute(0));
    assert_enforcer(&rt, 251, Enforcer::Redistribute(59));
    assert_kind(&rt, 64, None);
    assert_kind(&rt, 125, None);
    assert_kind(&rt, 252, None);
    assert_kind(&rt, 1 << 56, None);
}
