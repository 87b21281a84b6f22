//! What the program prints where options are given.
use crate::runs::{
    ONE_TABLE, PLAN, SORTED, UNLINKED, answered, assert_plans, assert_printed, printed,
};
use orca_cli::Status;
use std::alloc::AllocGlobal;
use std::sync::Wait;
use std::test::Fail;
use std::thread::Threads;

const INDEXED: &str = r#"{"version":1,"segments":4,"tables":[
{"name":"t","rows":1000,"distribution":"random",
"columns":[{"name":"a","ndv":1000},{"name":"b","ndv":10}],"indexes":[["a","b"]]}]}"#;

const SOUGHT: &str = r#"{"version":1,"segments":4,"tables":[
{"name":"t","rows":1000,"distribution":"random","columns":[{"name":"a","ndv":100}],"indexes":[["a"]]}]}"#;

const SPREAD: &str = "cost 251\noutput t.a\nScan(t) rows=1000 cost=251\n";

// Queries over the table with an index on two columns, each with its plan below it.
const OVER_INDEXED: &str = "SELECT a FROM t ORDER BY a
cost 3502
output t.a
GatherMerge(t.a) rows=1000 cost=3001
  IndexScan(t, i0) rows=1000 cost=501

SELECT a FROM t ORDER BY a, b
cost 3502
output t.a
GatherMerge(t.a, t.b) rows=1000 cost=3001
  IndexScan(t, i0) rows=1000 cost=501

SELECT a FROM t ORDER BY b
cost 5253
output t.a
GatherMerge(t.b) rows=1000 cost=3001
  Sort(t.b) rows=1000 cost=2001
    Scan(t) rows=1000 cost=251

SELECT a FROM t ORDER BY a DESC, b
cost 5253
output t.a
GatherMerge(t.a DESC, t.b) rows=1000 cost=3001
  Sort(t.a DESC, t.b) rows=1000 cost=2001
    Scan(t) rows=1000 cost=251";

#[test]
fn an_index_gives_the_order_of_its_columns(rt: HostRuntime) -> Result<(), Fail> {
    assert_plans(&rt, INDEXED, OVER_INDEXED)
}

// Without the rule that seeks by an index, and without further rules.
const SEEKS_OFF: &str = "plan c.json q.sql --off SelectToIndexSeek
plan c.json q.sql --off GetToIndexScan+SelectToIndexSeek
plan c.json q.sql --off SelectToIndexSeek+GetToIndexScan+SplitAgg
";

#[test]
fn a_rule_that_is_off_makes_no_plan(rt: HostRuntime) -> Result<(), Fail> {
    let order = b"SELECT a FROM t ORDER BY a";
    let sought = b"SELECT a FROM t WHERE a = 5";
    let by_index =
        "cost 31\noutput t.a\nGather rows=10 cost=21\n  IndexSeek(t, i0) rows=10 cost=10\n";
    let by_filter =
        "cost 523\noutput t.a\nGather rows=10 cost=21\n  Filter(t) rows=10 cost=251\n    Scan(t) rows=1000 cost=251\n";
    let off = "plan c.json q.sql --off GetToIndexScan";
    assert_printed(&rt, off, INDEXED.as_bytes(), order, Status::Planned, SORTED)?;
    let catalog = SOUGHT.as_bytes();
    assert_printed(&rt, PLAN, catalog, sought, Status::Planned, by_index)?;
    for words in SEEKS_OFF.lines() {
        assert_printed(&rt, words, catalog, sought, Status::Planned, by_filter)?;
    }
    Ok(())
}

#[test]
fn a_query_that_no_plan_answers_is_told(rt: HostRuntime) -> Result<(), Fail> {
    let unlinked = b"SELECT t.a FROM t, u";
    let query = b"SELECT a FROM t";
    let memo = "no plan\nmemo groups=1 members=1\ngroup Get(t) rows=1000\n  Get(t)\n";
    let off = "plan c.json q.sql --off JoinToLoop";
    let (catalog, none) = (UNLINKED.as_bytes(), "no plan\n");
    assert_printed(&rt, off, catalog, unlinked, Status::NoPlan, none)?;
    let scans = "plan c.json q.sql --off GetToScan+GetToIndexScan --memo";
    assert_printed(
        &rt,
        scans,
        ONE_TABLE.as_bytes(),
        query,
        Status::NoPlan,
        memo,
    )
}

#[test]
fn the_result_may_stay_spread(rt: HostRuntime) -> Result<(), Fail> {
    let (catalog, query) = (ONE_TABLE.as_bytes(), b"SELECT a FROM t");
    let gathered =
        "cost 2252\noutput t.a\nGather rows=1000 cost=2001\n  Scan(t) rows=1000 cost=251\n";
    let spread = "plan c.json q.sql --root spread";
    let one = "plan c.json q.sql --root one";
    assert_printed(&rt, spread, catalog, query, Status::Planned, SPREAD)?;
    assert_printed(&rt, one, catalog, query, Status::Planned, gathered)?;
    assert_printed(&rt, PLAN, catalog, query, Status::Planned, gathered)
}

const PLACES: &str = "plan --memo --root spread --off SplitAgg c.json q.sql
plan --off SplitAgg c.json --root spread q.sql --memo
plan c.json --memo --off SplitAgg q.sql --root spread
plan c.json q.sql --root spread --memo --off SplitAgg
plan --root spread c.json --memo q.sql
";

#[test]
fn options_stand_before_between_and_behind_the_names(rt: HostRuntime) -> Result<(), Fail> {
    let memo = "memo groups=1 members=2\ngroup Get(t) rows=1000\n  Get(t)\n  Scan(t)\n";
    let text = [SPREAD, memo].concat(rt.alloc())?;
    for words in PLACES.lines() {
        assert_printed(
            &rt,
            words,
            ONE_TABLE.as_bytes(),
            b"SELECT a FROM t",
            Status::Planned,
            text.as_str(),
        )?;
    }
    Ok(())
}

// A space at the end of a line has an empty word behind it.
const OTHERS: &str = "plan c.json q.sql --off ExpandNAry
plan c.json q.sql --off JoinToLoop+ExpandNAry
plan c.json q.sql --off JoinToLoop+JoinToLoop
plan c.json q.sql --off JoinToLoop+
plan c.json q.sql --off +JoinToLoop
plan c.json q.sql --off JoinToLoop++JoinToHash
plan c.json q.sql --off jointoloop
plan c.json q.sql --off JoinToLoop,JoinToHash
plan c.json q.sql --off\u{20}
plan c.json q.sql --off
plan c.json q.sql --off JoinToLoop --off JoinToHash
plan c.json q.sql --off=JoinToLoop
plan c.json q.sql --root
plan c.json q.sql --root two
plan c.json q.sql --root One
plan c.json q.sql --root\u{20}
plan c.json q.sql --root --memo
plan c.json q.sql --root one --root one
plan c.json q.sql --root=one
plan c.json q.sql --memo --memo
plan c.json q.sql --workers 0
plan c.json q.sql --workers=4
plan c.json q.sql --workers 04
plan c.json q.sql --capacity 63
plan c.json q.sql one
";

#[test]
fn options_of_another_form_get_the_usage_line(rt: HostRuntime) -> Result<(), Fail> {
    for words in OTHERS.lines() {
        let told = printed(
            &rt,
            words,
            ONE_TABLE.as_bytes(),
            b"SELECT a FROM t",
            Status::Usage,
        )?;
        assert!(rt;
            told.starts_with("usage: orca plan CATALOG QUERY"),
            "{words}"
        );
    }
    Ok(())
}

// The cost that the first line tells, or 0 where it tells none.
fn cost_of(text: &[u8]) -> Result<u64, Fail> {
    let line = str::from_utf8(text)?.lines().next().unwrap_or("");
    match line.strip_prefix("cost ") {
        Some(number) => Ok(number.parse::<u64>()?),
        None => Ok(0),
    }
}

// Whether the run told a plan of at least this cost, or that there is none.
fn costs_no_less(status: Status, text: &[u8], least: u64) -> Result<bool, Fail> {
    match status {
        Status::Planned => Ok(cost_of(text)? >= least),
        Status::NoPlan => Ok(text == "no plan\n".as_bytes()),
        _ => Ok(false),
    }
}

const JOINED_WITH_INDEXES: &str = r#"{"version":1,"segments":4,"tables":[
{"name":"t","rows":1000,"distribution":"random",
"columns":[{"name":"a","ndv":100},{"name":"b","ndv":10}],"indexes":[["a"],["b","a"]]},
{"name":"u","rows":50,"distribution":["c"],
"columns":[{"name":"c","ndv":50},{"name":"d","ndv":5}],"indexes":[["d"]]}]}"#;

// The rules that may be off.
const RULES: &str =
    "JoinCommute JoinAssociate SplitAgg GetToScan GetToIndexScan SelectToFilter SelectToIndexSeek \
JoinToHash JoinToMerge JoinToLoop AggToHash AggToStream PartialToHash";

// Whether the query costs no less without these two rules, which may be one.
fn costs_no_less_without<R: Threads + Wait + Sync + AllocGlobal>(
    rt: &R,
    query: &str,
    first: &str,
    second: &str,
    least: u64,
) -> Result<bool, Fail> {
    let mut words = [PLAN, " --capacity 4096 --off ", first].concat(rt.alloc())?;
    if first != second {
        words.push_str("+")?;
        words.push_str(second)?;
    }
    let (status, sink) = answered(rt, &words, JOINED_WITH_INDEXES.as_bytes(), query.as_bytes())?;
    costs_no_less(status, sink.taken(), least)
}

// The cost of the least plan with all rules.
fn least_cost<R: Threads + Wait + Sync + AllocGlobal>(rt: &R, query: &str) -> Result<u64, Fail> {
    let (catalog, query) = (JOINED_WITH_INDEXES.as_bytes(), query.as_bytes());
    let told = printed(rt, PLAN, catalog, query, Status::Planned)?;
    cost_of(told.as_bytes())
}

#[test]
fn no_plan_costs_less_with_rules_off(rt: HostRuntime) -> Result<(), Fail> {
    for query in [
        "SELECT a FROM t ORDER BY b, a",
        "SELECT a FROM t WHERE a = 5 ORDER BY b",
        "SELECT a FROM t, u WHERE a = c ORDER BY a",
        "SELECT a FROM t, u WHERE a = d AND b < 3",
    ] {
        let least = least_cost(&rt, query)?;
        assert!(rt; least > 0, "{query}");
        for (place, first) in RULES.split(' ').enumerate() {
            for second in RULES.split(' ').skip(place) {
                let no_less = costs_no_less_without(&rt, query, first, second, least)?;
                assert!(rt; no_less, "{query} {first} {second}");
            }
        }
    }
    Ok(())
}
