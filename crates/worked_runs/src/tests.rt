//! Plans of one table, refusals with their causes and places, and the greatest lengths of texts.
use crate::runs::{
    EMPTY, EMPTY_MEMO, EMPTY_PLAN, ONE_TABLE, PLAN, SORTED, TWO_TABLES, assert_catalog_fault,
    assert_planned, assert_plans, assert_printed, assert_query_fault, assert_sections, printed,
    shelf_of, words_of,
};
use orca_cli::{RunNote, Status, is_for_one, orca_alone};
use orca_io::{MemShelf, MemSink};
use std::alloc::{AllocGlobal, Global};
use std::process::Abort;
use std::sync::Wait;
use std::test::Fail;
use std::thread::Threads;
use worked_queries::SCAN_TRACE;

const QUERY: &str = "SELECT a FROM t ORDER BY a";

#[test]
fn prints_the_least_plan_of_one_table(rt: HostRuntime) -> Result<(), Fail> {
    assert_planned(&rt, ONE_TABLE, QUERY, SORTED)
}

const ON_ONE_SEGMENT: &str = r#"{"version":1,"segments":1,"tables":[
{"name":"t","rows":10,"distribution":"random","columns":[{"name":"a","ndv":1000},{"name":"b","ndv":10}]}]}"#;

// A query over the table without rows, with its plan below it.
const OVER_EMPTY: &str = "SELECT a FROM t
cost 2
output t.a
Gather rows=0 cost=1
  Scan(t) rows=0 cost=1";

// The same of a table on one segment.
const OVER_ONE_SEGMENT: &str = "select a from t -- all
cost 32
output t.a
Gather rows=10 cost=21
  Scan(t) rows=10 cost=11";

// Queries over the table of 1,000 rows, each with its plan below it.
const OVER_ONE_TABLE: &str = "SELECT b FROM t ORDER BY a
cost 5253
output t.b
GatherMerge(t.a) rows=1000 cost=3001
  Sort(t.a) rows=1000 cost=2001
    Scan(t) rows=1000 cost=251

select u.b as c, a from t as u order by c desc, a, c;
cost 5253
output u.b AS c, u.a
GatherMerge(u.b DESC, u.a) rows=1000 cost=3001
  Sort(u.b DESC, u.a) rows=1000 cost=2001
    Scan(u) rows=1000 cost=251

SELECT a FROM t WHERE a = 'it''s'
cost 505
output t.a
Gather rows=1 cost=3
  Filter(t) rows=1 cost=251
    Scan(t) rows=1000 cost=251";

#[test]
fn prints_the_least_plan_of_each_query(rt: HostRuntime) -> Result<(), Fail> {
    assert_plans(&rt, EMPTY, OVER_EMPTY)?;
    assert_plans(&rt, ON_ONE_SEGMENT, OVER_ONE_SEGMENT)?;
    assert_plans(&rt, ONE_TABLE, OVER_ONE_TABLE)
}

#[test]
fn prints_the_memo_where_it_is_asked_for(rt: HostRuntime) -> Result<(), Fail> {
    for words in [
        "plan --memo c.json q.sql",
        "plan c.json --memo q.sql",
        "plan c.json q.sql --memo",
    ] {
        assert_sections(&rt, words, &[EMPTY_PLAN, EMPTY_MEMO])?;
    }
    Ok(())
}

#[test]
fn prints_the_trace_behind_the_memo(rt: HostRuntime) -> Result<(), Fail> {
    assert_sections(
        &rt,
        "plan --trace c.json q.sql --memo",
        &[EMPTY_PLAN, EMPTY_MEMO, SCAN_TRACE],
    )
}

// In each line a query over the two tables, and why it is refused.
const REFUSED_OVER_TWO: &str = "SELECT T1.z FROM T1 | unknown column at 7
SELECT a FROM T1, T2 | ambiguous column at 7
SELECT T2.b FROM T2 GROUP BY T2.a | not grouped at 7
SELECT T1.a FROM T1, T2 AS T1 | name twice at 27
SELECT x FROM T9 | unknown table at 14
SELECT a FROM T1 WHERE a = 'x | token at 27
SELECT a FROM t,t,t,t,t,t,t,t,t,t,t | too many tables at 34
 | grammar at 0
; | grammar at 0
";

// The same over the one table.
const REFUSED_OVER_ONE: &str = "SELECT a FROM t, t u | ambiguous column at 7
SELECT a FROM t WHERE a = 9223372036854775808 | token at 26
SELECT a FROM t WHERE a = -9223372036854775808 | token at 26
SELECT a FROM t WHERE a = 5x | token at 26
SELECT \u{c3} FROM t | not ASCII at 7
SELECT a\0 FROM t | token at 8
SELECT a FROM t;; | grammar at 16
SELECT a FROM t GROUP | grammar at 21
SELECT COUNT(*) FROM t WHERE | grammar at 28
SELECT a FROM t WHERE 5 = a | grammar at 22
SELECT a b FROM t | grammar at 9
SELECT a FROM t ORDER BY a, a, a, a, a, a, a, a, a | too many order keys at 49
SELECT a FROM t GROUP BY a, a, a, a, a, a, a, a, a | too many group columns at 49
";

// The same over no table.
const REFUSED_OVER_NONE: &str = "SELECT a FROM t | unknown table at 14
";

const NO_TABLES: &str = r#"{"version":1,"segments":4,"tables":[]}"#;

// Asserts why the query in each line is refused.
fn assert_refused<R: Threads + Wait + Sync + AllocGlobal + Abort>(
    rt: &R,
    catalog: &str,
    lines: &str,
) -> Result<(), Fail> {
    for line in lines.lines() {
        let (query, want) = line.split_once(" | ").ok_or("a line has two parts")?;
        assert_query_fault(rt, catalog.as_bytes(), query.as_bytes(), want)?;
    }
    Ok(())
}

#[test]
fn a_refused_query_is_told_with_its_cause(rt: HostRuntime) -> Result<(), Fail> {
    assert_refused(&rt, TWO_TABLES, REFUSED_OVER_TWO)?;
    assert_refused(&rt, ONE_TABLE, REFUSED_OVER_ONE)?;
    assert_refused(&rt, NO_TABLES, REFUSED_OVER_NONE)
}

#[test]
fn a_query_that_is_no_text_is_refused_at_its_byte(rt: HostRuntime) -> Result<(), Fail> {
    let query = b"SELECT \xc3 FROM t";
    assert_query_fault(&rt, ONE_TABLE.as_bytes(), query, "not ASCII at 7")
}

const REFUSED_CATALOGS: [(&[u8], &str); 7] = [
    (b"", "not JSON"),
    (b"\xff", "not JSON"),
    (b"[]", "shape at "),
    (b"{}", "shape at /version"),
    (br#"{"version":1.5}"#, "shape at /version"),
    (br#"{"version":3,"segments":4,"tables":[]}"#, "version 3"),
    (
        br#"{"version":1,"segments":0,"tables":[]}"#,
        "range at /segments",
    ),
];

#[test]
fn a_refused_catalog_is_told_with_its_cause(rt: HostRuntime) -> Result<(), Fail> {
    for (catalog, told) in &REFUSED_CATALOGS {
        assert_catalog_fault(&rt, catalog, QUERY.as_bytes(), told)?;
    }
    Ok(())
}

#[test]
fn two_hundred_nested_arrays_are_refused(rt: HostRuntime) -> Result<(), Fail> {
    let open = "[".repeat(rt.alloc(), 200)?;
    let close = "]".repeat(rt.alloc(), 200)?;
    let deep = ["\"x\":", &open, &close, ",\"segments\""].concat(rt.alloc())?;
    let catalog = TWO_TABLES.replacen(rt.alloc(), "\"segments\"", &deep, 1)?;
    assert_catalog_fault(&rt, catalog.as_bytes(), QUERY.as_bytes(), "not JSON")
}

#[test]
fn a_catalog_has_at_most_a_mebibyte(rt: HostRuntime) -> Result<(), Fail> {
    let over = vec![in rt.alloc(); b' '; 1_048_577]?;
    assert_catalog_fault(&rt, &over, QUERY.as_bytes(), "too long")?;
    let mut most = vec![in rt.alloc(); b' '; 1_048_576 - ONE_TABLE.len()]?;
    most.extend_from_slice(ONE_TABLE.as_bytes())?;
    assert_printed(&rt, PLAN, &most, QUERY.as_bytes(), Status::Planned, SORTED)
}

// What is replaced in the two tables, by what, and what is told then.
const CHANGES: [(&str, &str, &str); 5] = [
    (
        "\"ndv\":1000",
        "\"ndv\":1000000000001",
        "range at /tables/0/columns/0/ndv",
    ),
    (
        "\"name\":\"T2\"",
        "\"name\":\"T1\"",
        "twice at /tables/1/name",
    ),
    (
        "[\"a\"]",
        "[\"c\"]",
        "unknown column at /tables/0/distribution/0",
    ),
    (
        "\"rows\":1000",
        "\"rows\":\"1000\"",
        "shape at /tables/0/rows",
    ),
    (
        "\"name\":\"T1\"",
        "\"name\":\"a b\"",
        "shape at /tables/0/name",
    ),
];

#[test]
fn one_change_of_a_catalog_is_told_at_its_place(rt: HostRuntime) -> Result<(), Fail> {
    for (old, new, told) in &CHANGES {
        let catalog = TWO_TABLES.replacen(rt.alloc(), old, new, 1)?;
        assert_catalog_fault(&rt, catalog.as_bytes(), QUERY.as_bytes(), told)?;
    }
    Ok(())
}

#[test]
fn each_proper_prefix_of_a_catalog_is_refused(rt: HostRuntime) -> Result<(), Fail> {
    for length in 0..TWO_TABLES.len() {
        let prefix = &TWO_TABLES.as_bytes()[..length];
        assert_catalog_fault(&rt, prefix, QUERY.as_bytes(), "not JSON")?;
    }
    Ok(())
}

#[test]
fn a_query_has_at_most_64_kibibytes(rt: HostRuntime) -> Result<(), Fail> {
    let over = vec![in rt.alloc(); b' '; 65_537]?;
    assert_query_fault(&rt, ONE_TABLE.as_bytes(), &over, "too long")?;
    let mut most = vec![in rt.alloc(); b' '; 65_536 - QUERY.len()]?;
    most.extend_from_slice(QUERY.as_bytes())?;
    assert_printed(
        &rt,
        PLAN,
        ONE_TABLE.as_bytes(),
        &most,
        Status::Planned,
        SORTED,
    )
}

// The first line has no words, and a space at the end of a line an empty word behind it.
const OTHERS: &str = "
plan
plan c.json
plan c.json\u{20}
plan -c.json q.sql
--memo plan c.json q.sql
plan c.json q.sql --memo --memo
plan c.json q.sql --workers 0
";

#[test]
fn other_words_get_the_usage_line(rt: HostRuntime) -> Result<(), Fail> {
    for words in OTHERS.lines() {
        let told = printed(
            &rt,
            words,
            ONE_TABLE.as_bytes(),
            QUERY.as_bytes(),
            Status::Usage,
        )?;
        let usage = "usage: orca plan CATALOG QUERY [--workers N]";
        assert!(rt; told.starts_with(usage), "{words}");
    }
    Ok(())
}

/// What one worker answers, where the words are a command for one.
pub fn alone(
    alloc: Global,
    words: &[String],
    shelf: &mut MemShelf,
    sink: &mut MemSink,
) -> Option<Status> {
    if !is_for_one(words) {
        return None;
    }
    let mut note = RunNote::new();
    Some(orca_alone(alloc, words, shelf, sink, &mut note))
}

#[test]
fn one_worker_answers_alone(rt: HostRuntime) -> Result<(), Fail> {
    let words = words_of(rt.alloc(), PLAN)?;
    let mut shelf = shelf_of(rt.alloc(), ONE_TABLE.as_bytes(), QUERY.as_bytes())?;
    let mut sink = MemSink::with_room(rt.alloc(), 4096)?;
    let status = alone(rt.alloc(), &words, &mut shelf, &mut sink);
    assert!(rt; status == Some(Status::Planned));
    assert!(rt; sink.taken().starts_with(b"cost 5253\n"));
    Ok(())
}
