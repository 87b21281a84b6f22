//! What the program prints for queries over several tables.
use crate::runs::{
    JOIN, TWO_TABLES, UNLINKED, assert_planned, assert_plans, assert_printed, assert_query_fault,
};
use orca_cli::Status;
use std::alloc::{AllocError, AllocGlobal, Global};
use std::process::Abort;
use std::sync::Wait;
use std::test::Fail;
use std::thread::Threads;
use worked_queries::JOIN_MEMO;

const LARGE_AND_SMALL: &str = r#"{"version":1,"segments":4,"tables":[
{"name":"b","rows":100000,"distribution":"random","columns":[{"name":"x","ndv":1000}]},
{"name":"s","rows":10,"distribution":"random","columns":[{"name":"y","ndv":10}]}]}"#;

const VAST: &str = r#"{"version":1,"segments":4,"tables":[
{"name":"T1","rows":1000000000000,"distribution":"random","columns":[{"name":"a","ndv":1}]},
{"name":"T2","rows":1000000000000,"distribution":"random","columns":[{"name":"b","ndv":1}]}]}"#;

/// The plan of the running example.
pub const JOINED: &str = "cost 7506
output T1.a
GatherMerge(T1.a) rows=1000 cost=3001
  Sort(T1.a) rows=1000 cost=2001
    HashJoin(colocated p0) rows=1000 cost=1001
      Scan(T1) rows=1000 cost=251
      Redistribute(T2.b) rows=1000 cost=1001
        Scan(T2) rows=1000 cost=251
";

// A query over the tables of the running example, with its plan below it.
const OVER_TWO_TABLES: &str = "SELECT T1.a FROM T1, T2 WHERE T1.a = T2.a
cost 3504
output T1.a
Gather rows=1000 cost=2001
  HashJoin(colocated p0) rows=1000 cost=1001
    Scan(T1) rows=1000 cost=251
    Scan(T2) rows=1000 cost=251";

// The same over the large table and the small one.
const OVER_LARGE_AND_SMALL: &str = "SELECT b.x FROM b, s WHERE b.x = s.y
cost 52318
output b.x
Gather rows=1000 cost=2001
  HashJoin(copied) rows=1000 cost=25271
    Scan(b) rows=100000 cost=25001
    Broadcast rows=10 cost=41
      Scan(s) rows=10 cost=4";

// The same over the tables without a link.
const OVER_UNLINKED: &str = "SELECT t.a FROM t, u
cost 1253
output t.a
LoopJoin(one) rows=1000 cost=1001
  Gather rows=100 cost=201
    Scan(t) rows=100 cost=26
  Gather rows=10 cost=21
    Scan(u) rows=10 cost=4";

// The same over the vast tables.
const OVER_VAST: &str = "SELECT T1.a FROM T1, T2 WHERE T1.a < T2.b
cost 1004500000000004
output T1.a
LoopJoin(one) rows=333333333334 cost=1000000000000000
  Gather rows=1000000000000 cost=2000000000001
    Scan(T1) rows=1000000000000 cost=250000000001
  Gather rows=1000000000000 cost=2000000000001
    Scan(T2) rows=1000000000000 cost=250000000001";

#[test]
fn prints_the_least_plan_of_each_join(rt: HostRuntime) -> Result<(), Fail> {
    assert_planned(&rt, TWO_TABLES, JOIN, JOINED)?;
    assert_plans(&rt, TWO_TABLES, OVER_TWO_TABLES)?;
    assert_plans(&rt, LARGE_AND_SMALL, OVER_LARGE_AND_SMALL)?;
    assert_plans(&rt, UNLINKED, OVER_UNLINKED)?;
    assert_plans(&rt, VAST, OVER_VAST)
}

#[test]
fn a_further_key_of_a_catalog_changes_nothing(rt: HostRuntime) -> Result<(), Fail> {
    let commented = TWO_TABLES.replacen(
        rt.alloc(),
        "\"segments\"",
        "\"comment\":\"x\",\"segments\"",
        1,
    )?;
    assert_planned(&rt, &commented, JOIN, JOINED)
}

#[test]
fn prints_the_plan_and_the_memo_of_a_join(rt: HostRuntime) -> Result<(), Fail> {
    let text = [JOINED, JOIN_MEMO].concat(rt.alloc())?;
    let (catalog, query) = (TWO_TABLES.as_bytes(), JOIN.as_bytes());
    let words = "plan c.json q.sql --memo";
    assert_printed(&rt, words, catalog, query, Status::Planned, &text)
}

// Two tables of ten rows with 30 columns each, of which the first may be hashed on two.
fn wide_catalog(alloc: Global, distribution: &str) -> Result<String, AllocError> {
    let mut text = String::from_str(alloc, r#"{"version":1,"segments":4,"tables":["#)?;
    push_wide_table(&mut text, alloc, "a", distribution)?;
    text.push_str(",")?;
    push_wide_table(&mut text, alloc, "b", r#""random""#)?;
    text.push_str("]}")?;
    Ok(text)
}

fn push_wide_table(
    text: &mut String,
    alloc: Global,
    name: &str,
    distribution: &str,
) -> Result<(), AllocError> {
    let parts = [
        r#"{"name":""#,
        name,
        r#"","rows":10,"distribution":"#,
        distribution,
        r#","columns":[{"name":"c0","ndv":10}"#,
    ];
    text.push_str(&parts.concat(alloc)?)?;
    for column in 1..30u32 {
        write!(text, ",{{\"name\":\"c{column}\",\"ndv\":10}}")?;
    }
    text.push_str("]}")
}

// `SELECT a.c0 FROM a, b WHERE a.c0 = b.c0 AND ..` over all 30 columns
fn wide_query(alloc: Global, end: &str) -> Result<String, AllocError> {
    let mut text = String::from_str(alloc, "SELECT a.c0 FROM a, b WHERE a.c0 = b.c0")?;
    for column in 1..30u32 {
        write!(text, " AND a.c{column} = b.c{column}")?;
    }
    text.push_str(end)?;
    Ok(text)
}

// Asserts why the query with this end over tables of which the first is hashed so is refused.
fn assert_wide_fault<R: Threads + Wait + Sync + AllocGlobal + Abort>(
    rt: &R,
    distribution: &str,
    end: &str,
    told: &str,
) -> Result<(), Fail> {
    let catalog = wide_catalog(rt.alloc(), distribution)?;
    let query = wide_query(rt.alloc(), end)?;
    assert_query_fault(rt, catalog.as_bytes(), query.as_bytes(), told)
}

#[test]
fn a_query_has_at_most_60_hashed_lists_and_orders(rt: HostRuntime) -> Result<(), Fail> {
    assert_wide_fault(&rt, r#"["c0","c1"]"#, "", "too many hashed lists: 61")?;
    assert_wide_fault(
        &rt,
        r#""random""#,
        " ORDER BY a.c0, a.c1",
        "too many orders: 61",
    )
}
