//! Runs of the top call over two files in memory.
use orca_cli::{RunNote, Status, orca_run};
use orca_io::{Gate, MemShelf, MemSink, NoGate};
use std::alloc::{AllocError, AllocGlobal, Global};
use std::process::Abort;
use std::sync::Wait;
use std::test::Fail;
use std::thread::Threads;

/// Two tables, each hashed on a.
pub const TWO_TABLES: &str = r#"{"version":1,"segments":4,"tables":[
{"name":"T1","rows":1000,"distribution":["a"],"columns":[{"name":"a","ndv":1000}]},
{"name":"T2","rows":1000,"distribution":["a"],"columns":[{"name":"a","ndv":1000},{"name":"b","ndv":500}]}]}"#;

/// The running example, over these two tables.
pub const JOIN: &str = "SELECT T1.a FROM T1, T2 WHERE T1.a = T2.b ORDER BY T1.a";

/// A table of 1,000 rows.
pub const ONE_TABLE: &str = r#"{"version":1,"segments":4,"tables":[
{"name":"t","rows":1000,"distribution":"random","columns":[{"name":"a","ndv":1000},{"name":"b","ndv":10}]}]}"#;

/// The plan of `SELECT a FROM t ORDER BY a` over it.
pub const SORTED: &str = "cost 5253
output t.a
GatherMerge(t.a) rows=1000 cost=3001
  Sort(t.a) rows=1000 cost=2001
    Scan(t) rows=1000 cost=251
";

/// Two tables that no predicate links.
pub const UNLINKED: &str = r#"{"version":1,"segments":4,"tables":[
{"name":"t","rows":100,"distribution":"random","columns":[{"name":"a","ndv":100}]},
{"name":"u","rows":10,"distribution":"random","columns":[{"name":"b","ndv":10}]}]}"#;

/// A table without rows.
pub const EMPTY: &str = r#"{"version":1,"segments":4,"tables":[
{"name":"t","rows":0,"distribution":"random","columns":[{"name":"a","ndv":1000},{"name":"b","ndv":10}]}]}"#;

/// What is printed for `SELECT a FROM t` over it: the plan and the memo.
pub const EMPTY_PLAN: &str = "cost 2
output t.a
Gather rows=0 cost=1
  Scan(t) rows=0 cost=1
";

pub const EMPTY_MEMO: &str = "memo groups=1 members=2
group Get(t) rows=0
  Get(t)
  Scan(t)
";

/// The words of a line, between single spaces; an empty line has none.
pub fn words_of(alloc: Global, line: &str) -> Result<Vec<String>, AllocError> {
    let mut words = Vec::new(alloc);
    if !line.is_empty() {
        for word in line.split(' ') {
            words.push(String::from_str(alloc, word)?)?;
        }
    }
    Ok(words)
}

pub fn shelf_of(alloc: Global, catalog: &[u8], query: &[u8]) -> Result<MemShelf, AllocError> {
    let mut shelf = MemShelf::new(alloc);
    shelf.put_file("c.json", catalog)?;
    shelf.put_file("q.sql", query)?;
    Ok(shelf)
}

/// The words of a plan of `q.sql` over `c.json`.
pub const PLAN: &str = "plan c.json q.sql";

/// The status and the text of the words of a line over the two files `c.json` and `q.sql`.
pub fn answered<R: Threads + Wait + Sync + AllocGlobal>(
    rt: &R,
    line: &str,
    catalog: &[u8],
    query: &[u8],
) -> Result<(Status, MemSink), AllocError> {
    let mut shelf = shelf_of(rt.alloc(), catalog, query)?;
    let mut sink = MemSink::with_room(rt.alloc(), 1 << 20)?;
    let (status, _) = run_over(rt, line, &mut shelf, &mut sink, &NoGate)?;
    Ok((status, sink))
}

/// What the sink took, where the status is the one that is wanted; else a line that no run prints.
pub fn text_at(
    alloc: Global,
    status: Status,
    wanted: Status,
    sink: &MemSink,
) -> Result<String, Fail> {
    if status != wanted {
        return Ok(String::from_str(alloc, "another status")?);
    }
    Ok(String::from_str(alloc, str::from_utf8(sink.taken())?)?)
}

/// The text of the words of a line over the two files, where they end with the status; else a line that no run prints.
pub fn printed<R: Threads + Wait + Sync + AllocGlobal>(
    rt: &R,
    line: &str,
    catalog: &[u8],
    query: &[u8],
    wanted: Status,
) -> Result<String, Fail> {
    let (status, sink) = answered(rt, line, catalog, query)?;
    text_at(rt.alloc(), status, wanted, &sink)
}

/// Asserts that the words of a line over the two files end with the status, and print this text.
pub fn assert_printed<R: Threads + Wait + Sync + AllocGlobal + Abort>(
    rt: &R,
    line: &str,
    catalog: &[u8],
    query: &[u8],
    wanted: Status,
    text: &str,
) -> Result<(), Fail> {
    let told = printed(rt, line, catalog, query, wanted)?;
    assert_told(rt, &told, text, line);
    Ok(())
}

/// Asserts what was told where this stood.
pub fn assert_told(rt: &impl Abort, told: &str, wanted: &str, of: &str) {
    assert!(rt; told == wanted, "{of}: {told}, not {wanted}");
}

/// Asserts that the words of a line print these sections for `SELECT a FROM t` over the table without rows.
pub fn assert_sections<R: Threads + Wait + Sync + AllocGlobal + Abort>(
    rt: &R,
    line: &str,
    sections: &[&str],
) -> Result<(), Fail> {
    let text = sections.concat(rt.alloc())?;
    assert_printed(
        rt,
        line,
        EMPTY.as_bytes(),
        b"SELECT a FROM t",
        Status::Planned,
        &text,
    )
}

/// Asserts that this text is printed for a plan of the query.
pub fn assert_planned<R: Threads + Wait + Sync + AllocGlobal + Abort>(
    rt: &R,
    catalog: &str,
    query: &str,
    text: &str,
) -> Result<(), Fail> {
    let (catalog, query) = (catalog.as_bytes(), query.as_bytes());
    assert_printed(rt, PLAN, catalog, query, Status::Planned, text)
}

/// Asserts that each query has the plan below it; empty lines part the plans from the queries that follow.
pub fn assert_plans<R: Threads + Wait + Sync + AllocGlobal + Abort>(
    rt: &R,
    catalog: &str,
    plans: &str,
) -> Result<(), Fail> {
    for part in plans.split("\n\n") {
        let (query, plan) = part.split_once('\n').ok_or("a plan is below its query")?;
        let text = [plan, "\n"].concat(rt.alloc())?;
        assert_planned(rt, catalog, query, &text)?;
    }
    Ok(())
}

/// The status and the note of the words of a line over a shelf and a sink, whose workers pass the gate.
pub fn run_over<R: Threads + Wait + Sync + AllocGlobal, G: Gate>(
    rt: &R,
    line: &str,
    shelf: &mut MemShelf,
    sink: &mut MemSink,
    gate: &G,
) -> Result<(Status, Option<(u32, u32, u32)>), AllocError> {
    let words = words_of(rt.alloc(), line)?;
    let mut note = RunNote::new();
    let status = orca_run(rt, rt.alloc(), &words, shelf, sink, gate, &mut note);
    Ok((status, note.last()))
}

/// Asserts that the query of these two files is refused for this cause.
pub fn assert_query_fault<R: Threads + Wait + Sync + AllocGlobal + Abort>(
    rt: &R,
    catalog: &[u8],
    query: &[u8],
    told: &str,
) -> Result<(), Fail> {
    let text = ["query refused: ", told, "\n"].concat(rt.alloc())?;
    assert_printed(rt, PLAN, catalog, query, Status::QueryRefused, &text)
}

/// Asserts that the catalogue of these two files is refused for this cause.
pub fn assert_catalog_fault<R: Threads + Wait + Sync + AllocGlobal + Abort>(
    rt: &R,
    catalog: &[u8],
    query: &[u8],
    told: &str,
) -> Result<(), Fail> {
    let text = ["catalog refused: ", told, "\n"].concat(rt.alloc())?;
    assert_printed(rt, PLAN, catalog, query, Status::CatalogRefused, &text)
}

/// The status and the note of the words of a line over the two files `c.json` and `q.sql`.
pub fn noted<R: Threads + Wait + Sync + AllocGlobal>(
    rt: &R,
    line: &str,
    catalog: &[u8],
    query: &[u8],
) -> Result<(Status, Option<(u32, u32, u32)>), AllocError> {
    let mut shelf = shelf_of(rt.alloc(), catalog, query)?;
    let mut sink = MemSink::with_room(rt.alloc(), 1 << 20)?;
    run_over(rt, line, &mut shelf, &mut sink, &NoGate)
}
