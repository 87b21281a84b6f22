//! What is printed of a dump, and of its replay: that of the plan.
use crate::runs::{JOIN, PLAN, TWO_TABLES, assert_printed, assert_told, printed};
use orca_cli::Status;
use std::alloc::AllocGlobal;
use std::process::Abort;
use std::sync::Wait;
use std::test::Fail;
use std::thread::Threads;

const DUMP: &str = "dump c.json q.sql";

// A dump of the running example, with the memo.
const JOIN_DUMP: &str = "orca dump 1
capacity 131072
root one
off
print memo
catalog {\"version\":2,\"segments\":4,\"tables\":[\
    {\"name\":\"T1\",\"rows\":1000,\"distribution\":[\"a\"],\"columns\":[{\"name\":\"a\",\"ndv\":1000}]},\
    {\"name\":\"T2\",\"rows\":1000,\"distribution\":[\"a\"],\
    \"columns\":[{\"name\":\"a\",\"ndv\":1000},{\"name\":\"b\",\"ndv\":500}]}]}
query SELECT T1.a FROM T1, T2 WHERE T1.a = T2.b ORDER BY T1.a
";

#[test]
fn a_query_is_dumped(rt: HostRuntime) -> Result<(), Fail> {
    let (catalog, query) = (TWO_TABLES.as_bytes(), JOIN.as_bytes());
    let line = [DUMP, " --memo"].concat(rt.alloc())?;
    assert_printed(&rt, &line, catalog, query, Status::Planned, JOIN_DUMP)
}

// Asserts that the replay of a dump prints what the plan does, by one worker and by eight.
fn assert_replayed<R: Threads + Wait + Sync + AllocGlobal + Abort>(
    rt: &R,
    catalog: &str,
    query: &str,
    options: &str,
) -> Result<(), Fail> {
    let (catalog, query) = (catalog.as_bytes(), query.as_bytes());
    let line = [DUMP, options].concat(rt.alloc())?;
    let dump = printed(rt, &line, catalog, query, Status::Planned)?;
    let line = [PLAN, options].concat(rt.alloc())?;
    let plan = printed(rt, &line, catalog, query, Status::Planned)?;
    for words in ["replay q.sql", "replay q.sql --workers 8"] {
        assert_printed(rt, words, b"", dump.as_bytes(), Status::Planned, &plan)?;
    }
    Ok(())
}

#[test]
fn a_dump_is_replayed_as_it_was_planned(rt: HostRuntime) -> Result<(), Fail> {
    assert_replayed(&rt, TWO_TABLES, JOIN, "")?;
    assert_replayed(&rt, TWO_TABLES, JOIN, " --memo")?;
    assert_replayed(&rt, TWO_TABLES, JOIN, " --memo --trace --capacity 79")?;
    assert_replayed(
        &rt,
        TWO_TABLES,
        JOIN,
        " --root spread --off JoinToHash+JoinCommute",
    )
}

const INDEXED: &str = r#"{"version":1,"segments":4,"tables":[
{"name":"t","rows":1000,"distribution":"random","columns":[{"name":"a","ndv":100}],"indexes":[["a"]]}]}"#;

const HUGE: &str = r#"{"version":1,"segments":4,"tables":[
{"name":"T1","rows":1000000000000,"distribution":"random","columns":[{"name":"a","ndv":1}]},
{"name":"T2","rows":1000000000000,"distribution":"random","columns":[{"name":"b","ndv":1}]}]}"#;

const COPIED: &str = r#"{"version":2,"segments":4,"tables":[
{"name":"b","rows":100000,"distribution":"random","columns":[{"name":"x","ndv":1000}]},
{"name":"s","rows":10,"distribution":"replicated","columns":[{"name":"y","ndv":10}]}]}"#;

const COUNTED: &str = r#"{"version":2,"segments":4,"tables":[
{"name":"t","rows":1000,"distribution":"random","columns":[{"name":"a","ndv":100,
"histogram":{"low":1,"buckets":[{"upto":10,"rows":100},{"upto":100,"rows":900}]}}]}]}"#;

#[test]
fn a_dump_has_all_that_the_plan_depends_on(rt: HostRuntime) -> Result<(), Fail> {
    assert_replayed(&rt, INDEXED, "SELECT a FROM t WHERE a = 5", "")?;
    assert_replayed(
        &rt,
        INDEXED,
        "SELECT a FROM t WHERE a = 5",
        " --off SelectToIndexSeek",
    )?;
    assert_replayed(&rt, HUGE, "SELECT T1.a FROM T1, T2 WHERE T1.a < T2.b", "")?;
    assert_replayed(&rt, COPIED, "SELECT b.x FROM b, s WHERE b.x = s.y", "")?;
    assert_replayed(
        &rt,
        COUNTED,
        "SELECT a\nFROM t\nWHERE a < 5 -- few\n",
        " --memo",
    )
}

// In each row a part of the dump, what stands in its place, and how the replay ends.
const CHANGED: [(&str, &str, Status, &str); 8] = [
    ("1\n", "2\n", Status::DumpRefused, "dump refused: line 0\n"),
    ("one", "one ", Status::DumpRefused, "dump refused: line 2\n"),
    (
        "query",
        "ask",
        Status::DumpRefused,
        "dump refused: line 6\n",
    ),
    (
        "131072",
        "78",
        Status::TooManyEntries,
        "too many entries: capacity 78\n",
    ),
    (
        "\"version\":2",
        "\"version\":3",
        Status::CatalogRefused,
        "catalog refused: version 3\n",
    ),
    (
        "{\"version",
        "[\"version",
        Status::CatalogRefused,
        "catalog refused: not JSON\n",
    ),
    (
        "SELECT",
        "SELEC",
        Status::QueryRefused,
        "query refused: grammar at 0\n",
    ),
    (
        "T1.a FROM",
        "T1.b FROM",
        Status::QueryRefused,
        "query refused: unknown column at 7\n",
    ),
];

#[test]
fn the_first_thing_that_is_wrong_in_a_dump_is_told(rt: HostRuntime) -> Result<(), Fail> {
    for (old, new, status, text) in &CHANGED {
        let dump = JOIN_DUMP.replacen(rt.alloc(), *old, *new, 1)?;
        let told = printed(&rt, "replay q.sql", b"", dump.as_bytes(), *status)?;
        assert_told(&rt, &told, text, new);
    }
    let empty = printed(&rt, "replay q.sql", b"", b"", Status::DumpRefused)?;
    assert_told(&rt, &empty, "dump refused: line 0\n", "an empty file");
    Ok(())
}

#[test]
fn a_dump_is_refused_as_its_plan_is(rt: HostRuntime) -> Result<(), Fail> {
    let catalog = TWO_TABLES.as_bytes();
    for (query, text) in [
        (
            "SELECT T1.z FROM T1",
            "query refused: unknown column at 7\n",
        ),
        ("SELECT a FROM T9", "query refused: unknown table at 14\n"),
        (";", "query refused: grammar at 0\n"),
    ] {
        assert_printed(
            &rt,
            DUMP,
            catalog,
            query.as_bytes(),
            Status::QueryRefused,
            text,
        )?;
    }
    assert_printed(
        &rt,
        DUMP,
        b"[]",
        JOIN.as_bytes(),
        Status::CatalogRefused,
        "catalog refused: shape at \n",
    )
}
