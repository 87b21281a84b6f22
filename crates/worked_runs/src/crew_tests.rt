//! What the program prints by one worker and by several.
use crate::join_tests::JOINED;
use crate::runs::{
    EMPTY, EMPTY_MEMO, EMPTY_PLAN, JOIN, PLAN, TWO_TABLES, assert_printed, assert_sections, noted,
    printed,
};
use orca_cli::Status;
use std::alloc::AllocGlobal;
use std::process::Abort;
use std::sync::Wait;
use std::test::Fail;
use std::thread::Threads;
use worked_queries::{SCAN_BY_WORKER, SCAN_TRACE};

#[test]
fn one_worker_prints_all_sections(rt: HostRuntime) -> Result<(), Fail> {
    let words = "plan c.json q.sql --memo --trace --by-worker";
    let sections = [EMPTY_PLAN, EMPTY_MEMO, SCAN_TRACE, SCAN_BY_WORKER];
    assert_sections(&rt, words, &sections)?;
    let (_, note) = noted(&rt, words, EMPTY.as_bytes(), b"SELECT a FROM t")?;
    assert!(rt; note == Some((131_072, 1, 8)));
    Ok(())
}

// Asserts that so many workers print this plan, memo and trace of the running example.
fn assert_printed_by<R: Threads + Wait + Sync + AllocGlobal + Abort>(
    rt: &R,
    workers: &str,
    text: &str,
) -> Result<(), Fail> {
    let words = [PLAN, " --memo --trace --workers ", workers].concat(rt.alloc())?;
    let (catalog, query) = (TWO_TABLES.as_bytes(), JOIN.as_bytes());
    assert_printed(rt, &words, catalog, query, Status::Planned, text)
}

#[test]
fn any_number_of_workers_prints_the_same(rt: HostRuntime) -> Result<(), Fail> {
    let alone = printed(
        &rt,
        "plan c.json q.sql --memo --trace --workers 1",
        TWO_TABLES.as_bytes(),
        JOIN.as_bytes(),
        Status::Planned,
    )?;
    for workers in ["2", "8", "64"] {
        assert_printed_by(&rt, workers, alone.as_str())?;
    }
    Ok(())
}

// Asserts that this is printed of the running example by so many workers with this capacity.
fn assert_printed_within<R: Threads + Wait + Sync + AllocGlobal + Abort>(
    rt: &R,
    workers: &str,
    capacity: &str,
    wanted: Status,
    text: &str,
) -> Result<(), Fail> {
    let parts = [PLAN, " --capacity ", capacity, " --workers ", workers];
    let words = parts.concat(rt.alloc())?;
    let (catalog, query) = (TWO_TABLES.as_bytes(), JOIN.as_bytes());
    assert_printed(rt, &words, catalog, query, wanted, text)
}

#[test]
fn a_query_with_more_entries_than_the_capacity_is_refused(rt: HostRuntime) -> Result<(), Fail> {
    for workers in ["1", "8"] {
        assert_printed_within(&rt, workers, "79", Status::Planned, JOINED)?;
        let full = "too many entries: capacity 78\n";
        assert_printed_within(&rt, workers, "78", Status::TooManyEntries, full)?;
    }
    Ok(())
}

#[test]
fn the_note_has_what_the_words_choose(rt: HostRuntime) -> Result<(), Fail> {
    let two = "plan c.json q.sql --workers 2";
    let (_, note) = noted(&rt, two, TWO_TABLES.as_bytes(), JOIN.as_bytes())?;
    assert!(rt; note == Some((131_072, 2, 66)));
    let (status, note) = noted(&rt, two, TWO_TABLES.as_bytes(), b"SELECT z FROM T1")?;
    assert!(rt; status == Status::QueryRefused);
    assert!(rt; note.is_none());
    Ok(())
}
