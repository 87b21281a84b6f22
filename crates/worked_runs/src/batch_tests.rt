//! What is printed of a list of queries: each line as a plan of it.
use crate::runs::{
    ONE_TABLE, assert_printed, assert_told, printed, run_over, shelf_of, text_at, words_of,
};
use crate::tests::alone;
use orca_cli::Status;
use orca_io::MemSink;
use std::alloc::{AllocError, AllocGlobal, Global};
use std::process::Abort;
use std::sync::Wait;
use std::test::Fail;
use std::thread::Threads;
use test_gates::MeetingGate;

const BATCH: &str = "batch c.json q.sql";

const TWO: &str = "SELECT a FROM t ORDER BY a\nSELECT z FROM t\n";

// A query with a plan, and one with a column that isn't there.
const TWO_ENDINGS: &str = "batch queries=2
query 0 status 0
cost 5253
output t.a
GatherMerge(t.a) rows=1000 cost=3001
  Sort(t.a) rows=1000 cost=2001
    Scan(t) rows=1000 cost=251
query 1 status 3
query refused: unknown column at 7
";

// Asserts that this is printed of the list by so many workers.
fn assert_batch<R: Threads + Wait + Sync + AllocGlobal + Abort>(
    rt: &R,
    workers: &str,
    list: &str,
    text: &str,
) -> Result<(), Fail> {
    let line = [BATCH, " --workers ", workers].concat(rt.alloc())?;
    let (catalog, list) = (ONE_TABLE.as_bytes(), list.as_bytes());
    assert_printed(rt, &line, catalog, list, Status::Planned, text)
}

#[test]
fn each_query_has_its_number_its_status_and_its_text(rt: HostRuntime) -> Result<(), Fail> {
    assert_batch(&rt, "1", TWO, TWO_ENDINGS)?;
    assert_batch(&rt, "8", TWO, TWO_ENDINGS)
}

#[test]
fn the_last_newline_may_be_absent(rt: HostRuntime) -> Result<(), Fail> {
    assert_batch(&rt, "1", TWO.trim_end(), TWO_ENDINGS)
}

#[test]
fn an_empty_list_has_no_query(rt: HostRuntime) -> Result<(), Fail> {
    assert_batch(&rt, "1", "", "batch queries=0\n")?;
    assert_batch(&rt, "8", "", "batch queries=0\n")
}

// An empty line, a text that is cut off, one with a blank in front of its first word, and a query that is bound.
const FAULTS: &str = "\nSELECT a FROM\n  SELECT a FROM u\nSELECT a FROM t\n";

const FAULT_ENDINGS: &str = "batch queries=4
query 0 status 3
query refused: grammar at 0
query 1 status 3
query refused: grammar at 13
query 2 status 3
query refused: unknown table at 16
query 3 status 0
cost 2252
output t.a
Gather rows=1000 cost=2001
  Scan(t) rows=1000 cost=251
";

#[test]
fn places_of_faults_count_from_the_start_of_their_line(rt: HostRuntime) -> Result<(), Fail> {
    for workers in ["1", "2", "8"] {
        assert_batch(&rt, workers, FAULTS, FAULT_ENDINGS)?;
    }
    Ok(())
}

// Asserts that the words over the list end with the status and this text.
fn assert_ended<R: Threads + Wait + Sync + AllocGlobal + Abort>(
    rt: &R,
    line: &str,
    list: &str,
    status: Status,
    text: &str,
) -> Result<(), Fail> {
    assert_printed(
        rt,
        line,
        ONE_TABLE.as_bytes(),
        list.as_bytes(),
        status,
        text,
    )
}

// So many lines with a query.
fn queries(alloc: Global, count: u32) -> Result<String, AllocError> {
    let mut list = String::new(alloc);
    for _line in 0..count {
        list.push_str("SELECT a FROM t\n")?;
    }
    Ok(list)
}

#[test]
fn a_list_with_too_many_queries_is_refused(rt: HostRuntime) -> Result<(), Fail> {
    let refused = "batch refused: too many queries\n";
    let list = queries(rt.alloc(), 1001)?;
    assert_ended(&rt, BATCH, &list, Status::BatchRefused, refused)?;
    // 65 searches with a million members and goals each.
    let large = "batch c.json q.sql --capacity 1048576";
    let list = queries(rt.alloc(), 65)?;
    assert_ended(&rt, large, &list, Status::BatchRefused, refused)
}

#[test]
fn a_list_that_is_too_long_is_refused(rt: HostRuntime) -> Result<(), Fail> {
    let list = " ".repeat(rt.alloc(), 1_048_577)?;
    let refused = "batch refused: too long\n";
    assert_ended(&rt, BATCH, &list, Status::BatchRefused, refused)
}

#[test]
fn a_catalogue_is_refused_before_the_list_is_read(rt: HostRuntime) -> Result<(), Fail> {
    let text = "catalog refused: not JSON\n";
    assert_printed(&rt, BATCH, b"{", b"", Status::CatalogRefused, text)
}

// Words that are no batch: too many cells for all boards, an option that a batch doesn't take, and one name.
const OTHERS: &str = "batch c.json q.sql --workers 64 --capacity 131073
batch c.json q.sql --by-worker
batch c.json";

#[test]
fn other_words_are_no_batch(rt: HostRuntime) -> Result<(), Fail> {
    for line in OTHERS.split('\n') {
        let told = printed(&rt, line, ONE_TABLE.as_bytes(), b"", Status::Usage)?;
        assert!(rt; told.ends_with("[--memo] [--trace]\n"), "{line}");
    }
    assert_ended(
        &rt,
        "batch c.json q.sql --workers 64 --capacity 131072",
        "",
        Status::Planned,
        "batch queries=0\n",
    )
}

#[test]
fn each_query_has_the_sections_that_are_asked_for(rt: HostRuntime) -> Result<(), Fail> {
    let line = "batch c.json q.sql --memo --root spread --workers 2";
    let text = "batch queries=1
query 0 status 0
cost 251
output t.a
Scan(t) rows=1000 cost=251
memo groups=1 members=2
group Get(t) rows=1000
  Get(t)
  Scan(t)
";
    assert_ended(&rt, line, "SELECT a FROM t\n", Status::Planned, text)
}

#[test]
fn a_query_with_too_many_entries_is_told_so(rt: HostRuntime) -> Result<(), Fail> {
    let line = "batch c.json q.sql --capacity 64 --workers 2";
    let text = "batch queries=2
query 0 status 5
too many entries: capacity 64
query 1 status 0
cost 2252
output t.a
Gather rows=1000 cost=2001
  Scan(t) rows=1000 cost=251
";
    let list = "SELECT t.a FROM t, t u, t v WHERE t.a = u.a AND u.b = v.b\nSELECT a FROM t\n";
    assert_ended(&rt, line, list, Status::Planned, text)
}

#[test]
fn any_number_of_workers_prints_the_same_of_a_list(rt: HostRuntime) -> Result<(), Fail> {
    let list = [queries(rt.alloc(), 60)?.as_str(), TWO, FAULTS].concat(rt.alloc())?;
    let (catalog, list) = (ONE_TABLE.as_bytes(), list.as_bytes());
    let alone = printed(
        &rt,
        "batch c.json q.sql --capacity 64",
        catalog,
        list,
        Status::Planned,
    )?;
    for workers in ["2", "8", "64"] {
        let line = [BATCH, " --capacity 64 --workers ", workers].concat(rt.alloc())?;
        assert_printed(&rt, &line, catalog, list, Status::Planned, &alone)?;
    }
    Ok(())
}

#[test]
fn one_worker_answers_a_list_alone(rt: HostRuntime) -> Result<(), Fail> {
    let words = words_of(rt.alloc(), BATCH)?;
    let mut shelf = shelf_of(rt.alloc(), ONE_TABLE.as_bytes(), TWO.as_bytes())?;
    let mut sink = MemSink::with_room(rt.alloc(), 4096)?;
    let status = alone(rt.alloc(), &words, &mut shelf, &mut sink);
    assert!(rt; status == Some(Status::Planned));
    let text = text_at(rt.alloc(), Status::Planned, Status::Planned, &sink)?;
    assert_told(&rt, &text, TWO_ENDINGS, BATCH);
    Ok(())
}

#[test]
fn two_workers_of_a_list_meet(rt: HostRuntime) -> Result<(), Fail> {
    let gate = MeetingGate::new();
    let mut shelf = shelf_of(rt.alloc(), ONE_TABLE.as_bytes(), TWO.as_bytes())?;
    let mut sink = MemSink::with_room(rt.alloc(), 1 << 20)?;
    let line = "batch c.json q.sql --workers 2";
    let (status, note) = run_over(&rt, line, &mut shelf, &mut sink, &gate)?;
    let text = text_at(rt.alloc(), status, Status::Planned, &sink)?;
    assert!(rt; gate.have_met());
    assert_told(&rt, &text, TWO_ENDINGS, line);
    assert!(rt; note.is_none());
    Ok(())
}
