//! What is printed of a query that is planned in stages.
use crate::runs::{JOIN, TWO_TABLES, assert_printed, printed, run_over, shelf_of, words_of};
use crate::tests::alone;
use orca_cli::Status;
use orca_io::MemSink;
use std::alloc::AllocGlobal;
use std::process::Abort;
use std::sync::Wait;
use std::test::Fail;
use std::thread::Threads;
use test_gates::MeetingGate;

const HASH_JOIN: &str = "cost 7506
output T1.a
GatherMerge(T1.a) rows=1000 cost=3001
  Sort(T1.a) rows=1000 cost=2001
    HashJoin(colocated p0) rows=1000 cost=1001
      Scan(T1) rows=1000 cost=251
      Redistribute(T2.b) rows=1000 cost=1001
        Scan(T2) rows=1000 cost=251
";

const LOOP_JOIN: &str = "cost 259506
output T1.a
GatherMerge(T1.a) rows=1000 cost=3001
  Sort(T1.a) rows=1000 cost=2001
    LoopJoin(copied) rows=1000 cost=250001
      Scan(T1) rows=1000 cost=251
      Broadcast rows=1000 cost=4001
        Scan(T2) rows=1000 cost=251
";

// Asserts that the join of two tables ends so in these stages, by one worker and by eight.
fn assert_staged<R: Threads + Wait + Sync + AllocGlobal + Abort>(
    rt: &R,
    stages: &str,
    status: Status,
    text: &str,
) -> Result<(), Fail> {
    for workers in ["1", "8"] {
        let line = ["stages c.json q.sql ", stages, " --workers ", workers].concat(rt.alloc())?;
        let (catalog, query) = (TWO_TABLES.as_bytes(), JOIN.as_bytes());
        assert_printed(rt, &line, catalog, query, status, text)?;
    }
    Ok(())
}

#[test]
fn a_plan_that_is_not_enough_leads_to_the_next_stage(rt: HostRuntime) -> Result<(), Fail> {
    let text = [
        "stages ran=2\nstage 0 cost 259506\nstage 1 cost 7506\n",
        HASH_JOIN,
    ]
    .concat(rt.alloc())?;
    assert_staged(
        &rt,
        "JoinToHash+JoinToMerge@7000,all",
        Status::Planned,
        &text,
    )
}

#[test]
fn a_plan_below_the_threshold_is_enough(rt: HostRuntime) -> Result<(), Fail> {
    let text = ["stages ran=1\nstage 0 cost 259506\n", LOOP_JOIN].concat(rt.alloc())?;
    assert_staged(
        &rt,
        "JoinToHash+JoinToMerge@300000,all",
        Status::Planned,
        &text,
    )
}

#[test]
fn a_cost_at_the_threshold_is_not_enough(rt: HostRuntime) -> Result<(), Fail> {
    let text = [
        "stages ran=2\nstage 0 cost 7506\nstage 1 cost 9257\n",
        HASH_JOIN,
    ]
    .concat(rt.alloc())?;
    assert_staged(&rt, "all@7506,JoinToHash", Status::Planned, &text)
}

#[test]
fn a_stage_may_have_no_plan(rt: HostRuntime) -> Result<(), Fail> {
    let text = "stages ran=1\nstage 0 no plan\nno plan\n";
    assert_staged(
        &rt,
        "JoinToHash+JoinToMerge+JoinToLoop",
        Status::NoPlan,
        text,
    )
}

#[test]
fn a_stage_without_room_is_told_alone(rt: HostRuntime) -> Result<(), Fail> {
    let text = "too many entries: capacity 78\n";
    assert_staged(&rt, "all --capacity 78", Status::TooManyEntries, text)?;
    // The first stage has room, and the second one has none.
    let line = "JoinCommute+JoinToHash+JoinToMerge@7000,all --capacity 78";
    assert_staged(&rt, line, Status::TooManyEntries, text)
}

#[test]
fn what_plan_refuses_stages_refuse(rt: HostRuntime) -> Result<(), Fail> {
    let line = "stages c.json q.sql all";
    let (catalog, query) = (TWO_TABLES.as_bytes(), JOIN.as_bytes());
    let text = "catalog refused: not JSON\n";
    assert_printed(&rt, line, b"{", query, Status::CatalogRefused, text)?;
    let text = "query refused: unknown table at 14\n";
    assert_printed(
        &rt,
        line,
        catalog,
        b"SELECT a FROM t",
        Status::QueryRefused,
        text,
    )
}

#[test]
fn a_wrong_word_of_stages_is_no_command(rt: HostRuntime) -> Result<(), Fail> {
    for stages in [
        "all@0",
        "all,",
        "ExpandNAry",
        "all@100000000000000001",
        "all,all,all,all,all,all,all,all,all",
    ] {
        let line = ["stages c.json q.sql ", stages].concat(rt.alloc())?;
        let told = printed(
            &rt,
            &line,
            TWO_TABLES.as_bytes(),
            JOIN.as_bytes(),
            Status::Usage,
        )?;
        assert!(rt; told.starts_with("usage: orca plan "), "{stages}");
    }
    Ok(())
}

#[test]
fn stages_are_not_for_one_worker_alone(rt: HostRuntime) -> Result<(), Fail> {
    let words = words_of(rt.alloc(), "stages c.json q.sql all")?;
    let mut shelf = shelf_of(rt.alloc(), TWO_TABLES.as_bytes(), JOIN.as_bytes())?;
    let mut sink = MemSink::with_room(rt.alloc(), 4096)?;
    assert!(rt; alone(rt.alloc(), &words, &mut shelf, &mut sink).is_none());
    Ok(())
}

#[test]
fn two_workers_of_a_stage_meet(rt: HostRuntime) -> Result<(), Fail> {
    let gate = MeetingGate::new();
    let mut shelf = shelf_of(rt.alloc(), TWO_TABLES.as_bytes(), JOIN.as_bytes())?;
    let mut sink = MemSink::with_room(rt.alloc(), 1 << 20)?;
    let line = "stages c.json q.sql all --workers 2";
    let (status, note) = run_over(&rt, line, &mut shelf, &mut sink, &gate)?;
    assert!(rt; status == Status::Planned && note.is_none());
    assert!(rt; gate.have_met());
    Ok(())
}
