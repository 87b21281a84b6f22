//! Batches of queries: each outcome is what a search of its query alone gives.

ghost use Rattle.std.specs.Prelude.{◌≤◌, IfOk};
ghost use Rattle.batch_search.specs.Batches.{AreProps};

use batch_search::{ListedOutcome, run_batch};
use job_engine::{Outcome, RunNote, search_alone};
use job_outcome::Lists;
use orca_io::{Gate, NoGate};
use query_core::Query;
use request_props::Props;
use std::alloc::{AllocError, Global};
use std::sync::Wait;
use std::test::Fail;
use std::thread::Threads;
use test_gates::MeetingGate;
use worked_queries::{chain, one_table, sorted_table, star_of_four, two_tables};

// Room for the members and goals of two joined tables, and not for those of four.
const ROOM: u32 = 128;

// What each query implies.
fn props_of_all(alloc: Global, queries: &[Query]) -> Result<Vec<Props>, Fail>
    ensures { IfOk result (λ props. AreProps queries.now props.items) }
{
    let mut all = Vec::new(alloc);
    for query in queries {
        all.push(Props::collect(alloc, query)?)?;
    }
    Ok(all)
}

// Whether two lists are the same.
fn are_alike(one: &Lists, other: &Lists) -> bool {
    one.members.as_slice() == other.members.as_slice()
        && one.goals.as_slice() == other.goals.as_slice()
        && one.answers.list.as_slice() == other.answers.list.as_slice()
}

// Whether both searches found the same members, goals and answers, or neither had room.
fn found_alike(alloc: Global, one: &Outcome, other: &ListedOutcome) -> Result<bool, AllocError> {
    match (one, other) {
        (Outcome::Done(searched), ListedOutcome::Done(lists)) => {
            Ok(are_alike(&searched.lists(alloc)?, lists))
        }
        (Outcome::Full { capacity }, ListedOutcome::Full { capacity: same }) => {
            Ok(capacity == same)
        }
        _ => Ok(false),
    }
}

// Whether a search of the query alone gives the outcome.
fn is_found_alone(alloc: Global, query: &Query, outcome: &ListedOutcome) -> Result<bool, Fail> {
    let props = Props::collect(alloc, query)?;
    let mut note = RunNote::new();
    let alone = search_alone(alloc, query, &props, ROOM, &mut note)?;
    Ok(found_alike(alloc, &alone, outcome)?)
}

// Whether so many workers find of each query what one finds of it alone.
fn finds_each<R: Threads + Wait + Sync, G: Gate>(
    rt: &R,
    alloc: Global,
    queries: &[Query],
    workers: u32,
    gate: &G,
) -> Result<bool, Fail>
    requires { (1 ≤ workers) × (workers ≤ 64) }
{
    if queries.len() > 1000 {
        return Ok(false);
    }
    let props = props_of_all(alloc, queries)?;
    let run = run_batch(rt, alloc, queries, &props, ROOM, workers, gate)?;
    let mut all = run.outcomes.len() == queries.len() && run.taken.len() == queries.len();
    for (query, outcome) in queries.iter().zip(run.outcomes.as_slice()) {
        all = is_found_alone(alloc, query, outcome)? && all;
    }
    Ok(all)
}

// A scan, a sort, two joins, and one with more members and goals than there is room for.
fn some_queries(alloc: Global) -> Result<Vec<Query>, Fail> {
    let mut queries = Vec::new(alloc);
    queries.push(one_table(alloc, 1000)?)?;
    queries.push(star_of_four(alloc)?)?;
    queries.push(two_tables(alloc)?)?;
    queries.push(chain(alloc)?)?;
    queries.push(sorted_table(alloc)?)?;
    Ok(queries)
}

#[test]
fn each_outcome_is_that_of_its_query_alone(rt: HostRuntime) -> Result<(), Fail> {
    let queries = some_queries(rt.alloc())?;
    assert!(rt; finds_each(&rt, rt.alloc(), &queries, 1, &NoGate)?);
    assert!(rt; finds_each(&rt, rt.alloc(), &queries, 2, &NoGate)?);
    assert!(rt; finds_each(&rt, rt.alloc(), &queries, 8, &NoGate)?);
    assert!(rt; finds_each(&rt, rt.alloc(), &[], 8, &NoGate)?);
    Ok(())
}

#[test]
fn two_workers_of_a_batch_of_queries_meet(rt: HostRuntime) -> Result<(), Fail> {
    let mut queries = Vec::new(rt.alloc());
    queries.push(one_table(rt.alloc(), 1000)?)?;
    queries.push(two_tables(rt.alloc())?)?;
    let gate = MeetingGate::new();
    assert!(rt; finds_each(&rt, rt.alloc(), &queries, 2, &gate)?);
    assert!(rt; gate.have_met());
    Ok(())
}
