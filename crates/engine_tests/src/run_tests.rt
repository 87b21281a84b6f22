//! The search of `SELECT t.a FROM t`, where t has no rows and lies at random: two members and eight goals.

ghost use Rattle.std.specs.Prelude.{◌≤◌, ◌^◌};
ghost use Rattle.request_props.specs.Numbered.{IsProps};

use job_engine::{Engine, Outcome, RunNote, run_alone, run_crew};
use job_outcome::Lists;
use orca_io::{Gate, NoGate};
use query_core::Query;
use request_props::Props;
use std::alloc::{AllocError, Global};
use std::sync::Wait;
use std::test::Fail;
use std::thread::Threads;
use worked_queries::{SCAN_ROOT, implied, one_table};

// What a note has of a search: its capacity, its workers and its goals.
type Noted = Option<(u32, u32, u32)>;

// Whether two lists are the same.
fn are_alike(one: &Lists, other: &Lists) -> bool {
    one.members.as_slice() == other.members.as_slice()
        && one.goals.as_slice() == other.goals.as_slice()
        && one.answers.list.as_slice() == other.answers.list.as_slice()
}

// Whether both searches found the same members, goals and answers.
pub fn found_alike(alloc: Global, one: &Outcome, other: &Outcome) -> Result<bool, AllocError> {
    match (one, other) {
        (Outcome::Done(one), Outcome::Done(other)) => {
            Ok(are_alike(&one.lists(alloc)?, &other.lists(alloc)?))
        }
        _ => Ok(false),
    }
}

// The goal that is ready where no worker made a step.
fn ready_at_first(alloc: Global, query: &Query, props: &Props) -> Result<Option<u64>, AllocError>
    requires { IsProps query.now props.now }
{
    let (engine, mut worker) = Engine::start(alloc, query, props, 64)?;
    let other = engine.split(alloc, &mut worker, 63)?;
    engine.join(&mut worker, other);
    match engine.close(worker) {
        Outcome::Unfinished { ready } => Ok(Some(ready)),
        _ => Ok(None),
    }
}

#[test]
fn a_search_without_a_step_is_unfinished(rt: HostRuntime) -> Result<(), Fail> {
    let (query, props) = implied(rt.alloc(), one_table(rt.alloc(), 0)?)?;
    assert_eq!(rt;
        ready_at_first(rt.alloc(), &query, &props)?,
        Some(SCAN_ROOT)
    );
    Ok(())
}

/// What one worker finds, with room for so many entries.
pub fn find_alone(
    alloc: Global,
    query: &Query,
    props: &Props,
    capacity: u32,
    note: &mut RunNote,
) -> Result<Outcome, AllocError>
    requires props { IsProps query.now props.now }
    requires capacity { (1 ≤ capacity) × (capacity ≤ 2 ^ 20) }
{
    let (engine, worker) = Engine::start(alloc, query, props, capacity)?;
    Ok(run_alone(engine, worker, note))
}

/// What two workers find that pass this gate, with room for so many entries.
pub fn find_by_two<R: Threads + Wait + Sync, G: Gate>(
    rt: &R,
    alloc: Global,
    query: &Query,
    props: &Props,
    capacity: u32,
    gate: &G,
    note: &mut RunNote,
) -> Result<Outcome, AllocError>
    requires props { IsProps query.now props.now }
    requires capacity { (1 ≤ capacity) × (capacity ≤ 2 ^ 20) }
{
    let (engine, worker) = Engine::start(alloc, query, props, capacity)?;
    run_crew(rt, alloc, engine, worker, 2, gate, note)
}

// Whether two members and eight goals were found, the root's among these, all by the first worker.
fn is_whole(alloc: Global, outcome: &Outcome) -> Result<bool, AllocError> {
    match outcome {
        Outcome::Done(searched) => {
            let lists = searched.lists(alloc)?;
            Ok(
                lists.members.len() == 2
                    && lists.goals.len() == 8
                    && lists.goals.as_slice().contains(&SCAN_ROOT)
                    && lists.who.as_slice() == [0; 8].as_slice(),
            )
        }
        _ => Ok(false),
    }
}

// Whether two workers find what this outcome has.
fn finds_by_two<R: Threads + Wait + Sync>(
    rt: &R,
    alloc: Global,
    query: &Query,
    props: &Props,
    alone: &Outcome,
    note: &mut RunNote,
) -> Result<bool, AllocError>
    requires { IsProps query.now props.now }
{
    let outcome = find_by_two(rt, alloc, query, props, 64, &NoGate, note)?;
    found_alike(alloc, alone, &outcome)
}

// The notes of a search by one worker and of a search by two, where both find the whole.
fn notes_of_both<R: Threads + Wait + Sync>(
    rt: &R,
    alloc: Global,
    query: &Query,
    props: &Props,
) -> Result<Option<[Noted; 2]>, AllocError>
    requires { IsProps query.now props.now }
{
    let mut note = RunNote::new();
    let alone = find_alone(alloc, query, props, 131_072, &mut note)?;
    let first = note.last();
    let alike = finds_by_two(rt, alloc, query, props, &alone, &mut note)?;
    Ok(if alike && is_whole(alloc, &alone)? {
        Some([first, note.last()])
    } else {
        None
    })
}

#[test]
fn one_worker_and_two_find_the_same(rt: HostRuntime) -> Result<(), Fail> {
    let (query, props) = implied(rt.alloc(), one_table(rt.alloc(), 0)?)?;
    assert!(rt; RunNote::new().last().is_none());
    let notes = notes_of_both(&rt, rt.alloc(), &query, &props)?;
    assert_eq!(rt; notes, Some([Some((131_072, 1, 8)), Some((64, 2, 8))]));
    Ok(())
}

// Whether the entries were found where they fit in, and nine cells were full where they don't.
fn is_done_or_full(outcome: &Outcome, fits: bool) -> bool {
    match outcome {
        Outcome::Done(_) => fits,
        Outcome::Full { capacity } => !fits && *capacity == 9,
        Outcome::Unfinished { .. } => false,
    }
}

// Whether two workers with room for so many entries end so.
fn ends_by_two<R: Threads + Wait + Sync>(
    rt: &R,
    alloc: Global,
    query: &Query,
    props: &Props,
    capacity: u32,
    fits: bool,
) -> Result<bool, AllocError>
    requires props { IsProps query.now props.now }
    requires capacity { (1 ≤ capacity) × (capacity ≤ 2 ^ 20) }
{
    let outcome = find_by_two(
        rt,
        alloc,
        query,
        props,
        capacity,
        &NoGate,
        &mut RunNote::new(),
    )?;
    Ok(is_done_or_full(&outcome, fits))
}

#[test]
fn too_few_cells_are_full(rt: HostRuntime) -> Result<(), Fail> {
    let (query, props) = implied(rt.alloc(), one_table(rt.alloc(), 0)?)?;
    assert!(rt; ends_by_two(&rt, rt.alloc(), &query, &props, 9, false)?);
    assert!(rt; ends_by_two(&rt, rt.alloc(), &query, &props, 10, true)?);
    Ok(())
}
