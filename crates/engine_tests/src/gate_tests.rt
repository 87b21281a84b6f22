//! Two workers of a crew, each in a thread of its own: neither waits for the other's turn to end.

ghost use Rattle.request_props.specs.Numbered.{IsProps};

use crate::run_tests::{find_alone, find_by_two, found_alike};
use job_engine::{Outcome, RunNote};
use query_core::Query;
use request_props::Props;
use std::alloc::{AllocError, Global};
use std::sync::Wait;
use std::test::Fail;
use std::thread::Threads;
use test_gates::{HoldingGate, MeetingGate};
use worked_queries::{implied, two_tables};

// Whether one worker finds what this outcome has.
fn is_found_alone(
    alloc: Global,
    query: &Query,
    props: &Props,
    outcome: &Outcome,
    note: &mut RunNote,
) -> Result<bool, AllocError>
    requires { IsProps query.now props.now }
{
    let alone = find_alone(alloc, query, props, 131_072, note)?;
    found_alike(alloc, &alone, outcome)
}

// Whether two workers meet, and find what one finds.
fn meet_and_find<R: Threads + Wait + Sync>(
    rt: &R,
    alloc: Global,
    query: &Query,
    props: &Props,
) -> Result<bool, AllocError>
    requires { IsProps query.now props.now }
{
    let gate = MeetingGate::new();
    let mut note = RunNote::new();
    let outcome = find_by_two(rt, alloc, query, props, 131_072, &gate, &mut note)?;
    Ok(gate.have_met() && is_found_alone(alloc, query, props, &outcome, &mut note)?)
}

#[test]
fn two_workers_of_a_crew_meet(rt: HostRuntime) -> Result<(), Fail> {
    let (query, props) = implied(rt.alloc(), two_tables(rt.alloc())?)?;
    assert!(rt; meet_and_find(&rt, rt.alloc(), &query, &props)?);
    Ok(())
}

// Whether the worker finished a goal.
fn has_finished(alloc: Global, outcome: &Outcome, worker: u32) -> Result<bool, AllocError> {
    match outcome {
        Outcome::Done(searched) => Ok(searched.lists(alloc)?.who.as_slice().contains(&worker)),
        _ => Ok(false),
    }
}

// Whether one worker is held until the other let it go, which finished a goal.
fn goes_on_beside<R: Threads + Wait + Sync>(
    rt: &R,
    alloc: Global,
    query: &Query,
    props: &Props,
    held: u32,
    other: u32,
) -> Result<bool, AllocError>
    requires { IsProps query.now props.now }
{
    let gate = HoldingGate::of(held);
    let mut note = RunNote::new();
    let outcome = find_by_two(rt, alloc, query, props, 128, &gate, &mut note)?;
    Ok(gate.was_let_go() && has_finished(alloc, &outcome, other)?)
}

#[test]
fn a_worker_goes_on_while_the_other_is_held(rt: HostRuntime) -> Result<(), Fail> {
    let (query, props) = implied(rt.alloc(), two_tables(rt.alloc())?)?;
    for (held, other) in [(0, 1), (1, 0)] {
        assert!(rt;
            goes_on_beside(&rt, rt.alloc(), &query, &props, held, other)?,
            "{held}"
        );
    }
    Ok(())
}
