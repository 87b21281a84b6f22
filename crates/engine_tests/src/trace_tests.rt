//! The traces of two queries: a table that is read, and a join in the order of a column.

ghost use Rattle.request_props.specs.Numbered.{IsProps};

use crate::searches::search;
use goal_children::goal_lists_are_known;
use job_trace::{crew_text, trace_text};
use query_core::Query;
use request_props::Props;
use std::alloc::Global;
use std::test::Fail;
use worked_queries::{SCAN_BY_WORKER, SCAN_TRACE, implied, one_table, two_tables};
use xform_rules::members_are_known;

// The trace over all members and goals of the query.
fn trace_of(alloc: Global, query: Result<Query, Fail>) -> Result<Vec<u8>, Fail> {
    let (query, props) = implied(alloc, query?)?;
    trace_over(alloc, &query, &props)
}

fn trace_over(alloc: Global, query: &Query, props: &Props) -> Result<Vec<u8>, Fail>
    requires { IsProps query.now props.now }
{
    // For the proof: members are words of candidates, and goals those of goals over the query.
    members_are_known();
    goal_lists_are_known();
    let found = search(alloc, query, props)?;
    let members = found.members.as_slice();
    Ok(trace_text(alloc, query, props, members, found.goals.as_slice())?)
}

// The goals by worker, where one worker finished them all.
fn crew_of_one(alloc: Global, query: Result<Query, Fail>) -> Result<Vec<u8>, Fail> {
    let (query, props) = implied(alloc, query?)?;
    crew_over(alloc, &query, &props)
}

fn crew_over(alloc: Global, query: &Query, props: &Props) -> Result<Vec<u8>, Fail>
    requires { IsProps query.now props.now }
{
    // For the proof: goals of the query are goals over it.
    goal_lists_are_known();
    let found = search(alloc, query, props)?;
    let who = vec![in alloc; 0u32; found.goals.len()]?;
    Ok(crew_text(alloc, query, props, found.goals.as_slice(), &who)?)
}

#[test]
fn a_table_that_is_read_has_eight_goals(rt: HostRuntime) -> Result<(), Fail> {
    let trace = trace_of(rt.alloc(), one_table(rt.alloc(), 0))?;
    assert!(rt; trace.as_slice() == SCAN_TRACE.as_bytes());
    Ok(())
}

#[test]
fn one_worker_finishes_the_eight_goals(rt: HostRuntime) -> Result<(), Fail> {
    let crew = crew_of_one(rt.alloc(), one_table(rt.alloc(), 0))?;
    assert!(rt; crew.as_slice() == SCAN_BY_WORKER.as_bytes());
    Ok(())
}

const ROOT: &str = "
Opt Join(T1, T2) [One; T1.a]
  Imp Join(T1, T2)
  Opt Join(T1, T2) [One]
  Opt Join(T1, T2) [Spread; T1.a]
  OptE MergeJoin(T1 | T2) [One; T1.a]
  OptE LoopJoin(T1 | T2) [One; T1.a]
";

#[test]
fn a_sorted_join_has_66_goals(rt: HostRuntime) -> Result<(), Fail> {
    let trace = trace_of(rt.alloc(), two_tables(rt.alloc()))?;
    let text = str::from_utf8(trace.as_slice())?;
    let first = "trace goals=66 exp=3 expe=5 xf=11 imp=3 impe=5 opt=20 opte=19\n";
    assert!(rt; text.starts_with(first) && text.contains(ROOT));
    Ok(())
}
