//! The search of one stage.
ghost use Rattle.std.specs.Prelude.{◌≡◌, ◌≤◌, ◌^◌, IfOk};
ghost use Rattle.request_props.specs.Numbered.{IsProps};
ghost use Rattle.job_engine.specs.Runs.{RunEnds};
ghost use Rattle.stage_plan.specs.SoFar.{IsFoundWithin, IsFoundIn};

use crate::laws::stages_share_props;
use job_engine::{Outcome, RunNote, search_alone, search_by_crew};
use job_outcome::entries_fit_or_not;
use orca_io::Gate;
use plan_report::extract;
use plan_tree::Found;
use query_core::Query;
use query_stage::Stage;
use request_props::Props;
use std::alloc::{AllocError, Global};
use std::sync::Wait;
use std::thread::Threads;

/// The least plan of the query in the stage, or that there is none; nothing where the query has too many entries.
pub fn search_stage<R: Threads + Wait + Sync, G: Gate>(
    rt: &R,
    alloc: Global,
    query: &mut Query,
    props: &Props,
    stage: Stage,
    capacity: u32,
    workers: u32,
    gate: &G,
) -> Result<Option<Found>, AllocError>
    requires props { IsProps query.old props.now }
    requires capacity { (1 ≤ capacity) × (capacity ≤ 2 ^ 20) }
    requires workers { (1 ≤ workers) × (workers ≤ 64) }
    ensures found { IfOk result (IsFoundIn query.old capacity stage) }
    ensures same { query.new ≡ query.old }
{
    // For the proof: what was collected of the query holds of it in the stage.
    stages_share_props();
    let off = query.options.off;
    query.options.off = stage.off;
    let found = find(rt, alloc, query, props, capacity, workers, gate);
    query.options.off = off;
    found
}

// The same of the query as it is.
fn find<R: Threads + Wait + Sync, G: Gate>(
    rt: &R,
    alloc: Global,
    query: &Query,
    props: &Props,
    capacity: u32,
    workers: u32,
    gate: &G,
) -> Result<Option<Found>, AllocError>
    requires props { IsProps query.now props.now }
    requires capacity { (1 ≤ capacity) × (capacity ≤ 2 ^ 20) }
    requires workers { (1 ≤ workers) × (workers ≤ 64) }
    ensures { IfOk result (IsFoundWithin query.now capacity) }
{
    // For the proof: where all entries fit there aren't more.
    entries_fit_or_not();
    match search(rt, alloc, query, props, capacity, workers, gate)? {
        Outcome::Done(searched) => Ok(Some(extract(alloc, query, props, &searched)?)),
        Outcome::Full { .. } => Ok(None),
        Outcome::Unfinished { .. } => unreachable!(),
    }
}

// The search by one worker, or by a crew where there are more.
fn search<R: Threads + Wait + Sync, G: Gate>(
    rt: &R,
    alloc: Global,
    query: &Query,
    props: &Props,
    capacity: u32,
    workers: u32,
    gate: &G,
) -> Result<Outcome, AllocError>
    requires props { IsProps query.now props.now }
    requires capacity { (1 ≤ capacity) × (capacity ≤ 2 ^ 20) }
    requires workers { (1 ≤ workers) × (workers ≤ 64) }
    ensures { IfOk result (RunEnds query.now capacity workers) }
{
    let mut note = RunNote::new();
    if workers == 1 {
        search_alone(alloc, query, props, capacity, &mut note)
    } else {
        search_by_crew(rt, alloc, query, props, capacity, workers, gate, &mut note)
    }
}
