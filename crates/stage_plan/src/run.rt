//! A query planned in stages.
ghost use Rattle.std.specs.Prelude.{◌≡◌, ◌≤◌, ◌^◌, IfOk, length};
ghost use Rattle.request_props.specs.Numbered.{IsProps};
ghost use Rattle.stage_plan.specs.StagedRuns.{IsStagedRun};

use crate::search::search_stage;
use crate::so_far::SoFar;
use crate::staged::StagedRun;
use orca_io::Gate;
use query_core::Query;
use query_stage::Stage;
use request_props::Props;
use std::alloc::{AllocError, Global};
use std::sync::Wait;
use std::thread::Threads;

/// Plans the query in stages, one after the other, until the plan of one is enough or the query has more than `capacity`
/// members and goals in one. The rules that are off in the query itself don't count, and are off again on every return.
/// One worker searches alone; more are a crew, each in a thread of its own, which passes the gate before each of its
/// steps. It may wait. Each search has a note of its own.
pub fn run_stages<R: Threads + Wait + Sync, G: Gate>(
    rt: &R,
    alloc: Global,
    query: &mut Query,
    props: &Props,
    stages: &[Stage],
    capacity: u32,
    workers: u32,
    gate: &G,
) -> Result<StagedRun, AllocError>
    requires props { IsProps query.old props.now }
    requires stages { (1 ≤ length stages.now) × (length stages.now ≤ 8) }
    requires capacity { (1 ≤ capacity) × (capacity ≤ 2 ^ 20) }
    requires workers { (1 ≤ workers) × (workers ≤ 64) }
    ensures run { IfOk result (IsStagedRun query.old capacity stages.now) }
    ensures same { query.new ≡ query.old }
{
    let mut so_far = SoFar::new(alloc);
    for (number, stage) in stages.iter().enumerate() {
        let found = search_stage(rt, alloc, query, props, *stage, capacity, workers, gate)?;
        if let Some(found) = so_far.take_in(alloc, *stage, number as u32, found)? {
            return Ok(StagedRun {
                found,
                ran: so_far.ran,
            });
        }
    }
    Ok(so_far.end())
}
