//! Many queries over one crew.
ghost use Rattle.std.specs.Prelude.{◌*◌, ◌≤◌, ◌^◌, IfOk, length};
ghost use Rattle.batch_search.specs.Batches.{AreProps, EndsBatch};

use crate::outcome::ListedOutcome;
use crate::queries::QueryBatch;
use batch_pool::run_all;
use orca_base::List;
use orca_io::Gate;
use query_core::Query;
use request_props::Props;
use std::alloc::{AllocError, Global};
use std::sync::Wait;
use std::thread::Threads;

/// What the search of each query gave, and the number of the worker that searched it.
#[derive(Drop)]
pub struct BatchRun {
    pub outcomes: List<ListedOutcome>,
    pub taken: List<u32>,
}

/// Searches each query by itself, on a board of at most `capacity` cells, by one of the workers. These take queries while
/// there are any, each in a thread of its own, and pass the gate before each. It may wait.
pub fn run_batch<R: Threads + Wait + Sync, G: Gate>(
    rt: &R,
    alloc: Global,
    queries: &[Query],
    props: &[Props],
    capacity: u32,
    workers: u32,
    gate: &G,
) -> Result<BatchRun, AllocError>
    requires few { length queries.now ≤ 1000 }
    requires props { AreProps queries.now props.now }
    requires capacity { (1 ≤ capacity) × (capacity ≤ 2 ^ 20) }
    requires workers { (1 ≤ workers) × (workers ≤ 64) }

    // How many cells the boards of all workers have at once, and how many entries all outcomes together.
    requires boards { workers * capacity ≤ 8388608 }
    requires entries { length queries.now * capacity ≤ 67108864 }
    ensures { IfOk result (EndsBatch queries.now capacity workers) }
{
    let batch = QueryBatch {
        queries,
        props,
        capacity,
    };
    let run = run_all(rt, alloc, &batch, workers, gate)?;
    Ok(BatchRun {
        outcomes: List::of(run.outputs),
        taken: List::of(run.taken),
    })
}
