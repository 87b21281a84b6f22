//! A batch of items, run by a crew of threads.
ghost use Rattle.std.specs.Prelude.{◌≤◌, IfOk};
ghost use Rattle.batch_pool.specs.Runs.{IsRunOf, IsNewWorker, Returns};

use crate::batch::Batch;
use crate::crew::{gather, hire};
use crate::places::{PoolRun, outputs_of, place_all};
use crate::queue::ItemQueue;
use crate::worker::{Worker, WorkerRun, run_until_empty, run_worker};
use orca_io::{Gate, NoGate};
use std::alloc::{AllocError, Global};
use std::sync::Wait;
use std::thread;
use std::thread::Threads;

/// Runs each item once, in the order of their numbers, by the caller alone, whose number is 0. It returns.
pub fn run_alone<B: Batch>(alloc: Global, batch: &B) -> Result<PoolRun<B::Output>, AllocError>
    ensures { IfOk result (IsRunOf (B.items batch.now) (B.gives batch.now) 1) }
{
    let mut outputs = Vec::new(alloc);
    let mut taken = Vec::new(alloc);
    for item in 0..batch.len() {
        outputs.push(batch.run(alloc, item)?)?;
        taken.push(0)?;
    }
    Ok(PoolRun { outputs, taken })
}

/// Runs each item once, by so many workers, each in a thread of its own. Each passes the gate, takes an item and runs
/// it, until none is left. It may wait.
pub fn run_all<R: Threads + Wait + Sync, B: Batch, G: Gate>(
    rt: &R,
    alloc: Global,
    batch: &B,
    workers: u32,
    gate: &G,
) -> Result<PoolRun<B::Output>, AllocError>
    requires { (1 ≤ workers) × (workers ≤ 64) }
    ensures { IfOk result (IsRunOf (B.items batch.now) (B.gives batch.now) workers) }
{
    let n = batch.len();
    if n == 0 {
        return Ok(PoolRun {
            outputs: Vec::new(alloc),
            taken: Vec::new(alloc),
        });
    }
    let (queue, pass) = ItemQueue::filled(rt, alloc, n)?;
    let queue = &queue;
    let crew = hire(alloc, queue, pass, workers)?;
    let task = |worker: Worker| -> WorkerRun<B::Output>
        requires { IsNewWorker queue.now workers worker }
        ensures { Returns (B.items batch.entry.now) (B.gives batch.entry.now)
            queue.entry.now workers worker result }
    { run_worker(rt, alloc, queue, batch, worker, gate, workers) };
    let crew = thread::map_vec(rt, crew, &task)?;
    let (mut pass, mut places) = gather(alloc, queue, batch, crew, workers)?;
    // All workers have stopped, but nothing says that they stopped since the queue was empty. The pass with all parts
    // goes on until it is: then each item was taken.
    let rest = run_until_empty(rt, alloc, queue, batch, &mut pass, 0, &NoGate)?;
    place_all(batch, &mut places, rest, 0, workers);
    outputs_of(alloc, batch, places, workers)
}
