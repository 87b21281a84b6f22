//! One worker, which takes items and runs them.
ghost use Rattle.std.specs.Prelude.{◌≡◌, ◌≤◌, IfOk, OnOk};
ghost use Rattle.batch_pool.specs.Rule.{HasEachOnce};
ghost use Rattle.batch_pool.specs.Queues.{view_of, IsPassOf, StaysPassOf};
ghost use Rattle.batch_pool.specs.Runs.{RanSince, IsNewWorker, Returns};

use crate::batch::Batch;
use crate::queue::{ItemPass, ItemQueue};
use orca_io::Gate;
use std::alloc::{AllocError, Global};
use std::sync::Wait;

/// A worker that has not begun.
#[derive(Drop)]
pub(crate) struct Worker {
    pub pass: ItemPass,
    pub number: u32,
}

/// An item that was run, and what it gave.
#[derive(Drop)]
pub(crate) struct RanItem<O> {
    pub item: u32,
    pub output: O,
}

/// A worker that has come back: what it ran, where memory sufficed.
#[derive(Drop)]
pub(crate) struct WorkerRun<O> {
    pub pass: ItemPass,
    pub number: u32,
    pub ran: Result<Vec<RanItem<O>>, AllocError>,
}

/// Takes items and runs them until the queue is empty. The number of workers bounds the worker's.
pub(crate) fn run_worker<R: Wait, B: Batch, G: Gate>(
    rt: &R,
    alloc: Global,
    queue: &ItemQueue,
    batch: &B,
    worker: Worker,
    gate: &G,
    _workers: u32,
) -> WorkerRun<B::Output>
    requires { IsNewWorker queue.now _workers worker }
    ensures { Returns (B.items batch.now) (B.gives batch.now) queue.now _workers worker result }
{
    let Worker { mut pass, number } = worker;
    let ran = run_until_empty(rt, alloc, queue, batch, &mut pass, number, gate);
    WorkerRun { pass, number, ran }
}

/// Takes items and runs them until the queue is empty: what it ran, where memory sufficed. A pass with all parts has
/// then taken each number.
pub(crate) fn run_until_empty<R: Wait, B: Batch, G: Gate>(
    rt: &R,
    alloc: Global,
    queue: &ItemQueue,
    batch: &B,
    pass: &mut ItemPass,
    number: u32,
    gate: &G,
) -> Result<Vec<RanItem<B::Output>>, AllocError>
    requires its { IsPassOf queue.now pass.old }
    requires some_part { 1 ≤ (view_of pass.old).parts }
    ensures stays { StaysPassOf queue.now pass.old pass.new }
    ensures ran { IfOk result (λ ran.
        RanSince (B.items batch.now) (B.gives batch.now) (view_of pass.old) (view_of pass.new) ran.items) }
    ensures all { OnOk result ((view_of pass.old).parts ≡ 64 →
        HasEachOnce (view_of pass.new).pushed (view_of pass.new).taken) }
{
    let mut ran = Vec::new(alloc);
    let mut turn = 0u64;
    for _take in rt.forever() {
        gate.pass(number, turn);
        turn = turn.saturating_add(1);
        let Some(item) = queue.pop(rt, pass) else {
            return Ok(ran);
        };
        // The queue holds numbers of items alone. That isn't known here: a pass with one part knows nothing of what was
        // pushed.
        if item < batch.len() {
            let output = batch.run(alloc, item)?;
            ran.push(RanItem { item, output })?;
        }
    }
    unreachable!()
}
