//! The workers of a batch, before they begin and once all have come back.
ghost use Rattle.std.specs.Prelude.{◌≡◌, ◌≤◌, All, [], IfOk, vec_len};
ghost use Rattle.batch_pool.specs.Queues.{view_of, IsPassOf};
ghost use Rattle.batch_pool.specs.Runs.{IsNewWorker, IsReturned, ArePlaced, worker_parts, worker_pushes};
ghost use Rattle.batch_pool.specs.Runs.{returned_parts, returned_pushes};

use crate::batch::Batch;
use crate::places::{Placed, place_all, places_for};
use crate::queue::{ItemPass, ItemQueue};
use crate::worker::{Worker, WorkerRun};
use std::alloc::{AllocError, Global};

/// n workers: one with the pass, and the others with passes that are split from it.
pub(crate) fn hire(
    alloc: Global,
    queue: &ItemQueue,
    pass: ItemPass,
    n: u32,
) -> Result<Vec<Worker>, AllocError>
    requires its { IsPassOf queue.now pass }
    requires parts { (view_of pass).parts ≡ 64 }
    requires none_taken { (view_of pass).taken ≡ [] }
    requires workers { (1 ≤ n) × (n ≤ 64) }
    ensures each { IfOk result (λ crew. All (IsNewWorker queue.now n) crew.items) }
    ensures parts { IfOk result (λ crew. worker_parts crew.items ≡ 64) }
    ensures pushed { IfOk result (λ crew. worker_pushes crew.items ≡ (view_of pass).pushed) }
{
    let mut pass = pass;
    let mut crew = Vec::new(alloc);
    for number in 1..n {
        let other = queue.split(&mut pass);
        crew.push(Worker {
            pass: other,
            number,
        })?;
    }
    crew.push(Worker { pass, number: 0 })?;
    Ok(crew)
}

/// Takes all workers in, and puts what they ran into the places of the items.
pub(crate) fn gather<B: Batch>(
    alloc: Global,
    queue: &ItemQueue,
    batch: &B,
    crew: Vec<WorkerRun<B::Output>>,
    _workers: u32,
) -> Result<(ItemPass, Vec<Option<Placed<B::Output>>>), AllocError>
    requires each { All (IsReturned (B.items batch.now) (B.gives batch.now) queue.now _workers) crew.items }
    requires parts { returned_parts crew.items ≡ 64 }
    requires pushed { returned_pushes crew.items ≡ B.items batch.now }
    ensures its { IfOk result (λ all. IsPassOf queue.now all.0) }
    ensures parts { IfOk result (λ all. (view_of all.0).parts ≡ 64) }
    ensures pushed { IfOk result (λ all. (view_of all.0).pushed ≡ B.items batch.now) }
    ensures len { IfOk result (λ all. vec_len all.1 ≡ B.items batch.now) }
    ensures placed { IfOk result (λ all. ArePlaced (B.items batch.now) (B.gives batch.now) _workers
        (view_of all.0).taken all.1.items) }
{
    let mut crew = crew;
    let mut places = places_for(alloc, batch.len())?;
    let Some(
        WorkerRun {
            mut pass,
            number,
            ran,
        },
    ) = crew.pop()
    else {
        unreachable!()
    };
    place_all(batch, &mut places, ran?, number, _workers);
    while let Some(
        WorkerRun {
            pass: other,
            number,
            ran,
        },
    ) = crew.pop()
    {
        place_all(batch, &mut places, ran?, number, _workers);
        queue.join(&mut pass, other);
    }
    Ok((pass, places))
}
