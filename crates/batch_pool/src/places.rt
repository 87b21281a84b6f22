//! What the items gave, each in its place.
ghost use Rattle.std.specs.Prelude.{◌≡◌, ℕ, ◌<◌, IfOk, Some, slice_get, vec_len};
ghost use Rattle.batch_pool.specs.Runs.{AreOutputs, IsRunOf, HasPlaced, HoldsResult};

use crate::batch::Batch;
use crate::worker::RanItem;
use std::alloc::{AllocError, Global};

/// What each item of a batch gave, and the number of the worker that ran it.
#[derive(Drop)]
pub struct PoolRun<O> {
    pub outputs: Vec<O>,
    pub taken: Vec<u32>,
}

/// What one item gave, and who ran it.
#[derive(Drop)]
pub(crate) struct Placed<O> {
    pub output: O,
    pub worker: u32,
}

/// A place for each item.
pub(crate) fn places_for<O: Drop>(
    alloc: Global,
    n: u32,
) -> Result<Vec<Option<Placed<O>>>, AllocError>
    ensures { IfOk result (λ places. vec_len places ≡ n) }
{
    let mut places = Vec::new(alloc);
    for _item in 0..n {
        places.push(None)?;
    }
    Ok(places)
}

/// Puts what one worker ran into the places of the items. The number of workers bounds the worker's.
pub(crate) fn place_all<B: Batch>(
    _batch: &B,
    places: &mut Vec<Option<Placed<B::Output>>>,
    ran: Vec<RanItem<B::Output>>,
    worker: u32,
    _workers: u32,
)
    requires places { vec_len places.old ≡ B.items _batch.now }
    requires ran { AreOutputs (B.items _batch.now) (B.gives _batch.now) ran.items }
    requires worker { worker < _workers }
    ensures len { vec_len places.new ≡ vec_len places.old }
    ensures placed { HasPlaced (B.gives _batch.now) _workers
        ran.items places.old.items places.new.items }
{
    let mut ran = ran;
    while let Some(one) = ran.pop() {
        let RanItem { item, output } = one;
        set_place(&mut places[item as usize], Placed { output, worker });
    }
}

// Puts it into its place.
fn set_place<O: Drop>(place: &mut Option<Placed<O>>, placed: Placed<O>)
    ensures { place.new ≡ Some placed }
{
    *place = Some(placed);
}

/// Takes the results out of their places, in the order of the items.
pub(crate) fn outputs_of<B: Batch>(
    alloc: Global,
    _batch: &B,
    places: Vec<Option<Placed<B::Output>>>,
    _workers: u32,
) -> Result<PoolRun<B::Output>, AllocError>
    requires places { vec_len places ≡ B.items _batch.now }
    requires results { (k : ℕ) → k < B.items _batch.now →
        HoldsResult (B.gives _batch.now) _workers k (slice_get places.items k) }
    ensures { IfOk result (IsRunOf (B.items _batch.now) (B.gives _batch.now) _workers) }
{
    let mut outputs = Vec::new(alloc);
    let mut taken = Vec::new(alloc);
    for place in places {
        let Some(Placed { output, worker }) = place else {
            unreachable!()
        };
        outputs.push(output)?;
        taken.push(worker)?;
    }
    Ok(PoolRun { outputs, taken })
}
