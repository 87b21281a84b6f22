//! Batches of numbers, of which an output tells its item.

ghost use Rattle.std.specs.Prelude.{◌≡◌, ℕ, ◌*◌, ◌≤◌};

use batch_pool::{Batch, PoolRun, run_all};
use orca_io::{Gate, NoGate};
use std::alloc::{AllocError, Global};
use std::marker::Model;
use std::sync::Wait;
use std::test::Fail;
use std::thread::Threads;
use test_gates::MeetingGate;

// The triples of the numbers below a count. The run of the number that is refused finds no memory.
#[derive(Drop)]
struct Triples {
    count: u32,
    refused: Option<u32>,
}

impl Model for Triples {
    ghost Value = { ℕ };

    ghost view = { λ triples. triples.count };
}

impl Batch for Triples {
    type Output = u64;

    ghost items = { λ count. count };

    ghost gives = { λ count item output. output ≡ 3 * item };

    fn len(&self) -> u32 {
        self.count
    }

    fn run(&self, _alloc: Global, item: u32) -> Result<u64, AllocError> {
        if self.refused == Some(item) {
            return Err(AllocError);
        }
        Ok(3 * u64::from(item))
    }
}

// Whether each output is three times its place, and each place has the number of a worker.
fn are_triples(run: &PoolRun<u64>, count: u32, workers: u32) -> bool {
    let mut all = run.outputs.len() == count as usize && run.taken.len() == count as usize;
    for (at, output) in run.outputs.as_slice().iter().enumerate() {
        all = all && *output == (at as u64).wrapping_mul(3);
    }
    for worker in run.taken.as_slice() {
        all = all && *worker < workers;
    }
    all
}

// Whether so many workers give all of them.
fn gives_triples<R: Threads + Wait + Sync, G: Gate>(
    rt: &R,
    alloc: Global,
    count: u32,
    workers: u32,
    gate: &G,
) -> Result<bool, AllocError>
    requires { (1 ≤ workers) × (workers ≤ 64) }
{
    let triples = Triples {
        count,
        refused: None,
    };
    let run = run_all(rt, alloc, &triples, workers, gate)?;
    Ok(are_triples(&run, count, workers))
}

#[test]
fn each_item_has_its_output(rt: HostRuntime) -> Result<(), Fail> {
    for count in [0, 1, 1000] {
        assert!(rt;
            gives_triples(&rt, rt.alloc(), count, 1, &NoGate)?,
            "{count}"
        );
        assert!(rt;
            gives_triples(&rt, rt.alloc(), count, 2, &NoGate)?,
            "{count}"
        );
        assert!(rt;
            gives_triples(&rt, rt.alloc(), count, 8, &NoGate)?,
            "{count}"
        );
        assert!(rt;
            gives_triples(&rt, rt.alloc(), count, 64, &NoGate)?,
            "{count}"
        );
    }
    Ok(())
}

#[test]
fn two_workers_of_a_batch_meet(rt: HostRuntime) -> Result<(), Fail> {
    let gate = MeetingGate::new();
    assert!(rt; gives_triples(&rt, rt.alloc(), 2, 2, &gate)?);
    assert!(rt; gate.have_met());
    Ok(())
}

#[test]
fn a_batch_ends_where_an_item_finds_no_memory(rt: HostRuntime) -> Result<(), Fail> {
    let triples = Triples {
        count: 100,
        refused: Some(50),
    };
    assert!(rt; run_all(&rt, rt.alloc(), &triples, 8, &NoGate).is_err());
    Ok(())
}
