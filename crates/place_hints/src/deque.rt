ghost use Rattle.std.specs.Prelude.{◌≡◌, ℕ, ◌<◌, All, IfOk, IfSome};
ghost use Rattle.crossbeam_deque.specs.Handles.{worker_port, worker_view};

use crate::rule::{BelowCapacity, Moves, Opens};
use crate::source::Source;
use crossbeam_deque::Worker;
use std::alloc::{AllocError, Global};
use std::marker::Model;

/// How many places a deque has room for before it takes more memory.
const FIRST_SLOTS: usize = 64;

type Owner = Worker<u32, Global, u64, BelowCapacity>;

/// The places that a worker was told of. Contracts see the capacity, which each place is below.
#[derive(Drop)]
pub struct Deque {
    worker: Owner,
}

impl Model for Deque {
    ghost Value = { ℕ };

    ghost view = { λ d. worker_view d.worker };

    ghost invariant = { λ d. worker_port d.worker ≡ 0 };
}

impl Deque {
    /// A deque without places.
    pub fn open(alloc: Global, capacity: u32) -> Result<Deque, AllocError>
        requires { 0 < capacity }
        ensures { IfOk result (λ deque. deque ≡ capacity) }
    {
        let mut worker = Owner::lifo_as(alloc, FIRST_SLOTS)?;
        // From the last place on the owner knows the capacity. There is room for it.
        match worker.push_as::<Opens>(capacity - 1) {
            Ok(()) => {}
            Err(_) => unreachable!(),
        }
        let mut deque = Deque { worker };
        deque.pop();
        Ok(deque)
    }

    /// Adds a place as the newest. It is dropped where memory is refused.
    pub fn push(&mut self, place: u32)
        requires { place < self.old }
        ensures { self.new ≡ self.old }
    {
        let _ = self.worker.push_as::<Moves>(place);
    }

    /// Adds these places, the last one as the newest.
    pub fn push_all(&mut self, places: &[u32])
        requires { All (λ place. place < self.old) places.now }
        ensures { self.new ≡ self.old }
    {
        for place in places {
            self.push(*place);
        }
    }

    /// Takes the newest place.
    pub fn pop(&mut self) -> Option<u32>
        ensures below { IfSome result (λ place. place < self.old) }
        ensures same { self.new ≡ self.old }
    {
        self.worker.pop_as::<Moves>()
    }

    /// What another worker steals by.
    pub fn source(&self, capacity: u32) -> Result<Source, AllocError>
        requires { capacity ≡ self.now }
        ensures { IfOk result (λ source. source ≡ capacity) }
    {
        Ok(Source::of(self.worker.stealer()?, capacity))
    }
}
