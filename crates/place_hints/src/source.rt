ghost use Rattle.std.specs.Prelude.{◌≡◌, ℕ, ◌<◌, IfOk, IfSome};
ghost use Rattle.crossbeam_deque.specs.Handles.{stealer_deque, IsPassOf};

use crate::rule::{BelowCapacity, Leaves};
use crossbeam_deque::{Pass, Stealer};
use std::alloc::{AllocError, Global};
use std::marker::Model;

/// Another worker's deque, from which its oldest places can be stolen. Contracts see the capacity.
#[derive(Drop)]
pub struct Source {
    stealer: Stealer<u32, Global, u64, BelowCapacity>,
    pass: Pass<u32, u64>,
    capacity: u32,
}

impl Model for Source {
    ghost Value = { ℕ };

    ghost view = { λ s. s.capacity };

    ghost invariant = { λ s. IsPassOf (stealer_deque s.stealer) s.pass };
}

impl Source {
    /// The deque of this stealer.
    pub fn of(stealer: Stealer<u32, Global, u64, BelowCapacity>, capacity: u32) -> Source
        ensures { result ≡ capacity }
    {
        let pass = stealer.pass();
        Source {
            stealer,
            pass,
            capacity,
        }
    }

    /// The oldest place, where one was there and nobody else took it.
    pub fn steal(&mut self) -> Option<u32>
        ensures below { IfSome result (λ place. place < self.old) }
        ensures same { self.new ≡ self.old }
    {
        // The owner of the deque knows that its places are below the capacity. Whoever steals looks.
        match self.stealer.steal_as::<Leaves>(&mut self.pass).success() {
            Some(place) if place < self.capacity => Some(place),
            _ => None,
        }
    }

    /// The same deque for another worker.
    pub fn again(&self) -> Result<Source, AllocError>
        ensures { IfOk result (λ source. source ≡ self.now) }
    {
        Ok(Source::of(self.stealer.clone()?, self.capacity))
    }
}
