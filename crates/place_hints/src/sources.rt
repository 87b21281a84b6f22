ghost use Rattle.std.specs.Prelude.{◌≡◌, ℕ, ◌<◌, All, IfSome};

use crate::source::Source;
use std::alloc::{AllocError, Global};
use std::marker::Model;

/// The deques of other workers that one worker can steal from. Contracts see the capacity.
#[derive(Drop)]
pub struct Sources {
    capacity: u32,
    list: Vec<Source>,
}

impl Model for Sources {
    ghost Value = { ℕ };

    ghost view = { λ s. s.capacity };

    ghost invariant = { λ s. (0 < s.capacity) × All (λ source. source ≡ s.capacity) s.list.items };
}

impl Sources {
    pub fn none(alloc: Global, capacity: u32) -> Sources
        requires { 0 < capacity }
        ensures { result ≡ capacity }
    {
        Sources {
            capacity,
            list: Vec::new(alloc),
        }
    }

    pub fn len(&self) -> usize {
        self.list.len()
    }

    pub fn capacity(&self) -> u32
        ensures value { result ≡ self.now }
        ensures some { 0 < result }
    {
        self.capacity
    }

    /// Steals the oldest place of one of them.
    pub fn steal(&mut self, at: usize) -> Option<u32>
        ensures below { IfSome result (λ place. place < self.old) }
        ensures same { self.new ≡ self.old }
    {
        self.list.get_mut(at)?.steal()
    }

    /// Adds one. It is dropped where memory is refused.
    pub fn add(&mut self, source: Source) -> Result<(), AllocError>
        requires { source ≡ self.old }
        ensures { self.new ≡ self.old }
    {
        self.list.push(source)?;
        Ok(())
    }

    /// Adds these to those of another worker.
    pub fn share(&self, others: &mut Sources) -> Result<(), AllocError>
        requires { others.old ≡ self.now }
        ensures { others.new ≡ others.old }
    {
        for source in self.list.iter() {
            others.add(source.again()?)?;
        }
        Ok(())
    }
}
