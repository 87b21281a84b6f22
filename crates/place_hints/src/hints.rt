ghost use Rattle.std.specs.Prelude.{◌≡◌, ℕ, ◌<◌, All, IfOk, IfSome};

use crate::deque::Deque;
use crate::sources::Sources;
use goal_board::Hints;
use std::alloc::{AllocError, Global};
use std::marker::Model;

/// The hints that one worker can come by: those that it was told, and those of other workers.
/// Contracts see the capacity of the board, which each place is below.
#[derive(Drop)]
pub struct PlaceHints {
    // Those that nobody else can see, the newest last: while there is no other worker, a deque would cost more.
    alone: Vec<u32>,
    own: Deque,
    others: Sources,
}

impl Model for PlaceHints {
    ghost Value = { ℕ };

    ghost view = { λ h. h.others };

    ghost invariant = { λ h. (h.own ≡ h.others) × All (λ place. place < h.others) h.alone.items };
}

impl PlaceHints {
    /// No hints, and no other worker.
    pub fn new(alloc: Global, capacity: u32) -> Result<PlaceHints, AllocError>
        requires { 0 < capacity }
        ensures { IfOk result (λ hints. hints ≡ capacity) }
    {
        Ok(PlaceHints {
            alone: Vec::new(alloc),
            own: Deque::open(alloc, capacity)?,
            others: Sources::none(alloc, capacity),
        })
    }

    /// Takes the newest of this worker's own.
    pub fn take(&mut self) -> Option<u32>
        ensures below { IfSome result (λ place. place < self.old) }
        ensures same { self.new ≡ self.old }
    {
        match self.alone.pop() {
            Some(place) => Some(place),
            None => self.own.pop(),
        }
    }

    /// How many workers it can steal from.
    pub fn others(&self) -> usize {
        self.others.len()
    }

    /// Steals the oldest of another worker's, where one was there and nobody else took it.
    pub fn steal(&mut self, other: usize) -> Option<u32>
        ensures below { IfSome result (λ place. place < self.old) }
        ensures same { self.new ≡ self.old }
    {
        self.others.steal(other)
    }

    /// The hints of another worker, who has none of its own yet. It can steal from this one, and from all that this one
    /// can steal from. This one can steal from it. After `Err` this one can steal as before.
    pub fn split(&mut self, alloc: Global) -> Result<PlaceHints, AllocError>
        ensures other { IfOk result (λ hints. hints ≡ self.old) }
        ensures same { self.new ≡ self.old }
    {
        self.show();
        let capacity = self.others.capacity();
        let mut other = PlaceHints::new(alloc, capacity)?;
        other.others.add(self.own.source(capacity)?)?;
        self.others.share(&mut other.others)?;
        self.others.add(other.own.source(capacity)?)?;
        Ok(other)
    }

    // Lets others see those that nobody else could.
    fn show(&mut self)
        ensures { self.new ≡ self.old }
    {
        self.own.push_all(&self.alone);
        self.alone.clear();
    }
}

impl Hints for PlaceHints {
    ghost capacity = { λ hints. hints };

    fn hint(&mut self, place: u32) {
        if self.others.len() == 0 {
            let _ = self.alone.push(place);
        } else {
            self.own.push(place);
        }
    }
}
