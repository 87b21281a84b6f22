ghost use Rattle.std.specs.Prelude.{◌≡◌, ◌≢◌, ◌≤◌, ◌^◌, IfOk, IfSome, IfNone, replicate};
ghost use Rattle.word_table.specs.Table.{IsTable, Inserts, StandsAt, StandsNowhere};

use crate::outcome::Inserted;
use crate::probing::{Probe, look_up};
use std::alloc::{AllocError, Global};
use std::marker::Model;

/// A set of words, which contracts see as its cells in order; 0 is an empty one.
#[derive(Debug, Drop)]
pub struct WordTable {
    cells: Vec<u64>,
}

impl Model for WordTable {
    ghost use Rattle.std.specs.Prelude.{List, ℕ};
    ghost use Rattle.word_table.specs.Table.{IsTable};

    ghost Value = { List ℕ };

    ghost view = { λ t. t.cells.items };

    ghost invariant = { λ t. IsTable t.cells.items };
}

impl WordTable {
    /// A table of `capacity` empty cells. It is the only call that takes memory.
    pub fn new(alloc: Global, capacity: u32) -> Result<WordTable, AllocError>
        requires some { 1 ≤ capacity }
        requires few { capacity ≤ 2 ^ 20 }
        ensures { IfOk result (λ table. table ≡ replicate capacity 0) }
    {
        Ok(WordTable {
            cells: vec![in alloc; 0; capacity as usize]?,
        })
    }

    /// Puts a word into the set. A word that stands in a cell keeps its place.
    pub fn insert(&mut self, word: u64) -> Inserted
        requires { word ≢ 0 }
        ensures answer { Inserts self.old word result self.new }
        ensures kept { IsTable self.new }
    {
        match look_up(self.cells.as_slice(), word) {
            Probe::At { at } => Inserted::Known { at },
            Probe::Gap { at } => {
                self.cells[at as usize] = word;
                Inserted::Fresh { at }
            }
            Probe::Round => Inserted::Full,
        }
    }

    /// The place at which the word stands. 0 stands at none.
    pub fn find(&self, word: u64) -> Option<u32>
        ensures found { IfSome result (StandsAt self.now word) }
        ensures absent { IfNone result (StandsNowhere self.now word) }
    {
        match look_up(self.cells.as_slice(), word) {
            Probe::At { at } => Some(at),
            Probe::Gap { at: _ } | Probe::Round => None,
        }
    }
}
