//! Sets of words, in ascending order.
#![tactic(auto)]

ghost use Rattle.std.specs.Prelude.{◌≡◌, [], length, OnOk, IfOk};
ghost use Rattle.std.specs.List.Sorted.{IsStrictlyIncreasing};
ghost use Rattle.std.specs.BTreeSet.{insert_key};
ghost use Rattle.std.specs.Ordering.{nat_cmp};

use std::alloc::{AllocError, Global};
use std::collections::BTreeSet;
use std::marker::Model;

/// A set of words, which contracts see as their list in ascending order.
#[derive(Drop)]
pub struct WordSet {
    words: BTreeSet<u64>,
}

impl Model for WordSet {
    ghost use Rattle.std.specs.Prelude.{List, ℕ};

    ghost Value = { List ℕ };

    ghost view = { λ s. s.words.keys };
}

impl WordSet {
    pub fn new(alloc: Global) -> WordSet
        ensures { result ≡ [] }
    {
        WordSet {
            words: BTreeSet::new(alloc),
        }
    }

    pub fn len(&self) -> usize
        ensures value { result ≡ length self.now }
        ensures ascending { IsStrictlyIncreasing self.now }
    {
        self.words.len()
    }

    /// The words, in a vector.
    pub fn words(&self, alloc: Global) -> Result<Vec<u64>, AllocError>
        ensures value { IfOk result (λ words. words.items ≡ self.now) }
        ensures ascending { OnOk result (IsStrictlyIncreasing self.now) }
    {
        words_of(alloc, &self.words)
    }

    /// Adds a word, where it isn't there.
    pub fn insert(&mut self, word: u64) -> Result<(), AllocError>
        ensures { OnOk result (self.new ≡ insert_key nat_cmp self.old word) }
    {
        self.words.insert(word)?;
        Ok(())
    }
}

fn words_of(alloc: Global, words: &BTreeSet<u64>) -> Result<Vec<u64>, AllocError>
    ensures value { IfOk result (λ list. list.items ≡ words.now.keys) }
    ensures ascending { OnOk result (IsStrictlyIncreasing words.now.keys) }
{
    let mut list = Vec::new(alloc);
    for word in words {
        list.push(*word)?;
    }
    Ok(list)
}
