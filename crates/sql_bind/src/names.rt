//! Names, each numbered as it is seen first.
ghost use Rattle.std.specs.Prelude.{◌≡◌, ◌<◌, [], ◌∷◌, ◌++◌, false, length, position, IfOk, IfSome, OnOk};
ghost use Rattle.std.specs.List.{list_any};
ghost use Rattle.std.specs.Str.{bytes_eq};

use indexmap::IndexSet;
use orca_base::Text;
use std::alloc::{AllocError, Global};
use std::marker::Model;

/// Names, none of them twice, in the order in which they were added.
#[derive(Drop)]
pub struct DistinctNames<'a> {
    set: IndexSet<&'a str>,
}

impl<'a> Model for DistinctNames<'a> {
    ghost use Rattle.std.specs.Prelude.{List, ℕ, map};

    ghost Value = { List (List ℕ) };

    ghost view = { λ n. map (λ k. k.now) n.set.keys };
}

impl<'a> DistinctNames<'a> {
    /// No names yet, and room for so many.
    pub fn with_capacity(alloc: Global, count: usize) -> Result<DistinctNames<'a>, AllocError>
        ensures { IfOk result (λ names. names ≡ []) }
    {
        Ok(DistinctNames {
            set: IndexSet::with_capacity(alloc, count)?,
        })
    }

    pub fn has(&self, name: &Text) -> bool
        ensures { result ≡ list_any (bytes_eq name.now) self.now }
    {
        self.set.contains(name.as_str())
    }

    pub fn position_of(&self, name: &Text) -> Option<usize>
        ensures number { result ≡ position (bytes_eq name.now) self.now }
        ensures within { IfSome result (λ i. i < length self.now) }
    {
        self.set.get_index_of(name.as_str())
    }

    /// Adds a name.
    pub fn add(&mut self, name: &'a Text) -> Result<(), AllocError>
        requires { list_any (bytes_eq name.now) self.old ≡ false }
        ensures { OnOk result (self.new ≡ self.old ++ name.now ∷ []) }
    {
        self.set.insert(name.as_str())?;
        Ok(())
    }
}
