//! The answers to requests, by their places.
#![tactic(auto)]

ghost use Rattle.std.specs.Prelude.{◌≡◌, Some, OnOk};
ghost use Rattle.std.specs.Ordering.{nat_cmp};
ghost use Rattle.std.specs.BTreeMap.{Updates, IsEmpty};
ghost use Rattle.plan_search.specs.KeptPlans.{kept_at};

use crate::choice::Choice;
use std::alloc::{AllocError, Global};
use std::collections::BTreeMap;

/// The answers so far: the root of a least plan, with the places of the plans below it, or none.
#[derive(Drop)]
pub struct KeptPlans {
    pub map: BTreeMap<u64, Option<Choice>>,
}

impl KeptPlans {
    pub fn new(alloc: Global) -> KeptPlans
        ensures { IsEmpty result.map }
    {
        KeptPlans {
            map: BTreeMap::new(alloc),
        }
    }

    /// The least plan at the place, if there is one.
    pub fn kept(&self, place: u64) -> Option<Choice>
        ensures { result ≡ kept_at self.now place }
    {
        match self.map.get(&place) {
            Some(Some(kept)) => Some(*kept),
            Some(None) => None,
            None => None,
        }
    }

    /// Puts the answer at the place.
    pub fn put(&mut self, place: u64, answer: Option<Choice>) -> Result<(), AllocError>
        ensures { OnOk result (Updates nat_cmp self.old.map self.new.map place (Some answer)) }
    {
        self.map.insert(place, answer)?;
        Ok(())
    }
}
