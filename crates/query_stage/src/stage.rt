//! A stage of a plan.
ghost use Rattle.std.specs.Prelude.{◌≡◌, ◌<◌, ◌↔◌, ℕ, Some, IsTrue};
ghost use Rattle.std.proofs.Props.{props};
ghost use Rattle.query_stage.specs.OffRules.{MayBeOff};

/// A stage: which rules are off, and which cost is enough.
#[derive(Clone, Copy, Debug, PartialEq, Eq)]
pub struct Stage {
    /// The rules that are switched off: the bit of a rule's number is set.
    pub off: u32,
    /// No later stage runs where the least plan of this one costs less.
    pub threshold: Option<u64>,
    pub ghost may_be_off: { MayBeOff off } by { Prim.hlevel props },
}

impl Stage {
    /// Whether a plan of this cost is enough.
    pub fn is_enough(self, cost: u64) -> bool
        ensures { IsTrue result ↔
            ((threshold : ℕ) × (self.threshold ≡ Some threshold) × (cost < threshold)) }
    {
        match self.threshold {
            Some(threshold) => cost < threshold,
            None => false,
        }
    }
}
