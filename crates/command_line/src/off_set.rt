//! Which rules are off.
ghost use Rattle.std.specs.Prelude.{◌≡◌};
ghost use Rattle.std.proofs.Props.{props};
ghost use Rattle.query_stage.specs.OffRules.{MayBeOff};

/// Rules that are off, as the bits of their numbers: some of those that can be off.
#[derive(Clone, Copy)]
pub struct OffSet {
    pub bits: u32,
    pub ghost may_be_off: { MayBeOff bits } by { Prim.hlevel props },
}

impl OffSet {
    /// No rule is off.
    pub fn new() -> OffSet
        ensures { result.bits ≡ 0 }
    {
        OffSet { bits: 0 }
    }
}
