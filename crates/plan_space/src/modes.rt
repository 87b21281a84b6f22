//! What the number of a mode means. Nothing else knows how modes are numbered.
#![tactic(auto)]

ghost use Rattle.std.specs.Prelude.{ℕ, ◌≡◌, ◌<◌, ◌≤◌};
ghost use Rattle.request_props.specs.NumberSets.{NoneBetween};
ghost use Rattle.plan_space.specs.Modes.{mode_at, HasModeIn};
ghost use Rattle.plan_space.specs.declared.modes.Mode.{Mode as AnyMode};

use request_props::NumberSet;

/// How an expression works, with the number of an equality or of a hashed list where it works by one.
#[derive(Clone, Copy, PartialEq, Eq)]
pub enum Mode {
    /// Neither with copies nor by a hash. A join or an aggregation has all rows on one segment. A read of a table that
    /// has all its rows on each segment gives by the number a share on each segment (0), all rows at one place (1), or
    /// all rows on each segment (2).
    Plain(u32),
    /// The left rows where they lie, and copies of the right rows on each segment.
    Copied(u32),
    /// Rows that are hashed alike by the equality, or by the list, of this number.
    Hashed(u32),
}

/// The modes to try of an expression: of each kind those by the numbers of a set.
#[derive(Clone, Copy)]
pub struct ModeSets {
    pub plain: NumberSet,
    pub copied: NumberSet,
    pub hashed: NumberSet,
}

const COPIED: u32 = 64;

const HASHED: u32 = 128;

// Where a query has at most 60 hashed lists, no mode with a line has this number or a greater one.
pub const END: u32 = 192;

impl Mode {
    /// The mode of this number.
    #[inline(always)]
    pub fn at(number: u32) -> Mode
        ensures { result ≡ mode_at number }
    {
        if number < COPIED {
            Mode::Plain(number)
        } else if number < HASHED {
            Mode::Copied(number - COPIED)
        } else {
            Mode::Hashed(number - HASHED)
        }
    }
}

impl ModeSets {
    /// No modes.
    #[inline(always)]
    pub fn none() -> ModeSets
        ensures { (mode : AnyMode) → HasModeIn result mode → ⊥ }
    {
        ModeSets {
            plain: NumberSet::none(),
            copied: NumberSet::none(),
            hashed: NumberSet::none(),
        }
    }

    /// The first number from this one on whose mode is one of these, or one that no mode with a line has.
    #[inline(always)]
    pub fn next(self, from: u32) -> u32
        ensures from { from ≤ result }
        ensures found { result < END → HasModeIn self (mode_at result) }
        ensures none { NoneBetween (λ number. HasModeIn self (mode_at number)) from result }
    {
        let plain = self.plain.next(from);
        if plain < COPIED {
            return plain;
        }
        let copied = COPIED + self.copied.next(from.max(COPIED) - COPIED);
        if copied < HASHED {
            return copied;
        }
        HASHED + self.hashed.next(from.max(HASHED) - HASHED)
    }
}
