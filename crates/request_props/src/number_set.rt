//! Sets of numbers below 64, as of predicates or of hashed lists, each the bit of its number in a mask. Nothing else
//! shifts or masks these.
#![tactic(auto)]

ghost use Rattle.std.specs.Prelude.{ℕ, ◌≡◌, ◌<◌, ◌≤◌, ◌⊎◌, ◌↔◌, IsTrue, false, max};
ghost use Rattle.request_props.specs.NumberSets.{HasBelow, IsInSet, NoneBetween};

/// A set of numbers below 64.
#[derive(Clone, Copy, Debug, PartialEq, Eq)]
pub struct NumberSet {
    mask: u64,
}

impl NumberSet {
    /// No number.
    #[inline(always)]
    pub fn none() -> NumberSet
        ensures { (number : ℕ) → IsInSet result number → ⊥ }
    {
        NumberSet { mask: 0 }
    }

    /// The numbers below this one; all where it is 64 or more.
    #[inline(always)]
    pub fn below(bound: u32) -> NumberSet
        ensures all { bound ≤ 64 → HasBelow result bound }
        ensures only { (number : ℕ) → IsInSet result number → number < bound }
    {
        if bound < 64 {
            NumberSet {
                mask: (1 << bound) - 1,
            }
        } else {
            NumberSet { mask: u64::MAX }
        }
    }

    /// Whether there is none.
    #[inline(always)]
    pub fn is_empty(self) -> bool
        ensures none { IsTrue result → (number : ℕ) → IsInSet self number → ⊥ }
        ensures some { result ≡ false → (number : ℕ) × IsInSet self number }
    {
        self.mask == 0
    }

    /// Whether the number is one of these.
    #[inline(always)]
    pub fn has(self, number: u32) -> bool
        ensures { IsTrue result ↔ IsInSet self number }
    {
        number < 64 && (self.mask >> number) & 1 == 1
    }

    /// These numbers, and this one where it is to be one of them.
    #[inline(always)]
    pub fn with(self, number: u32, is_one: bool) -> NumberSet
        requires { number < 64 }
        ensures { (other : ℕ) → IsInSet result other ↔
            (IsInSet self other ⊎ ((other ≡ number) × IsTrue is_one)) }
    {
        if is_one {
            NumberSet {
                mask: self.mask | (1 << number),
            }
        } else {
            self
        }
    }

    /// The numbers that are in both.
    #[inline(always)]
    pub fn and(self, other: NumberSet) -> NumberSet
        ensures { (number : ℕ) → IsInSet result number ↔
            (IsInSet self number × IsInSet other number) }
    {
        NumberSet {
            mask: self.mask & other.mask,
        }
    }

    /// The numbers that are in one or in both.
    #[inline(always)]
    pub fn or(self, other: NumberSet) -> NumberSet
        ensures { (number : ℕ) → IsInSet result number ↔
            (IsInSet self number ⊎ IsInSet other number) }
    {
        NumberSet {
            mask: self.mask | other.mask,
        }
    }

    /// The numbers that are in this one and not in the other.
    #[inline(always)]
    pub fn without(self, other: NumberSet) -> NumberSet
        ensures { (number : ℕ) → IsInSet result number ↔
            (IsInSet self number × (IsInSet other number → ⊥)) }
    {
        NumberSet {
            mask: self.mask ^ (self.mask & other.mask),
        }
    }

    /// The first of the numbers from this one on, or one that is none of them and 64 at least.
    #[inline(always)]
    pub fn next(self, from: u32) -> u32
        ensures from { from ≤ result }
        ensures near { result ≤ max from 64 }
        ensures found { result < 64 → IsInSet self result }
        ensures none { NoneBetween (IsInSet self) from result }
    {
        if from >= 64 {
            return from;
        }
        let rest = self.mask >> from;
        if rest == 0 {
            return 64;
        }
        from + rest.trailing_zeros()
    }
}
