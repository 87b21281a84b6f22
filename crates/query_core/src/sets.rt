//! Sets of tables as masks. Nothing else shifts or masks a set.
#![tactic(auto, using(crate::proofs::Bits::bits_of))]

ghost use Rattle.std.specs.Prelude.{◌≡◌, ℕ, IsTrue, MatchOption, ◌↔◌, ◌<◌, ◌≤◌, ◌+◌, ◌-◌, ◌^◌, ◌||◌, max, bit_or};
ghost use Rattle.query_core.specs.Sets.{bit, Has, Adds, IsLeast, only_of, is_several};

/// Whether the set has the table.
pub fn has(set: u32, table: u32) -> bool
    ensures { IsTrue result ↔ Has set table }
{
    table < 32 && (set >> table) & 1 == 1
}

/// The set and the table.
pub fn with(set: u32, table: u32) -> u32
    requires { table < 32 }
    ensures adds { Adds set table result }
    ensures grows { bit set table ≡ 0 → result ≡ set + 2 ^ table }
{
    set | (1 << table)
}

/// The tables of either set.
pub fn union(a: u32, b: u32) -> u32
    ensures number { result ≡ bit_or a b }
    ensures each { (t : ℕ) → bit result t ≡ max (bit a t) (bit b t) }
{
    a | b
}

/// The tables of the first set that are not in the second.
pub fn difference(a: u32, b: u32) -> u32
    ensures { (t : ℕ) → bit result t ≡ bit a t - bit b t }
{
    a ^ (a & b)
}

/// The set of one table.
pub fn of_one(table: u32) -> u32
    requires { table < 32 }
    ensures { result ≡ 2 ^ table }
{
    1 << table
}

/// The first so many tables.
pub fn first(count: u32) -> u32
    requires { count < 32 }
    ensures { result ≡ 2 ^ count - 1 }
{
    (1 << count) - 1
}

/// The least table.
pub fn least(set: u32) -> Option<u32>
    ensures { MatchOption result ((t : ℕ) → Has set t → ⊥) (IsLeast set) }
{
    if set == 0 {
        None
    } else {
        Some(set.trailing_zeros())
    }
}

/// The one table of a set that has no other.
pub fn only(set: u32) -> Option<u32>
    ensures { result ≡ only_of set }
{
    if set != 0 && set == 1 << set.trailing_zeros() {
        return Some(set.trailing_zeros());
    }
    None
}

/// Whether the set has two or more tables.
pub fn several(set: u32) -> bool
    ensures { result ≡ is_several set }
{
    set != 0 && only(set).is_none()
}
