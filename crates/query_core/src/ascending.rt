//! Ascending words.
#![tactic(auto)]

ghost use Rattle.std.specs.Prelude.{ℕ, ◌<◌, ◌≤◌, length, slice_index};
ghost use Rattle.std.specs.List.Sorted.{IsStrictlyIncreasing};

/// How many of the words are below the bound.
pub fn count_below(words: &[u64], bound: u64) -> usize
    requires { IsStrictlyIncreasing words.now }
    ensures few { result ≤ length words.now }
    ensures before { (k : ℕ) → k < result → slice_index words.now k < bound }
    ensures after { (k : ℕ) → result ≤ k → k < length words.now →
        bound ≤ slice_index words.now k }
{
    words.partition_point(|word| *word < bound)
}
