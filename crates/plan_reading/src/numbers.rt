//! Numbers as lines write them: in decimal digits, with no zero before others, below 2^64.
#![tactic(auto)]

ghost use Rattle.std.specs.Prelude.{◌≡◌, ℕ, ◌<◌, ◌^◌, decimal, MatchOption};
ghost use Rattle.plan_reading.specs.Reading.{is_plain as the_is_plain};

use std::str;

/// The number that the digits write.
pub fn number(digits: &[u8]) -> Option<u64>
    ensures { MatchOption result
        ((n : ℕ) → n < 2 ^ 64 → digits.now ≡ decimal n → ⊥)
        (λ n. (digits.now ≡ decimal n) × (n < 2 ^ 64)) }
{
    match str::from_utf8(digits) {
        Ok(word) => plain_number(word),
        Err(_) => None,
    }
}

fn plain_number(word: &str) -> Option<u64>
    ensures { MatchOption result
        ((n : ℕ) → n < 2 ^ 64 → word.now ≡ decimal n → ⊥)
        (λ n. (word.now ≡ decimal n) × (n < 2 ^ 64)) }
{
    let number = word.parse::<u64>().ok()?;
    if is_plain(word) { Some(number) } else { None }
}

// Whether no `+` and no zero stands before a number.
fn is_plain(word: &str) -> bool
    ensures { result ≡ the_is_plain word.now }
{
    !word.starts_with('+') && (word.len() == 1 || !word.starts_with('0'))
}
