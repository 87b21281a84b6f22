ghost use Rattle.std.specs.Prelude.{◌≡◌, ◌<◌, ◌≤◌};
ghost use Rattle.word_table.specs.Probing.{home_of, next_place};

/// The place at which a word is looked for first, in a table of `capacity` cells.
#[tactic(auto, unfolding(crate::specs::Probing::home_of))]
#[inline(always)]
pub fn home(word: u64, capacity: u32) -> u32
    requires { 1 ≤ capacity }
    ensures value { result ≡ home_of word capacity }
    ensures in_range { result < capacity }
{
    (word.wrapping_mul(11_400_714_819_323_198_485) >> 33) as u32 % capacity
}

/// The place at which a word is looked for after this one.
#[inline(always)]
pub fn next_place(place: u32, capacity: u32) -> u32
    requires { place < capacity }
    ensures value { result ≡ next_place place capacity }
    ensures in_range { result < capacity }
{
    if place + 1 == capacity { 0 } else { place + 1 }
}
