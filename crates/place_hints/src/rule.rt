// What holds of each deque, and what its moves tell.
ghost use Rattle.std.specs.Prelude.{◌≡◌, ℕ, ◌+◌, slice_index};
ghost use Rattle.place_hints.specs.Hinted.{AreHinted, MovesBelow};

use crossbeam_deque::protocol::{Outcome, Protocol};

/// Each place in a deque is below the capacity that its owner knows. The owner's view is that capacity; whoever steals
/// knows none, and has the view 0.
pub struct BelowCapacity;

impl Protocol<u32, u64> for BelowCapacity {
    ghost holds = { AreHinted };

    ghost first = { 0 };

    ghost guest = { 0 };
}

/// The first place of all, the last one below the capacity, from which on the owner knows the capacity.
pub struct Opens;

impl Outcome<u32, u64> for Opens {
    ghost then = { λ _ places after. after ≡ slice_index places 0 + 1 };
}

/// Places come or go by the owner.
pub struct Moves;

impl Outcome<u32, u64> for Moves {
    ghost then = { MovesBelow };
}

/// Places go by others, who are told nothing of the capacity.
pub struct Leaves;

impl Outcome<u32, u64> for Leaves {
    ghost then = { λ view _ after. after ≡ view };
}
