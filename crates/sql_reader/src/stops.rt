//! Why reading tokens stopped.

ghost use Rattle.std.specs.Prelude.{◌≡◌};
ghost use Rattle.sql_reader.specs.declared.stops.Stop.TheVariants.{Memory};

use crate::faults::Limit;
use std::alloc::AllocError;

/// Why reading stopped at the tokens that are left.
#[derive(Clone, Copy)]
pub enum Stop {
    /// The next token, or the end, can't stand there.
    Unexpected,
    /// The next token begins an element too many.
    TooMany(Limit),
    Memory,
}

impl From<AllocError> for Stop {
    ghost from_gives = { λ _ e. e ≡ Memory };

    fn from(_e: AllocError) -> Self {
        Stop::Memory
    }
}
