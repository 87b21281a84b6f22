//! Why a query is refused.

use std::alloc::{AllocError, AllocFailed};

/// Why a query can't be bound: the first fault. Places are offsets in the query's text.
#[derive(Clone, Copy, Debug)]
pub enum BindFault {
    /// The catalogue has no table of this name.
    UnknownTable { at: u32 },
    /// An alias, or an output name, was there before.
    TwiceAlias { at: u32 },
    /// No table has the column, or no table has the alias before it.
    UnknownColumn { at: u32 },
    /// Several tables have the column.
    Ambiguous { at: u32 },
    /// A column of a grouped query is no GROUP BY column.
    NotGrouped { at: u32 },
    /// There are more than 60 used columns and aggregates.
    TooManyItems { found: u32 },
    Memory,
}

impl From<AllocError> for BindFault {
    ghost use Rattle.std.specs.Prelude.{◌≡◌};
    ghost use Rattle.sql_bind.specs.declared.fault.BindFault.TheVariants.{Memory};

    ghost from_gives = { λ _ e. e ≡ Memory };

    fn from(_refused: AllocError) -> BindFault {
        BindFault::Memory
    }
}

impl<T: Drop> From<AllocFailed<T>> for BindFault {
    ghost use Rattle.std.specs.Prelude.{◌≡◌};
    ghost use Rattle.sql_bind.specs.declared.fault.BindFault.TheVariants.{Memory};

    ghost from_gives = { λ _ e. e ≡ Memory };

    fn from(_refused: AllocFailed<T>) -> BindFault {
        BindFault::Memory
    }
}
