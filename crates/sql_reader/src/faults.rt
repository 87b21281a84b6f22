//! Why a text is no query.

ghost use Rattle.std.specs.Prelude.{◌≡◌};
ghost use Rattle.sql_reader.specs.declared.faults.SqlFault.TheVariants.{Memory};

use std::alloc::{AllocError, AllocFailed};

/// What there are too many of.
#[derive(Clone, Copy, Debug)]
pub enum Limit {
    /// More than 60 elements of the select list.
    Items,
    /// More than 10 tables in FROM.
    Tables,
    /// More than 40 predicates in WHERE.
    Predicates,
    /// More than 8 columns in GROUP BY.
    GroupBy,
    /// More than 8 keys in ORDER BY.
    OrderBy,
}

/// The first fault of a text. Offsets are bytes from 0.
#[derive(Clone, Copy, Debug)]
pub enum SqlFault {
    /// More than 65,536 bytes.
    TooLong,
    /// A byte of 128 or more.
    NotAscii { at: u32 },
    /// A control byte, or a byte at which no token can be made out.
    Token { at: u32 },
    /// A token with which no query goes on, or an end that comes too early.
    Grammar { at: u32 },
    /// The first token of an element that is one too many.
    TooMany { what: Limit, at: u32 },
    Memory,
}

impl From<AllocError> for SqlFault {
    ghost from_gives = { λ _ e. e ≡ Memory };

    fn from(_e: AllocError) -> SqlFault {
        SqlFault::Memory
    }
}

impl<T: Drop> From<AllocFailed<T>> for SqlFault {
    ghost from_gives = { λ _ e. e ≡ Memory };

    fn from(_e: AllocFailed<T>) -> SqlFault {
        SqlFault::Memory
    }
}
