//! What a dump says, and why it can't be written or read.
use orca_base::List;
use query_core::Options;
use std::alloc::{AllocError, AllocFailed};

/// What is chosen for the query of a dump. How many workers search it is no part of this: no plan
/// depends on it.
#[derive(Clone, Copy, Debug, PartialEq, Eq)]
pub struct DumpOptions {
    /// How many members and goals there is room for.
    pub capacity: u32,
    pub options: Options,
    /// Whether the memo is printed behind the plan.
    pub memo: bool,
    /// Whether the goals are printed.
    pub trace: bool,
}

/// What a dump says.
#[derive(Drop)]
pub struct Dump {
    pub options: DumpOptions,
    /// The bytes of the catalogue.
    pub catalog: List<u8>,
    /// The bytes of the query.
    pub query: List<u8>,
}

/// Why there is no dump. Lines are counted from 0.
#[derive(Clone, Copy, Debug, PartialEq, Eq)]
pub enum DumpFault {
    /// The catalogue's text or the dump has more bytes than it may have.
    TooLong,
    /// This is the first line that isn't of the form.
    Line { line: u32 },
    Memory,
}

impl From<AllocError> for DumpFault {
    ghost use Rattle.std.specs.Prelude.{◌≡◌};
    ghost use Rattle.dump_replay.specs.declared.dump.DumpFault.TheVariants.{Memory};

    ghost from_gives = { λ _ e. e ≡ Memory };

    fn from(_refused: AllocError) -> DumpFault {
        DumpFault::Memory
    }
}

impl<T: Drop> From<AllocFailed<T>> for DumpFault {
    ghost use Rattle.std.specs.Prelude.{◌≡◌};
    ghost use Rattle.dump_replay.specs.declared.dump.DumpFault.TheVariants.{Memory};

    ghost from_gives = { λ _ e. e ≡ Memory };

    fn from(_refused: AllocFailed<T>) -> DumpFault {
        DumpFault::Memory
    }
}
