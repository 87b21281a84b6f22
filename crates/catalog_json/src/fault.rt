//! Why a catalogue is refused.
ghost use Rattle.std.specs.Prelude.{◌≡◌, IfOk};
ghost use Rattle.catalog_json.specs.Outcome.{told};

use crate::place::Place;
use orca_base::Text;
use std::alloc::{AllocError, AllocFailed, Global};

/// Why bytes are no catalogue: the first fault of the walk. Paths are JSON pointers.
#[derive(Debug, Drop)]
pub enum CatalogFault {
    /// There are more than 1,048,576 bytes.
    TooLong,
    /// The bytes are no UTF-8, no JSON, or nest deeper than 127 levels.
    NotJson,
    /// A part is absent, of the wrong kind, no whole number, or no name of at most 64 bytes.
    Shape { path: Text },
    /// The version is a whole number other than 1 and 2.
    Version { found: u64 },
    /// A number, or the length of a list, lies outside its limits, or the end of a bucket isn't above
    /// what comes before it.
    Range { path: Text },
    /// A name was there before.
    Twice { path: Text },
    /// A listed name is no column of its table.
    UnknownColumn { path: Text },
    Memory,
}

/// The first fault of the walk, with its place.
#[derive(Clone, Copy)]
pub enum Fault {
    Shape(Place),
    Version(u64),
    Range(Place),
    Twice(Place),
    UnknownColumn(Place),
    Memory,
}

impl From<AllocError> for Fault {
    ghost use Rattle.std.specs.Prelude.{◌≡◌};
    ghost use Rattle.catalog_json.specs.declared.fault.Fault.TheVariants.{Memory};

    ghost from_gives = { λ _ e. e ≡ Memory };

    fn from(_refused: AllocError) -> Fault {
        Fault::Memory
    }
}

impl<T: Drop> From<AllocFailed<T>> for Fault {
    ghost use Rattle.std.specs.Prelude.{◌≡◌};
    ghost use Rattle.catalog_json.specs.declared.fault.Fault.TheVariants.{Memory};

    ghost from_gives = { λ _ e. e ≡ Memory };

    fn from(_refused: AllocFailed<T>) -> Fault {
        Fault::Memory
    }
}

impl Fault {
    /// The fault as a caller sees it, with its place as a pointer.
    pub fn told(self, alloc: Global) -> Result<CatalogFault, AllocError>
        ensures { IfOk result (λ fault. fault ≡ told self) }
    {
        Ok(match self {
            Fault::Shape(place) => CatalogFault::Shape {
                path: place.path(alloc)?,
            },
            Fault::Version(found) => CatalogFault::Version { found },
            Fault::Range(place) => CatalogFault::Range {
                path: place.path(alloc)?,
            },
            Fault::Twice(place) => CatalogFault::Twice {
                path: place.path(alloc)?,
            },
            Fault::UnknownColumn(place) => CatalogFault::UnknownColumn {
                path: place.path(alloc)?,
            },
            Fault::Memory => CatalogFault::Memory,
        })
    }
}
