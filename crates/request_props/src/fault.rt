use std::alloc::{AllocError, AllocFailed};

/// Why the lists and orders of a query can't be numbered.
#[derive(Clone, Copy, Debug, PartialEq, Eq)]
pub enum PropsFault {
    /// There are more than 60 hashed lists.
    TooManyLists { found: u32 },
    /// There are more than 60 orders.
    TooManyOrders { found: u32 },
    Memory,
}

impl From<AllocError> for PropsFault {
    ghost use Rattle.std.specs.Prelude.{◌≡◌};
    ghost use Rattle.request_props.specs.declared.fault.PropsFault.TheVariants.{Memory};

    ghost from_gives = { λ _ e. e ≡ Memory };

    fn from(_refused: AllocError) -> PropsFault {
        PropsFault::Memory
    }
}

impl<T: Drop> From<AllocFailed<T>> for PropsFault {
    ghost use Rattle.std.specs.Prelude.{◌≡◌};
    ghost use Rattle.request_props.specs.declared.fault.PropsFault.TheVariants.{Memory};

    ghost from_gives = { λ _ e. e ≡ Memory };

    fn from(_refused: AllocFailed<T>) -> PropsFault {
        PropsFault::Memory
    }
}
