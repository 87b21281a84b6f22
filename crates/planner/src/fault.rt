//! Why a query isn't planned.
#![tactic(auto)]

ghost use Rattle.std.specs.Prelude.{◌≡◌};
ghost use Rattle.planner.specs.declared.fault.PlanFault.TheVariants.{Memory as memory_refused};
ghost use Rattle.planner.specs.Faults.{bind_fault, bind_place, place_of, props_fault, sql_fault, sql_place};

use request_props::PropsFault;
use sql_bind::BindFault;
use sql_reader::SqlFault;
use std::alloc::AllocError;

/// Why a query isn't planned. Places are offsets in its text, in bytes from 0; of a select those that it has.
#[derive(Clone, Copy, Debug)]
pub enum PlanFault {
    /// The text is no query: its first fault. It never comes of a select.
    Syntax(SqlFault),
    /// A name can't be looked up in the catalogue, or there are more than 60 columns and aggregates: the first fault.
    Binding(BindFault),
    /// There are more than 60 hashed lists, or else more than 60 orders.
    Limits(PropsFault),
    /// Memory was refused. It says nothing of the query, and is never inside one of the others.
    Memory,
}

impl From<AllocError> for PlanFault {
    ghost from_gives = { λ _ fault. fault ≡ memory_refused };

    fn from(_refused: AllocError) -> PlanFault {
        PlanFault::Memory
    }
}

impl From<SqlFault> for PlanFault {
    ghost from_gives = { λ fault told. told ≡ sql_fault fault };

    fn from(fault: SqlFault) -> PlanFault {
        match fault {
            SqlFault::TooLong => PlanFault::Syntax(fault),
            SqlFault::NotAscii { .. } => PlanFault::Syntax(fault),
            SqlFault::Token { .. } => PlanFault::Syntax(fault),
            SqlFault::Grammar { .. } => PlanFault::Syntax(fault),
            SqlFault::TooMany { .. } => PlanFault::Syntax(fault),
            SqlFault::Memory => PlanFault::Memory,
        }
    }
}

impl From<BindFault> for PlanFault {
    ghost from_gives = { λ fault told. told ≡ bind_fault fault };

    fn from(fault: BindFault) -> PlanFault {
        match fault {
            BindFault::UnknownTable { .. } => PlanFault::Binding(fault),
            BindFault::TwiceAlias { .. } => PlanFault::Binding(fault),
            BindFault::UnknownColumn { .. } => PlanFault::Binding(fault),
            BindFault::Ambiguous { .. } => PlanFault::Binding(fault),
            BindFault::NotGrouped { .. } => PlanFault::Binding(fault),
            BindFault::TooManyItems { .. } => PlanFault::Binding(fault),
            BindFault::Memory => PlanFault::Memory,
        }
    }
}

impl From<PropsFault> for PlanFault {
    ghost from_gives = { λ fault told. told ≡ props_fault fault };

    fn from(fault: PropsFault) -> PlanFault {
        match fault {
            PropsFault::TooManyLists { .. } => PlanFault::Limits(fault),
            PropsFault::TooManyOrders { .. } => PlanFault::Limits(fault),
            PropsFault::Memory => PlanFault::Memory,
        }
    }
}

impl PlanFault {
    /// The place of the fault in the query's text, for a fault that has one.
    pub fn place(self) -> Option<u32>
        ensures { result ≡ place_of self }
    {
        match self {
            PlanFault::Syntax(fault) => place_in_text(fault),
            PlanFault::Binding(fault) => place_of_name(fault),
            PlanFault::Limits(_) => None,
            PlanFault::Memory => None,
        }
    }
}

fn place_in_text(fault: SqlFault) -> Option<u32>
    ensures { result ≡ sql_place fault }
{
    match fault {
        SqlFault::TooLong => None,
        SqlFault::NotAscii { at } => Some(at),
        SqlFault::Token { at } => Some(at),
        SqlFault::Grammar { at } => Some(at),
        SqlFault::TooMany { what: _, at } => Some(at),
        SqlFault::Memory => None,
    }
}

fn place_of_name(fault: BindFault) -> Option<u32>
    ensures { result ≡ bind_place fault }
{
    match fault {
        BindFault::UnknownTable { at } => Some(at),
        BindFault::TwiceAlias { at } => Some(at),
        BindFault::UnknownColumn { at } => Some(at),
        BindFault::Ambiguous { at } => Some(at),
        BindFault::NotGrouped { at } => Some(at),
        BindFault::TooManyItems { found: _ } => None,
        BindFault::Memory => None,
    }
}
