//! Why a text isn't that of a plan.
#![tactic(auto)]

use crate::fault::TreeFault;
use plan_reading::LineFault;
use std::alloc::AllocError;

/// Why a text isn't the section of a valid plan of the query. Lines are counted from 0. A fault comes where none before
/// it in this list does.
#[derive(Clone, Copy, Debug, PartialEq, Eq)]
pub enum TextFault {
    /// It has more than 1,048,576 bytes.
    TooLong,
    /// This is the first line that is missing, isn't ended by a newline, or hasn't its form.
    Form { line: u32 },
    /// It has more than 1,000 lines of nodes, and so many.
    TooLarge { nodes: u64 },
    /// This is the last line whose node doesn't fit over the plans below it; that of the root isn't of the query's root.
    Kids { line: u32 },
    /// This is the first line of an expression to which no rule leads.
    Member { line: u32 },
    /// This is the first line of a node whose kids don't give what it needs, or whose order or list isn't in its group.
    Needs { line: u32 },
    /// The plan doesn't give what is asked of the whole plan.
    Request,
    /// This is the first line whose rows or cost aren't those of the plan: line 0 where the total isn't.
    Number { line: u32 },
    Memory,
}

impl From<AllocError> for TextFault {
    ghost use Rattle.std.specs.Prelude.{◌≡◌};
    ghost use Rattle.text_check.specs.declared.text_fault.TextFault.TheVariants.{Memory};

    ghost from_gives = { λ _ e. e ≡ Memory };

    fn from(_: AllocError) -> TextFault {
        TextFault::Memory
    }
}

impl From<LineFault> for TextFault {
    ghost use Rattle.text_check.specs.Faults.{told};
    ghost use Rattle.std.specs.Prelude.{◌≡◌};

    ghost from_gives = { λ fault e. e ≡ told fault };

    fn from(fault: LineFault) -> TextFault {
        match fault {
            LineFault::Form { line } => TextFault::Form { line },
            LineFault::Memory => TextFault::Memory,
        }
    }
}

impl From<TreeFault> for TextFault {
    ghost use Rattle.text_check.specs.Faults.{told_of_tree};
    ghost use Rattle.std.specs.Prelude.{◌≡◌};

    ghost from_gives = { λ fault e. e ≡ told_of_tree fault };

    fn from(fault: TreeFault) -> TextFault {
        match fault {
            TreeFault::Kids { line } => TextFault::Kids { line },
            TreeFault::Memory => TextFault::Memory,
        }
    }
}
