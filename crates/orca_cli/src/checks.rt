//! A text that is checked as a query's plan: its file, and how its run ends.
ghost use Rattle.std.specs.Prelude.{◌≡◌, ◌≤◌, ℕ, List, IfOk, IfErr};
ghost use Rattle.request_props.specs.Numbered.{IsProps};
ghost use Rattle.orca_cli.specs.Checked.{IsCheckEnd};
ghost use Rattle.orca_cli.specs.Prepared.{AreTold, FileStops, IsPlanTooLong, reads};
ghost use Rattle.orca_cli.specs.Views.{EndsWith, text_of};

use crate::asked::Checked;
use crate::ending::{End, Ending, refused_plan, valid_plan};
use crate::faults::plan_fault_text;
use crate::reading::read_file;
use orca_io::Shelf;
use std::alloc::{AllocError, Global};
use text_check::check_text;

/// The most bytes that the text of a plan may have.
const PLAN_LIMIT: u64 = 1_048_576;

/// The text in the file of this name, or how the run ends without one.
pub fn plan_of_file<S: Shelf>(alloc: Global, shelf: &mut S, name: &str) -> Result<Vec<u8>, End>
    ensures told { IfOk result (λ plan. AreTold (S.held shelf.old name.now) plan.items) }
    ensures stops { IfErr result (EndsWith (FileStops IsPlanTooLong name.now
        (reads (S.held shelf.old) (S.faults shelf.old) (S.faults shelf.new)))) }

    ensures same { (n : List ℕ) → S.held shelf.new n ≡ S.held shelf.old n }
    ensures later { (n : List ℕ) → S.faults shelf.old n ≤ S.faults shelf.new n }
{
    match read_file(alloc, shelf, name, PLAN_LIMIT) {
        Ok(Some(plan)) => Ok(plan),
        Ok(None) => Err(End::Told(refused_plan(alloc, "too long")?)),
        Err(end) => Err(end),
    }
}

/// What the plan costs whose text this is, or why it is no valid plan of the query.
pub fn check_ending(alloc: Global, checked: &Checked) -> Result<Ending, AllocError>
    requires { IsProps checked.now.asked.query checked.now.asked.props }
    ensures { IfOk result (λ ending. IsCheckEnd checked.now.asked.query checked.now.plan.items
        ending.status (text_of ending)) }
{
    let asked = &checked.asked;
    match check_text(alloc, &asked.query, &asked.props, checked.plan.as_slice()) {
        Ok(cost) => valid_plan(alloc, cost),
        Err(fault) => {
            let cause = plan_fault_text(alloc, fault)?;
            refused_plan(alloc, &cause)
        }
    }
}
