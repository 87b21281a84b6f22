//! A host that has the optimiser as a library: it makes a catalogue and a query without files, has the query planned by
//! two workers, and walks the plan.
#![tactic(auto)]

mod host;
mod walk;

use planner::{BindFault, PlanFault, Planned, PropsFault, Settings, plan_select_by_crew};
use std::alloc::{AllocError, Global};
use std::io;
use std::io::ErrorKind;
use std::process::ExitCode;
use std::sync::Wait;
use std::thread::Threads;

const WORKERS: u32 = 2;

fn main(rt: HostRuntime) -> ExitCode {
    match planned(&rt, rt.alloc()) {
        Ok(true) => ExitCode::from(0),
        Ok(false) => ExitCode::from(1),
        Err(error) if error.kind() == ErrorKind::OutOfMemory => ExitCode::from(2),
        Err(_) => ExitCode::from(3),
    }
}

// Prints the plan, or why there is none; whether there is one.
fn planned<R: Print + Threads + Wait + Sync>(rt: &R, alloc: Global) -> io::Result<bool> {
    let catalog = host::catalog(alloc)?;
    if !catalog.keeps_limits() {
        return refused(rt, "the catalogue is out of its limits");
    }
    let statement = host::statement(alloc)?;
    match plan_select_by_crew(rt, alloc, &catalog, Settings::usual(), WORKERS, &statement) {
        Ok(planned) => told(rt, alloc, &planned),
        Err(fault) => unplanned(rt, fault),
    }
}

fn told(rt: &impl Print, alloc: Global, planned: &Planned) -> io::Result<bool> {
    match planned {
        Planned::Least(plan) => {
            println!(rt; "cost {}", plan.cost)?;
            walk::visit(rt, alloc, plan)?;
            Ok(true)
        }
        Planned::NoPlan => refused(rt, "no plan"),
        Planned::TooManyEntries { capacity: _ } => refused(rt, "too many entries"),
    }
}

// Why the statement isn't planned. The host gave all names the place 0, so none is told.
fn unplanned(rt: &impl Print, fault: PlanFault) -> io::Result<bool> {
    let cause = match fault {
        PlanFault::Syntax(_) => "the text is no query",
        PlanFault::Binding(BindFault::UnknownTable { .. }) => "a table isn't in the catalogue",
        PlanFault::Binding(BindFault::TwiceAlias { .. }) => "a name is given twice",
        PlanFault::Binding(BindFault::UnknownColumn { .. }) => "a column is in no table",
        PlanFault::Binding(BindFault::Ambiguous { .. }) => "a column is in several tables",
        PlanFault::Binding(BindFault::NotGrouped { .. }) => "a column isn't in GROUP BY",
        PlanFault::Binding(_) => "too many columns and aggregates",
        PlanFault::Limits(PropsFault::TooManyLists { .. }) => "too many hashed lists",
        PlanFault::Limits(_) => "too many orders",
        PlanFault::Memory => return Err(io::Error::from(AllocError)),
    };
    refused(rt, cause)
}

fn refused(rt: &impl Print, cause: &str) -> io::Result<bool> {
    println!(rt; "{cause}")?;
    Ok(false)
}
