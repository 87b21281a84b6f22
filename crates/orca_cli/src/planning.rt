//! The plan of a query and its text, from the answers to all goals.
ghost use Rattle.std.specs.Prelude.{◌≡◌, IfOk};
ghost use Rattle.request_props.specs.Numbered.{IsProps};
ghost use Rattle.plan_report.specs.Sources.{HasAnswers};
ghost use Rattle.job_outcome.specs.Searched.{answers_of};
ghost use Rattle.orca_cli.specs.Searches.{IsPlanOf, status_for};

use crate::status::Status;
use job_outcome::Searched;
use plan_report::{extract, plan_text};
use plan_tree::Found;
use query_core::Query;
use request_props::Props;
use std::alloc::{AllocError, Global};

/// The lines of a plan, or the line that there is none, and the status that goes with them.
#[derive(Drop)]
pub struct PlanLines {
    pub status: Status,
    pub lines: Vec<u8>,
}

/// The least plan of a query, or that there is none.
pub fn planned(
    alloc: Global,
    query: &Query,
    props: &Props,
    searched: &Searched,
) -> Result<PlanLines, AllocError>
    requires props { IsProps query.now props.now }
    requires answers { HasAnswers query.now (answers_of searched.now) }
    ensures { IfOk result (λ plan. IsPlanOf query.now plan.status plan.lines.items) }
{
    let found = extract(alloc, query, props, searched)?;
    let status = status_of(&found);
    Ok(PlanLines {
        status,
        lines: plan_text(alloc, query, props, &found)?,
    })
}

/// The status that goes with what was found.
pub fn status_of(found: &Found) -> Status
    ensures { result ≡ status_for found.now }
{
    match found {
        Found::Least { .. } => Status::Planned,
        Found::NoPlan => Status::NoPlan,
    }
}
