//! The least plan of a text or of a select, by one worker or by a crew.
#![tactic(auto)]

ghost use Rattle.std.specs.Prelude.{ℕ, ◌≤◌, IfOk, IfErr};
ghost use Rattle.query_core.specs.Catalog.{IsCatalog};
ghost use Rattle.sql_reader.specs.Readable.{IsReadable};
ghost use Rattle.request_props.specs.Numbered.{IsProps};
ghost use Rattle.job_engine.specs.Runs.{RunEnds};
ghost use Rattle.planner.specs.Settings.{AreSettings};
ghost use Rattle.planner.specs.Planned.{IsPlannedQuery, IsPlannedSelect, IsPlannedText, IsRefusedSelect, IsRefusedText};

use crate::fault::PlanFault;
use crate::node::{LeastPlan, Planned};
use crate::nodes::nodes_of;
use crate::settings::Settings;
use job_engine::{Outcome, RunNote, search_alone, search_by_crew};
use orca_io::NoGate;
use plan_report::extract;
use plan_tree::Found;
use query_core::{Catalog, Query};
use request_props::Props;
use sql_bind::bind;
use sql_reader::{Select, read_sql};
use std::alloc::{AllocError, Global};
use std::sync::Wait;
use std::thread::Threads;

/// Plans a query in SQL by one worker. It returns, and waits for nobody.
pub fn plan_sql(
    alloc: Global,
    catalog: &Catalog,
    settings: Settings,
    text: &[u8],
) -> Result<Planned, PlanFault>
    requires catalogue { IsCatalog catalog.now }
    requires settings { AreSettings settings }
    ensures planned { IfOk result (IsPlannedText catalog.now settings text.now) }
    ensures refused { IfErr result (IsRefusedText catalog.now settings text.now) }
{
    let select = read_sql(alloc, text)?;
    plan_select(alloc, catalog, settings, &select)
}

/// Plans a query in SQL by so many workers, each in a thread of its own. It may wait.
pub fn plan_sql_by_crew<R: Threads + Wait + Sync>(
    rt: &R,
    alloc: Global,
    catalog: &Catalog,
    settings: Settings,
    workers: u32,
    text: &[u8],
) -> Result<Planned, PlanFault>
    requires catalogue { IsCatalog catalog.now }
    requires settings { AreSettings settings }
    requires workers { (1 ≤ workers) × (workers ≤ 64) }
    ensures planned { IfOk result (IsPlannedText catalog.now settings text.now) }
    ensures refused { IfErr result (IsRefusedText catalog.now settings text.now) }
{
    let select = read_sql(alloc, text)?;
    plan_select_by_crew(rt, alloc, catalog, settings, workers, &select)
}

/// Plans a select by one worker. It returns, and waits for nobody.
pub fn plan_select(
    alloc: Global,
    catalog: &Catalog,
    settings: Settings,
    select: &Select,
) -> Result<Planned, PlanFault>
    requires catalogue { IsCatalog catalog.now }
    requires settings { AreSettings settings }
    requires readable { IsReadable select.now }
    ensures planned { IfOk result (IsPlannedSelect catalog.now settings select.now) }
    ensures refused { IfErr result (IsRefusedSelect catalog.now settings select.now) }
{
    let query = bind(alloc, select, catalog, settings.options)?;
    let props = Props::collect(alloc, &query)?;
    let capacity = settings.capacity;
    let mut note = RunNote::new();
    let outcome = search_alone(alloc, &query, &props, capacity, &mut note)?;
    Ok(planned(alloc, query, &props, capacity, &outcome)?)
}

/// Plans a select by so many workers, each in a thread of its own. It may wait.
pub fn plan_select_by_crew<R: Threads + Wait + Sync>(
    rt: &R,
    alloc: Global,
    catalog: &Catalog,
    settings: Settings,
    workers: u32,
    select: &Select,
) -> Result<Planned, PlanFault>
    requires catalogue { IsCatalog catalog.now }
    requires settings { AreSettings settings }
    requires workers { (1 ≤ workers) × (workers ≤ 64) }
    requires readable { IsReadable select.now }
    ensures planned { IfOk result (IsPlannedSelect catalog.now settings select.now) }
    ensures refused { IfErr result (IsRefusedSelect catalog.now settings select.now) }
{
    let query = bind(alloc, select, catalog, settings.options)?;
    let props = Props::collect(alloc, &query)?;
    let capacity = settings.capacity;
    let mut note = RunNote::new();
    let outcome = search_by_crew(
        rt, alloc, &query, &props, capacity, workers, &NoGate, &mut note,
    )?;
    Ok(planned(alloc, query, &props, capacity, &outcome)?)
}

// What the search of a query gives, however many workers made it.
fn planned(
    alloc: Global,
    query: Query,
    props: &Props,
    capacity: u32,
    outcome: &Outcome,
) -> Result<Planned, AllocError>
    requires props { IsProps query props.now }
    requires ends { (workers : ℕ) × RunEnds query capacity workers outcome.now }
    ensures { IfOk result (IsPlannedQuery query capacity) }
{
    let searched = match outcome {
        Outcome::Done(searched) => searched,
        Outcome::Full { .. } => return Ok(Planned::TooManyEntries { capacity }),
        Outcome::Unfinished { .. } => unreachable!(),
    };
    match extract(alloc, &query, props, searched)? {
        Found::Least { plan, cost } => {
            let nodes = nodes_of(alloc, &query, props, &plan)?;
            Ok(Planned::Least(LeastPlan { query, cost, nodes }))
        }
        Found::NoPlan => Ok(Planned::NoPlan),
    }
}
