//! How a run ends that plans its query in stages.
ghost use Rattle.std.specs.Prelude.{◌≡◌, ◌++◌, IfOk, List as AnyList, ℕ};
ghost use Rattle.request_props.specs.Numbered.{IsProps};
ghost use Rattle.plan_lines.specs.Found.{IsFoundText};
ghost use Rattle.stage_plan.specs.Stages.{query_in};
ghost use Rattle.command_line.specs.HeldStages.{stages_read};
ghost use Rattle.command_line.specs.Options.{AreSettings};
ghost use Rattle.orca_cli.specs.Searches.{status_for};
ghost use Rattle.orca_cli.specs.Staged.{IsStagedEnd, stage_lines as the_stage_lines};
ghost use Rattle.orca_cli.specs.Views.{text_of};

use crate::asked::{Asked, InStages};
use crate::ending::{Ending, too_many_entries};
use crate::planning::status_of;
use crate::stage_text::stage_lines;
use command_line::Settings;
use orca_base::List;
use orca_io::Gate;
use plan_report::plan_text;
use plan_tree::Found;
use stage_plan::{
    Stage, Staged, StagedRun, run_stages, staged_plans_are_least, stages_share_props,
};
use std::alloc::{AllocError, Global};
use std::sync::Wait;
use std::thread::Threads;

/// The ending of a query that is planned in stages, by as many workers as are chosen. Each search has a note of its
/// own. The rules that are off in the query are other ones afterwards.
pub fn stages_ending<R: Threads + Wait + Sync, G: Gate>(
    rt: &R,
    alloc: Global,
    settings: Settings,
    staged: &mut InStages,
    gate: &G,
) -> Result<Ending, AllocError>
    requires props { IsProps staged.old.asked.query staged.old.asked.props }
    requires settings { AreSettings settings }
    ensures { IfOk result (λ ending. IsStagedEnd staged.old.asked.query settings.capacity
        (stages_read staged.old.stages) ending.status (text_of ending)) }
{
    // For the proof: the plan is the least one of the stage of this number.
    staged_plans_are_least();
    let some = staged.stages;
    let stages = some.as_slice();
    let StagedRun { found, ran } = run_stages(
        rt,
        alloc,
        &mut staged.asked.query,
        &staged.asked.props,
        stages,
        settings.capacity,
        settings.workers,
        gate,
    )?;
    match found {
        Staged::Least { stage, plan, cost } => {
            let stage = stages[stage as usize];
            told(
                alloc,
                &mut staged.asked,
                stage,
                &Found::Least { plan, cost },
                &ran,
            )
        }
        Staged::NoPlan => told(alloc, &mut staged.asked, stages[0], &Found::NoPlan, &ran),
        Staged::Full { stage: _ } => too_many_entries(alloc, settings.capacity),
    }
}

// The lines of the stages, and behind them the text of what was found in this one.
fn told(
    alloc: Global,
    asked: &mut Asked,
    stage: Stage,
    found: &Found,
    ran: &List<Option<u64>>,
) -> Result<Ending, AllocError>
    requires { IsProps asked.old.query asked.old.props }
    ensures status { IfOk result (λ made. made.status ≡ status_for found.now) }
    ensures text { IfOk result (λ made. (plan : AnyList ℕ)
        × IsFoundText (query_in asked.old.query stage) found.now plan
        × (text_of made ≡ the_stage_lines ran.now ++ plan)) }
{
    let mut texts = stage_lines(alloc, ran)?;
    texts.push(text_in_stage(alloc, asked, stage, found)?)?;
    Ok(Ending {
        status: status_of(found),
        texts,
    })
}

// The text of what was found in the stage. A plan's nodes are of members of its groups in the stage.
fn text_in_stage(
    alloc: Global,
    asked: &mut Asked,
    stage: Stage,
    found: &Found,
) -> Result<Vec<u8>, AllocError>
    requires { IsProps asked.old.query asked.old.props }
    ensures { IfOk result
        (λ text. IsFoundText (query_in asked.old.query stage) found.now text.items) }
{
    // For the proof: what was collected of the query holds of it in the stage.
    stages_share_props();
    asked.query.options.off = stage.off;
    plan_text(alloc, &asked.query, &asked.props, found)
}
