//! How a run ends whose query was searched.
ghost use Rattle.std.specs.Prelude.{ℕ, ◌≡◌, IfOk};
ghost use Rattle.request_props.specs.Numbered.{IsProps};
ghost use Rattle.job_outcome.specs.Searched.{goals_counted};
ghost use Rattle.job_engine.specs.Runs.{AreDoneBy, IsDoneBy, RunEnds, IsNoted};
ghost use Rattle.orca_cli.specs.Answers.{IsSearchEnd, Note, noted};
ghost use Rattle.orca_cli.specs.Searches.{IsSearch};
ghost use Rattle.orca_cli.specs.Sections.{GoesOn, Tells};
ghost use Rattle.orca_cli.specs.Views.{text_of};

use crate::asked::Asked;
use crate::ending::{Ending, too_many_entries};
use crate::lines::with_first_lines;
use crate::planning::{PlanLines, planned};
use crate::sections::{asks_for_sections, with_sections};
use command_line::{GenInput, Settings};
use job_engine::Outcome;
use job_outcome::{Lists, Searched};
use query_core::Query;
use request_props::Props;
use std::alloc::{AllocError, Global};

/// What the search of a query gave, in lists: the words of its members and its goals, and the worker of each goal.
#[derive(Clone, Copy)]
pub struct Search<'a> {
    pub query: &'a Query,
    pub props: &'a Props,
    pub members: &'a [u64],
    pub goals: &'a [u64],
    pub who: &'a [u32],
}

/// The ending of a run by the outcome of its search, with the note of that search.
pub fn ending_of(
    alloc: Global,
    settings: Settings,
    generated: Option<GenInput>,
    asked: &Asked,
    outcome: &Outcome,
) -> Result<Ending, AllocError>
    requires props { IsProps asked.now.query asked.now.props }
    requires ends { RunEnds asked.now.query settings.capacity settings.workers outcome.now }
    ensures { (note : Note) → IsNoted settings.capacity settings.workers outcome.now note
        → IfOk result (λ ending. IsSearchEnd (Tells generated settings asked.now.query) settings
        asked.now.query note ending.status (text_of ending)) }
{
    match outcome {
        Outcome::Done(searched) => done(alloc, settings, generated, asked, searched),
        Outcome::Full { capacity } => too_many_entries(alloc, *capacity),
        Outcome::Unfinished { ready: _ } => unreachable!(),
    }
}

// The plan from the answers to all goals, and what else is printed.
fn done(
    alloc: Global,
    settings: Settings,
    generated: Option<GenInput>,
    asked: &Asked,
    searched: &Searched,
) -> Result<Ending, AllocError>
    requires props { IsProps asked.now.query asked.now.props }
    requires done { IsDoneBy asked.now.query settings.capacity settings.workers searched.now }
    ensures { (note : Note) → note ≡ noted settings (goals_counted searched.now)
        → IfOk result (λ ending. IsSearchEnd (Tells generated settings asked.now.query) settings
        asked.now.query note ending.status (text_of ending)) }
{
    let plan = planned(alloc, &asked.query, &asked.props, searched)?;
    told(alloc, settings, generated, asked, searched, plan)
}

// What is printed of the plan: first lines where the query was generated, and else all of it with
// the sections that are asked for.
fn told(
    alloc: Global,
    settings: Settings,
    generated: Option<GenInput>,
    asked: &Asked,
    searched: &Searched,
    plan: PlanLines,
) -> Result<Ending, AllocError>
    requires props { IsProps asked.now.query asked.now.props }
    requires done { IsDoneBy asked.now.query settings.capacity settings.workers searched.now }
    ensures status { IfOk result (λ made. made.status ≡ plan.status) }
    ensures text { IfOk result (λ made. Tells generated settings asked.now.query
        plan.lines.items (text_of made)) }
{
    match generated {
        Some(input) => {
            let lists = searched.lists(alloc)?;
            with_first_lines(alloc, input, settings, search_of(asked, &lists), plan)
        }
        None => plan_told(alloc, settings, asked, searched, plan),
    }
}

// The plan with the sections that are asked for. Lists are made for these alone.
fn plan_told(
    alloc: Global,
    settings: Settings,
    asked: &Asked,
    searched: &Searched,
    plan: PlanLines,
) -> Result<Ending, AllocError>
    requires props { IsProps asked.now.query asked.now.props }
    requires done { IsDoneBy asked.now.query settings.capacity settings.workers searched.now }
    ensures status { IfOk result (λ made. made.status ≡ plan.status) }
    ensures text { IfOk result
        (λ made. GoesOn settings asked.now.query plan.lines.items (text_of made)) }
{
    if !asks_for_sections(settings) {
        return Ending::of(alloc, plan.status, plan.lines);
    }
    let lists = searched.lists(alloc)?;
    with_sections(alloc, settings, search_of(asked, &lists), plan)
}

// What was searched, with its lists.
fn search_of<'a>(asked: &'a Asked, lists: &'a Lists) -> Search<'a>
    ensures query { result.query.now ≡ asked.now.query }
    ensures search { (capacity workers : ℕ) → IsProps asked.now.query asked.now.props
        → AreDoneBy asked.now.query capacity workers lists.now → IsSearch result workers }
{
    Search {
        query: &asked.query,
        props: &asked.props,
        members: lists.members.as_slice(),
        goals: lists.goals.as_slice(),
        who: lists.who.as_slice(),
    }
}
