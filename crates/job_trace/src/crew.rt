//! The text by worker: the goals of a search, each with the worker that finished it.
#![tactic(auto)]

ghost use Rattle.std.specs.Prelude.{◌≡◌, IfOk, OnOk, length, string_bytes};
ghost use Rattle.std.specs.List.{concat};
ghost use Rattle.request_props.specs.Numbered.{IsProps};
ghost use Rattle.goal_children.specs.Over.{AreGoalWords};
ghost use Rattle.query_text.specs.Added.{AddsText};
ghost use Rattle.job_trace.specs.Trace as texts;
ghost use Rattle.job_trace.specs.Trace.{IsCrewText};

use crate::goals::push_goal_line;
use crate::pieces::Pieces;
use crate::trace::goals_over;
use goal_space::GoalKind;
use query_core::Query;
use request_props::Props;
use std::alloc::{AllocError, Global};

/// The bytes of the text by worker. `goals` are words, ascending, and `who` has the worker of each.
pub fn crew_text(
    alloc: Global,
    query: &Query,
    props: &Props,
    goals: &[u64],
    who: &[u32],
) -> Result<Vec<u8>, AllocError>
    requires props { IsProps query.now props.now }
    requires goals { AreGoalWords query.now goals.now }
    requires each { length who.now ≡ length goals.now }
    ensures { IfOk result (λ text. IsCrewText query.now goals.now who.now text.items) }
{
    let goals = goals_over(alloc, query, props, goals)?;
    let mut text = String::new(alloc);
    text.push_str("by-worker\n")?;
    push_crew_lines(alloc, query, props, goals.as_slice(), who, &mut text)?;
    Ok(text.into_bytes())
}

// Adds a line for each goal.
fn push_crew_lines(
    alloc: Global,
    query: &Query,
    props: &Props,
    goals: &[GoalKind],
    who: &[u32],
    text: &mut String,
) -> Result<(), AllocError>
    requires props { IsProps query.now props.now }
    requires each { length who.now ≡ length goals.now }
    ensures ok { OnOk result (AddsText (string_bytes text.old)
        (concat (texts.crew_lines query.now goals.now who.now)) (string_bytes text.new)) }
{
    let mut pieces = Pieces::new(alloc, goals.len())?;
    for place in 0..goals.len() {
        let worker = who[place];
        write!(text, "{worker} ")?;
        push_goal_line(alloc, query, props, goals[place], &mut pieces, text)?;
    }
    Ok(())
}
