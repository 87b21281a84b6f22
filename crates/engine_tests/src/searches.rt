//! What the engine finds of a query by one worker.

ghost use Rattle.std.specs.Prelude.{IfOk};
ghost use Rattle.xform_rules.specs.Closure.{IsClosureOf};
ghost use Rattle.request_props.specs.Numbered.{IsProps};
ghost use Rattle.goal_space.specs.Answers.{AreAnswers};
ghost use Rattle.goal_children.specs.Listed.{AreGoalsOf};
ghost use Rattle.plan_report.specs.Sources.{HasAnswers};
ghost use Rattle.job_outcome.specs.Searched.{answers_of};
ghost use Rattle.job_engine.specs.Runs.{IsDoneBy};

use job_engine::{Outcome, RunNote, search_alone};
use job_outcome::Searched;
use orca_base::List;
use plan_tree::Answers;
use query_core::Query;
use request_props::Props;
use std::alloc::Global;
use std::test::Fail;

/// The words of all members and of all goals, and the answers to these, in a list and where they are looked up.
#[derive(Drop)]
pub struct Found {
    pub members: List<u64>,
    pub goals: List<u64>,
    pub answers: Answers,
    pub searched: Searched,
}

/// What one worker finds, with room for 8192 entries.
pub fn search(alloc: Global, query: &Query, props: &Props) -> Result<Found, Fail>
    requires { IsProps query.now props.now }
    ensures members { IfOk result (λ found. IsClosureOf query.now found.members) }
    ensures goals { IfOk result (λ found. AreGoalsOf query.now found.goals) }
    ensures answers { IfOk result (λ found. AreAnswers query.now found.answers.list) }
    ensures searched { IfOk result (λ found. HasAnswers query.now (answers_of found.searched)) }
{
    let mut note = RunNote::new();
    match search_alone(alloc, query, props, 8192, &mut note)? {
        Outcome::Done(searched) => listed(alloc, query, searched),
        _ => Err(Fail::new("the engine has not ended")),
    }
}

// What such a search found, with its lists.
fn listed(alloc: Global, _query: &Query, searched: Searched) -> Result<Found, Fail>
    requires { IsDoneBy _query.now 8192 1 searched }
    ensures members { IfOk result (λ found. IsClosureOf _query.now found.members) }
    ensures goals { IfOk result (λ found. AreGoalsOf _query.now found.goals) }
    ensures answers { IfOk result (λ found. AreAnswers _query.now found.answers.list) }
    ensures searched { IfOk result (λ found. HasAnswers _query.now (answers_of found.searched)) }
{
    let lists = searched.lists(alloc)?;
    Ok(Found {
        members: lists.members,
        goals: lists.goals,
        answers: lists.answers,
        searched,
    })
}
