//! The goals of the members of a group, in the order of words.
#![tactic(auto)]

ghost use Rattle.std.specs.Prelude.{◌≡◌, ◌<◌, ◌≤◌, ◌^◌, ◌↔◌, ℕ, IfSome, IsTrue, MatchOption, OnOk, Some, length, map};
ghost use Rattle.std.specs.Prelude.{slice_index};
ghost use Rattle.std.specs.List.{All};
ghost use Rattle.std.specs.List.Sorted.{IsStrictlyIncreasing};
ghost use Rattle.query_core.specs.declared.expressions.ExprParts.{ExprParts as AnyExprParts};
ghost use Rattle.query_core.specs.declared.expressions.PhysicalExpr.{PhysicalExpr as AnyPhysicalExpr};
ghost use Rattle.query_core.specs.Keys.{IsGroup};
ghost use Rattle.query_core.specs.Goals.{FitsExpr};
ghost use Rattle.query_core.specs.Expressions.{expr_of, word_of, IsCandidate, IsCandidateWord};
ghost use Rattle.request_props.specs.Numbered.{IsNumbered};
ghost use Rattle.plan_tree.specs.Alternatives.{HasAlternative};
ghost use Rattle.goal_children.specs.Finding.{AppendsGoals, FindsFrom, IsOfMembers};
ghost use Rattle.goal_children.specs.GroupMembers.{AreHeldFor};
ghost use Rattle.goal_children.specs.Memo.{IsListedMemo};
ghost use Rattle.goal_space.specs.Words.{IsGoalInRange};
ghost use Rattle.goal_space.specs.declared.goals.GoalKind.{GoalKind as AnyGoalKind};
ghost use Rattle.goal_children.specs.MemberJobs.{word_at, HasNumberedJob, HaveNoGoals, IsFirstGoal, IsGoalAmong};
ghost use Rattle.goal_children.specs.MemberJobs.{IsGoalOf, IsGoalOfWord, IsJobInRange, IsServed, IsTransformed};

use crate::group_members::{GroupMembers, hold_members};
use crate::jobs::MemberJob;
use crate::memo::Memo;
use goal_space::{GoalKind, Phase};
use plan_tree::may_serve;
use query_core::{
    Expr, ExprParts, Goal, GoalParts, KeyParts, PhysicalExpr, candidates_are_known,
    expressions_are_one, groups_are_known,
};
use request_props::{Request, code};
use std::alloc::AllocError;
use xform_rules::words_of;

/// The first of the goals that the members of the group have for the job, from the bound on.
pub fn member_goal_from(
    memo: Memo<'_>,
    group: KeyParts,
    job: MemberJob,
    bound: u64,
) -> Option<GoalKind>
    requires memo { IsListedMemo memo }
    requires known { IsGroup memo.query.now group }
    requires numbered { HasNumberedJob memo.query.now job }
    ensures { FindsFrom (IsOfMembers memo.entry.query.now memo.entry.members.now group job) bound result }
{
    // For the proof: the words of candidates fit, and groups have keys.
    candidates_are_known();
    expressions_are_one();
    groups_are_known();
    let own = words_of(memo.members, group);
    let from = first_from(job, own, bound);
    first_goal(memo, job, &own[from..])
}

/// Adds the goals that the members of the group have for the job. Its members are held for the next call.
pub fn push_member_goals(
    memo: Memo<'_>,
    group: KeyParts,
    job: MemberJob,
    held: &mut GroupMembers,
    goals: &mut Vec<GoalKind>,
) -> Result<(), AllocError>
    requires memo { IsListedMemo memo }
    requires known { IsGroup memo.query.now group }
    requires numbered { HasNumberedJob memo.query.now job }
    requires held { AreHeldFor memo.members.now held.old }
    ensures ok { OnOk result
        (AppendsGoals (IsOfMembers memo.entry.query.now memo.entry.members.now group job)
        goals.old.items goals.new.items) }
    ensures held { OnOk result (AreHeldFor memo.entry.members.now held.new) }
{
    // For the proof: the words of candidates fit, a word is that of one expression, and groups have keys.
    candidates_are_known();
    expressions_are_one();
    groups_are_known();
    hold_members(memo.members, group, held)?;
    push_goals_of(memo, job, held.members.as_slice(), goals)?;
    Ok(())
}

// Adds the goals that the expressions have for the job.
fn push_goals_of(
    memo: Memo<'_>,
    job: MemberJob,
    exprs: &[ExprParts],
    goals: &mut Vec<GoalKind>,
) -> Result<(), AllocError>
    requires memo { IsListedMemo memo }
    requires candidates { All (IsCandidate memo.query.now) exprs.now }
    requires ascending { IsStrictlyIncreasing (map word_of exprs.now) }
    requires numbered { HasNumberedJob memo.query.now job }
    ensures ok { OnOk result
        (AppendsGoals (IsGoalAmong memo.entry.query.now job (map word_of exprs.now))
        goals.old.items goals.new.items) }
{
    for e in exprs {
        push_goal_of(memo, job, *e, goals)?;
    }
    Ok(())
}

// Adds the goal that the expression has for the job, if it has one.
fn push_goal_of(
    memo: Memo<'_>,
    job: MemberJob,
    e: ExprParts,
    goals: &mut Vec<GoalKind>,
) -> Result<(), AllocError>
    requires memo { IsListedMemo memo }
    requires candidate { IsCandidate memo.query.now e }
    requires numbered { HasNumberedJob memo.query.now job }
    ensures ok { OnOk result
        (AppendsGoals (IsGoalOfWord memo.entry.query.now job (word_of e)) goals.old.items goals.new.items) }
{
    // For the proof: the words of candidates fit, and a word is that of one expression.
    candidates_are_known();
    expressions_are_one();
    // Either job has a call of its own, so that no goal is moved from one place to another before it is added.
    match job {
        MemberJob::Transform(phase) => push_found(transform(phase, e), goals),
        MemberJob::Serve(wanted) => push_found(serve(memo, e, wanted), goals),
    }
}

// Adds the goal that was found, if one was.
fn push_found(found: Option<GoalKind>, goals: &mut Vec<GoalKind>) -> Result<(), AllocError>
    requires { IfSome found IsGoalInRange }
    ensures ok { OnOk result
        (AppendsGoals (λ k. found ≡ Some k) goals.old.items goals.new.items) }
{
    match found {
        Some(goal) => {
            goals.push(goal)?;
            Ok(())
        }
        None => Ok(()),
    }
}

// The goal of the first of the words that has one for the job.
fn first_goal(memo: Memo<'_>, job: MemberJob, words: &[u64]) -> Option<GoalKind>
    requires memo { IsListedMemo memo }
    requires candidates { All (IsCandidateWord memo.query.now) words.now }
    requires numbered { HasNumberedJob memo.query.now job }
    ensures { MatchOption result
        (HaveNoGoals memo.entry.query.now job words.now)
        (IsFirstGoal memo.entry.query.now job words.now) }
{
    // For the proof: the words of candidates fit.
    candidates_are_known();
    for word in words {
        match job.goal_of(memo, Expr(*word).known_parts()) {
            Some(goal) => return Some(goal),
            None => {}
        }
    }
    None
}

// The place of the first of the words whose goal isn't below the bound.
fn first_from(job: MemberJob, words: &[u64], bound: u64) -> usize
    requires small { All FitsExpr words.now }
    requires ascending { IsStrictlyIncreasing words.now }
    requires in_range { IsJobInRange job }
    ensures within { result ≤ length words.now }
    ensures before { (k : ℕ) → k < result → word_at job (slice_index words.now k) < bound }
    ensures after { (k : ℕ) → result ≤ k → k < length words.now →
        bound ≤ word_at job (slice_index words.now k) }
{
    let (mut low, mut high) = (0, words.len());
    'halves: while low < high {
        let middle = low + (high - low) / 2;
        if job.word_of(Expr(words[middle])).0 < bound {
            low = middle + 1;
        } else {
            high = middle;
        }
    }
    low
}

impl MemberJob {
    // The word of the goal that the expression of this word would have.
    fn word_of(self, expr: Expr) -> Goal
        requires small { FitsExpr expr.0 }
        requires in_range { IsJobInRange self }
        ensures { result.0 ≡ word_at self expr.0 }
    {
        match self {
            MemberJob::Transform(Phase::Exploration) => Goal::make(GoalParts::ExpE(expr)),
            MemberJob::Transform(Phase::Implementation) => Goal::make(GoalParts::ImpE(expr)),
            MemberJob::Serve(wanted) => Goal::make(GoalParts::OptE(expr, code(wanted))),
        }
    }

    // The goal that the expression has.
    fn goal_of(self, memo: Memo<'_>, e: ExprParts) -> Option<GoalKind>
        requires memo { IsListedMemo memo }
        requires candidate { IsCandidate memo.query.now e }
        requires numbered { HasNumberedJob memo.query.now self }
        ensures { MatchOption result
            ((goal : AnyGoalKind) → IsGoalOf memo.entry.query.now self e goal → ⊥)
            (IsGoalOf memo.entry.query.now self e) }
    {
        match self {
            MemberJob::Transform(phase) => transform(phase, e),
            MemberJob::Serve(wanted) => serve(memo, e, wanted),
        }
    }
}

// The goal of a logical expression.
fn transform(phase: Phase, e: ExprParts) -> Option<GoalKind>
    ensures { MatchOption result
        ((goal : AnyGoalKind) → IsTransformed phase e goal → ⊥)
        (IsTransformed phase e) }
{
    if e.operator.is_logical() {
        Some(phase.of_expr(e))
    } else {
        None
    }
}

// The goal of a physical expression that may serve the request.
fn serve(memo: Memo<'_>, e: ExprParts, wanted: Request) -> Option<GoalKind>
    requires memo { IsListedMemo memo }
    requires candidate { IsCandidate memo.query.now e }
    requires numbered { IsNumbered memo.query.now wanted.order }
    ensures { MatchOption result
        ((goal : AnyGoalKind) → IsServed memo.entry.query.now wanted e goal → ⊥)
        (IsServed memo.entry.query.now wanted e) }
{
    match e.as_physical() {
        Some(physical) => serve_by(memo, physical, wanted),
        None => None,
    }
}

fn serve_by(memo: Memo<'_>, e: PhysicalExpr, wanted: Request) -> Option<GoalKind>
    requires memo { IsListedMemo memo }
    requires candidate { IsCandidate memo.query.now (expr_of e) }
    requires numbered { IsNumbered memo.query.now wanted.order }
    ensures { MatchOption result
        ((mode : ℕ) → HasAlternative memo.entry.query.now e wanted mode → ⊥)
        (λ goal. (goal ≡ GoalKind.OptE e wanted)
        × ((mode : ℕ) × HasAlternative memo.entry.query.now e wanted mode)) }
{
    if may_serve(memo.query, memo.props, &e, wanted) {
        Some(GoalKind::OptE(e, wanted))
    } else {
        None
    }
}
