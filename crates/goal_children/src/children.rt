//! The children of a goal one after the other, in the order of words. No call here takes memory.
#![tactic(auto)]

ghost use Rattle.std.specs.Prelude.{◌≡◌, IfSome, MatchOption};
ghost use Rattle.std.specs.List.{All};
ghost use Rattle.std.specs.List.Sorted.{IsStrictlyIncreasing};
ghost use Rattle.query_core.specs.Keys.{IsGroup};
ghost use Rattle.query_core.specs.Expressions.{IsCandidateWord, IsPacked};
ghost use Rattle.request_props.specs.Numbered.{IsProps};
ghost use Rattle.goal_space.specs.Words.{goal_word, IsGoalInRange};
ghost use Rattle.goal_space.specs.declared.goals.GoalKind.{GoalKind as AnyGoalKind};
ghost use Rattle.goal_children.specs.Over.{IsGoalOver, IsGoalWordOver};
ghost use Rattle.goal_children.specs.Memo.{IsListedMemo};
ghost use Rattle.goal_children.specs.Children.{AreNoMore, IsChildIn, IsChildWordAt, IsLastChild, IsNextChild};
ghost use Rattle.goal_space.specs.Phases.{IsOfExpression};
ghost use Rattle.goal_children.specs.Finding.{FindsFrom};

use crate::choice::{asked_goal_from, enforced_goal_from};
use crate::expressions::{group_goal_from, left_goal_from, rule_goal_from};
use crate::finding::{bound_behind, goal_from, known_goal, sooner};
use crate::jobs::MemberJob;
use crate::laws::children_are_over_the_query;
use crate::members::member_goal_from;
use crate::memo::Memo;
use goal_space::{GoalKind, Phase, goal_kinds_are_one};
use query_core::{ExprParts, Goal, KeyParts, Query, candidates_are_known, groups_are_known};
use request_props::{Props, Request};

/// The child at this place, from 0, in the order of words, over the listed members.
pub fn child(query: &Query, props: &Props, members: &[u64], goal: Goal, n: u32) -> Option<Goal>
    requires props { IsProps query.now props.now }
    requires candidates { All (IsCandidateWord query.now) members.now }
    requires ascending { IsStrictlyIncreasing members.now }
    requires goal { IsGoalWordOver query.now goal.0 }
    ensures { (k : AnyGoalKind) → IsGoalOver query.now k → goal_word k ≡ goal.0 →
        MatchOption result (AreNoMore query.now members.now k n)
        (IsChildWordAt query.now members.now k n) }
{
    // For the proof: goals over the query have words.
    children_are_over_the_query();
    let memo = Memo {
        query,
        props,
        members,
    };
    nth_child(memo, known_goal(goal), n)
}

fn nth_child(memo: Memo<'_>, goal: GoalKind, n: u32) -> Option<Goal>
    requires memo { IsListedMemo memo }
    requires goal { IsGoalOver memo.query.now goal }
    ensures { MatchOption result
        (AreNoMore memo.entry.query.now memo.entry.members.now goal n)
        (IsChildWordAt memo.entry.query.now memo.entry.members.now goal n) }
{
    // For the proof: children have words, and a word is that of one goal.
    children_are_over_the_query();
    goal_kinds_are_one();
    let Memo {
        query,
        props,
        members,
    } = memo;
    let (mut after, mut passed) = (None, 0);
    'children: while let Some(next) = next_child(query, props, members, goal, after) {
        if passed == n {
            return Some(next.word());
        }
        after = Some(next.word());
        passed += 1;
    }
    None
}

// The child of the least word, over the listed members; behind that of a goal, where one is given.
fn next_child(
    query: &Query,
    props: &Props,
    members: &[u64],
    goal: GoalKind,
    after: Option<Goal>,
) -> Option<GoalKind>
    requires props { IsProps query.now props.now }
    requires candidates { All (IsCandidateWord query.now) members.now }
    requires ascending { IsStrictlyIncreasing members.now }
    requires goal { IsGoalOver query.now goal }
    ensures next { MatchOption result
        (IsLastChild query.now members.now goal after)
        (IsNextChild query.now members.now goal after) }
    ensures over { IfSome result (IsGoalOver query.now) }
    ensures in_range { IfSome result IsGoalInRange }
{
    // For the proof: children are goals over the query too, and so have words.
    children_are_over_the_query();
    let memo = Memo {
        query,
        props,
        members,
    };
    match bound_behind(after) {
        Some(bound) => child_from(memo, goal, bound),
        None => None,
    }
}

// The child of the least word from the bound on: the table of children, one row a kind of goal.
fn child_from(memo: Memo<'_>, goal: GoalKind, bound: u64) -> Option<GoalKind>
    requires memo { IsListedMemo memo }
    requires goal { IsGoalOver memo.query.now goal }
    ensures { FindsFrom (IsChildIn memo.entry.query.now memo.entry.members.now goal) bound result }
{
    // For the proof: the words of candidates fit.
    candidates_are_known();
    let query = memo.query;
    match goal {
        GoalKind::Exp(group) => {
            member_goal_from(memo, group, MemberJob::Transform(Phase::Exploration), bound)
        }
        GoalKind::ExpE(e) => transformed_from(query, e, Phase::Exploration, bound),
        GoalKind::Xf(e, rule) => left_goal_from(e, rule, bound),
        GoalKind::Imp(group) => implemented_from(memo, group, bound),
        GoalKind::ImpE(e) => transformed_from(query, e, Phase::Implementation, bound),
        GoalKind::Opt(group, wanted) => chosen_from(memo, group, wanted, bound),
        GoalKind::OptE(e, wanted) => asked_goal_from(memo, e, wanted, bound),
    }
}

// A child of the goal of an expression in a phase.
fn transformed_from(query: &Query, e: ExprParts, phase: Phase, bound: u64) -> Option<GoalKind>
    requires { IsPacked e }
    ensures { FindsFrom (IsOfExpression query.now phase e) bound result }
{
    sooner(
        group_goal_from(phase, e.children(), bound),
        rule_goal_from(query, phase, e, bound),
    )
}

// A child of the implementation of a group.
fn implemented_from(memo: Memo<'_>, group: KeyParts, bound: u64) -> Option<GoalKind>
    requires memo { IsListedMemo memo }
    requires known { IsGroup memo.query.now group }
    ensures { FindsFrom (IsChildIn memo.entry.query.now memo.entry.members.now (GoalKind.Imp group))
        bound result }
{
    // For the proof: groups have keys.
    groups_are_known();
    let job = MemberJob::Transform(Phase::Implementation);
    sooner(
        goal_from(GoalKind::Exp(group), bound),
        member_goal_from(memo, group, job, bound),
    )
}

// A child of a group for a request.
fn chosen_from(memo: Memo<'_>, group: KeyParts, wanted: Request, bound: u64) -> Option<GoalKind>
    requires memo { IsListedMemo memo }
    requires goal { IsGoalOver memo.query.now (GoalKind.Opt group wanted) }
    ensures { FindsFrom
        (IsChildIn memo.entry.query.now memo.entry.members.now (GoalKind.Opt group wanted))
        bound result }
{
    // For the proof: groups have keys, and words fit.
    groups_are_known();
    goal_kinds_are_one();
    // Words go by kind: the group's implementation, its other requests, and then its members.
    if let Some(goal) = goal_from(GoalKind::Imp(group), bound) {
        return Some(goal);
    }
    if let Some(goal) = enforced_goal_from(memo, group, wanted, bound) {
        return Some(goal);
    }
    member_goal_from(memo, group, MemberJob::Serve(wanted), bound)
}
