//! The text of the trace: the goals of a search, each with its children.
#![tactic(auto)]

ghost use Rattle.std.specs.Prelude.{◌≡◌, All, IfOk, OnOk, map, string_bytes};
ghost use Rattle.std.specs.List.{concat};
ghost use Rattle.std.specs.List.Sorted.{IsStrictlyIncreasing};
ghost use Rattle.query_core.specs.Expressions.{IsCandidateWord};
ghost use Rattle.query_core.specs.Goals.{kind_of};
ghost use Rattle.request_props.specs.Numbered.{IsProps};
ghost use Rattle.goal_space.specs.Words.{parts_of};
ghost use Rattle.goal_children.specs.GoalLists.{HaveGoalWords, IsWordOfGoal};
ghost use Rattle.goal_children.specs.Over.{AreGoalWords, IsGoalOver};
ghost use Rattle.query_text.specs.Added.{AddsText};
ghost use Rattle.job_trace.specs.Counts.{counted};
ghost use Rattle.job_trace.specs.Goals.{child_line};
ghost use Rattle.job_trace.specs.Trace as texts;
ghost use Rattle.job_trace.specs.Trace.{count_of, AreGoals, IsTraceLine, IsTraceText};
ghost use Rattle.job_trace.specs.Pieces.{AreWritten};
ghost use Rattle.job_trace.specs.GoalLines.{AddsTraced};

use crate::counts::push_count;
use crate::goals::{push_child_line, push_goal_line};
use crate::pieces::Pieces;
use goal_children::{GroupMembers, children_are_over_the_query, list_children_by_group, put_goals};
use goal_space::{GoalKind, goal_kinds_are_one};
use query_core::Query;
use request_props::Props;
use std::alloc::{AllocError, Global};

/// The bytes of the trace's text. `members` and `goals` are words, ascending.
pub fn trace_text(
    alloc: Global,
    query: &Query,
    props: &Props,
    members: &[u64],
    goals: &[u64],
) -> Result<Vec<u8>, AllocError>
    requires props { IsProps query.now props.now }
    requires candidates { All (IsCandidateWord query.now) members.now }
    requires ascending { IsStrictlyIncreasing members.now }
    requires goals { AreGoalWords query.now goals.now }
    ensures { IfOk result (λ text. IsTraceText query.now members.now goals.now text.items) }
{
    let goals = goals_over(alloc, query, props, goals)?;
    let mut text = String::new(alloc);
    push_trace_line(goals.as_slice(), &mut text)?;
    push_all_traced(alloc, query, props, members, goals.as_slice(), &mut text)?;
    Ok(text.into_bytes())
}

/// The bytes of the first line of the trace's text: how many goals there are, and how many of each kind. `goals` are
/// words.
pub fn trace_line(alloc: Global, goals: &[u64]) -> Result<Vec<u8>, AllocError>
    requires { All IsWordOfGoal goals.now }
    ensures { IfOk result (λ line. IsTraceLine goals.now line.items) }
{
    let goals = goals_of(alloc, goals)?;
    let mut line = String::new(alloc);
    push_trace_line(goals.as_slice(), &mut line)?;
    Ok(line.into_bytes())
}

/// The goals over the query that have these words.
pub fn goals_over(
    alloc: Global,
    _query: &Query,
    _props: &Props,
    words: &[u64],
) -> Result<Vec<GoalKind>, AllocError>
    requires props { IsProps _query.now _props.now }
    requires goals { AreGoalWords _query.now words.now }
    ensures { IfOk result (λ made. AreGoals _query.now words.now made.items) }
{
    // For the proof: goals over the query have words, and a word is that of one goal.
    children_are_over_the_query();
    goal_kinds_are_one();
    goals_of(alloc, words)
}

// The goals that have these words.
fn goals_of(alloc: Global, words: &[u64]) -> Result<Vec<GoalKind>, AllocError>
    requires { All IsWordOfGoal words.now }
    ensures { IfOk result (λ made. HaveGoalWords words.now made.items) }
{
    let mut made = Vec::with_capacity(alloc, words.len())?;
    put_goals(words, &mut made)?;
    Ok(made)
}

// Adds the first line.
fn push_trace_line(goals: &[GoalKind], text: &mut String) -> Result<(), AllocError>
    ensures ok { OnOk result (AddsText (string_bytes text.old)
        (texts.trace_line goals.now) (string_bytes text.new)) }
{
    push_count("trace goals=", goals.len(), text)?;
    push_kind(" exp=", goals, 0, text)?;
    push_kind(" expe=", goals, 1, text)?;
    push_kind(" xf=", goals, 2, text)?;
    push_kind(" imp=", goals, 3, text)?;
    push_kind(" impe=", goals, 4, text)?;
    push_kind(" opt=", goals, 5, text)?;
    push_kind(" opte=", goals, 6, text)?;
    text.push_str("\n")
}

// Adds a label, and how many of the goals are of the kind.
fn push_kind(
    label: &str,
    goals: &[GoalKind],
    kind: u64,
    text: &mut String,
) -> Result<(), AllocError>
    ensures ok { OnOk result (AddsText (string_bytes text.old)
        (counted label.now (count_of kind goals.now)) (string_bytes text.new)) }
{
    push_count(label, count_kind(goals, kind), text)
}

// How many of the goals are of the kind.
fn count_kind(goals: &[GoalKind], kind: u64) -> usize
    ensures { result ≡ count_of kind goals.now }
{
    goals
        .iter()
        .filter(|goal| kind_number(**goal) == kind)
        .count()
}

// The number of the goal's kind.
fn kind_number(goal: GoalKind) -> u64
    ensures { result ≡ kind_of (parts_of goal) }
{
    match goal {
        GoalKind::Exp(_) => 0,
        GoalKind::ExpE(_) => 1,
        GoalKind::Xf(_, _) => 2,
        GoalKind::Imp(_) => 3,
        GoalKind::ImpE(_) => 4,
        GoalKind::Opt(_, _) => 5,
        GoalKind::OptE(_, _) => 6,
    }
}

// Adds the line of each goal, and behind it those of its children.
fn push_all_traced(
    alloc: Global,
    query: &Query,
    props: &Props,
    members: &[u64],
    goals: &[GoalKind],
    text: &mut String,
) -> Result<(), AllocError>
    requires props { IsProps query.now props.now }
    requires candidates { All (IsCandidateWord query.now) members.now }
    requires ascending { IsStrictlyIncreasing members.now }
    requires goals { All (IsGoalOver query.now) goals.now }
    ensures ok { OnOk result (AddsTraced query.now members.now goals.now
        (string_bytes text.old) (string_bytes text.new)) }
{
    let (mut children, mut held) = (Vec::new(alloc), GroupMembers::none(alloc));
    let mut pieces = Pieces::new(alloc, goals.len())?;
    for goal in goals {
        push_goal_line(alloc, query, props, *goal, &mut pieces, text)?;
        list_children_by_group(query, props, members, *goal, &mut held, &mut children)?;
        push_child_lines(alloc, query, props, children.as_slice(), &mut pieces, text)?;
    }
    Ok(())
}

// Adds the lines of children.
fn push_child_lines(
    alloc: Global,
    query: &Query,
    props: &Props,
    children: &[GoalKind],
    pieces: &mut Pieces,
    text: &mut String,
) -> Result<(), AllocError>
    requires props { IsProps query.now props.now }
    requires kept { AreWritten query.now pieces.old }
    ensures ok { OnOk result (AddsText (string_bytes text.old)
        (concat (map (child_line query.now) children.now)) (string_bytes text.new)) }
    ensures kept { OnOk result (AreWritten query.now pieces.new) }
{
    for child in children {
        push_child_line(alloc, query, props, *child, pieces, text)?;
    }
    Ok(())
}
