//! The goals that an expression waits for in exploration and in implementation.
#![tactic(auto)]

ghost use Rattle.std.specs.Prelude.{◌≡◌, ◌↔◌, IsTrue, OnOk};
ghost use Rattle.std.specs.List.{All};
ghost use Rattle.query_core.specs.Expressions.{children_of, AreInRange, IsCandidate, IsPacked};
ghost use Rattle.goal_space.specs.Words.{IsGoalInRange};
ghost use Rattle.goal_space.specs.Phases.{IsOfExpression, IsOfGroups, IsOfRule, IsRuleAt};
ghost use Rattle.goal_children.specs.Finding.{FindsFrom, InsertsGoals, IsOfLeft, IsOfLeftGroup};

use crate::finding::{goal_from, sooner};
use crate::words::insert_goal;
use goal_space::{GoalKind, Phase};
use query_core::{Children, ExprParts, Query};
use std::alloc::AllocError;
use xform_rules::Rule;

/// The first goal of the groups that an expression stands on, from the bound on.
pub fn group_goal_from(phase: Phase, children: Children, bound: u64) -> Option<GoalKind>
    requires { AreInRange children }
    ensures { FindsFrom (IsOfGroups phase children) bound result }
{
    match children {
        Children::Zero => None,
        Children::One(child) => goal_from(phase.of_group(child), bound),
        Children::Two(left, right) => sooner(
            goal_from(phase.of_group(left), bound),
            goal_from(phase.of_group(right), bound),
        ),
    }
}

/// The first goal of the rules of the phase that apply to the expression, from the bound on.
pub fn rule_goal_from(query: &Query, phase: Phase, e: ExprParts, bound: u64) -> Option<GoalKind>
    requires { IsPacked e }
    ensures { FindsFrom (IsRuleAt query.now phase e) bound result }
{
    let rules = Rule::all();
    let mut next = None;
    for rule in &rules {
        next = sooner(next, goal_of_rule(query, phase, e, *rule, bound));
    }
    next
}

/// The goal of the left group, where the rule binds a member of it, from the bound on.
pub fn left_goal_from(e: ExprParts, rule: Rule, bound: u64) -> Option<GoalKind>
    requires { AreInRange (children_of e.operator) }
    ensures { FindsFrom (IsOfLeft e rule (children_of e.operator)) bound result }
{
    if !rule.binds() {
        return None;
    }
    match e.children() {
        Children::Zero => None,
        Children::One(child) => goal_from(GoalKind::Exp(child), bound),
        Children::Two(left, _) => goal_from(GoalKind::Exp(left), bound),
    }
}

// The goal of one rule, if it is of the phase and applies.
fn goal_of_rule(
    query: &Query,
    phase: Phase,
    e: ExprParts,
    rule: Rule,
    bound: u64,
) -> Option<GoalKind>
    requires { IsPacked e }
    ensures { FindsFrom (IsOfRule query.now phase e rule) bound result }
{
    if phase.tries(query, e, rule) {
        goal_from(GoalKind::Xf(e, rule), bound)
    } else {
        None
    }
}

/// Adds the goals that an expression waits for in the phase.
pub fn insert_transformed(
    query: &Query,
    e: ExprParts,
    phase: Phase,
    goals: &mut Vec<GoalKind>,
) -> Result<(), AllocError>
    requires packed { IsPacked e }
    requires listed { All IsGoalInRange goals.old.items }
    ensures ok { OnOk result
        (InsertsGoals (IsOfExpression query.now phase e) goals.old.items goals.new.items) }
{
    insert_groups(phase, e.children(), goals)?;
    insert_rules(query, phase, e, goals)?;
    Ok(())
}

// Adds the goals of the groups that an expression stands on.
fn insert_groups(
    phase: Phase,
    children: Children,
    goals: &mut Vec<GoalKind>,
) -> Result<(), AllocError>
    requires children { AreInRange children }
    requires listed { All IsGoalInRange goals.old.items }
    ensures ok { OnOk result (InsertsGoals (IsOfGroups phase children) goals.old.items goals.new.items) }
{
    match children {
        Children::Zero => Ok(()),
        Children::One(child) => insert_goal(phase.of_group(child), goals),
        Children::Two(left, right) => {
            insert_goal(phase.of_group(left), goals)?;
            insert_goal(phase.of_group(right), goals)?;
            Ok(())
        }
    }
}

// Adds the goals of the rules of the phase that apply to the expression.
fn insert_rules(
    query: &Query,
    phase: Phase,
    e: ExprParts,
    goals: &mut Vec<GoalKind>,
) -> Result<(), AllocError>
    requires packed { IsPacked e }
    requires listed { All IsGoalInRange goals.old.items }
    ensures ok { OnOk result
        (InsertsGoals (IsRuleAt query.now phase e) goals.old.items goals.new.items) }
{
    let rules = Rule::all();
    for rule in &rules {
        insert_rule(query, phase, e, *rule, goals)?;
    }
    Ok(())
}

// Adds the goal of one rule, if it is of the phase and applies.
fn insert_rule(
    query: &Query,
    phase: Phase,
    e: ExprParts,
    rule: Rule,
    goals: &mut Vec<GoalKind>,
) -> Result<(), AllocError>
    requires packed { IsPacked e }
    requires listed { All IsGoalInRange goals.old.items }
    ensures ok { OnOk result
        (InsertsGoals (IsOfRule query.now phase e rule) goals.old.items goals.new.items) }
{
    if phase.tries(query, e, rule) {
        insert_goal(GoalKind::Xf(e, rule), goals)
    } else {
        Ok(())
    }
}

/// Adds the goal of the left group, where the rule binds a member of it.
pub fn insert_left(e: ExprParts, rule: Rule, goals: &mut Vec<GoalKind>) -> Result<(), AllocError>
    requires children { AreInRange (children_of e.operator) }
    requires listed { All IsGoalInRange goals.old.items }
    ensures ok { OnOk result
        (InsertsGoals (IsOfLeft e rule (children_of e.operator)) goals.old.items goals.new.items) }
{
    if rule.binds() {
        insert_left_group(e.children(), goals)
    } else {
        Ok(())
    }
}

// Adds the goal of the left group.
fn insert_left_group(children: Children, goals: &mut Vec<GoalKind>) -> Result<(), AllocError>
    requires children { AreInRange children }
    requires listed { All IsGoalInRange goals.old.items }
    ensures ok { OnOk result (InsertsGoals (IsOfLeftGroup children) goals.old.items goals.new.items) }
{
    match children {
        Children::Zero => Ok(()),
        Children::One(child) => insert_goal(GoalKind::Exp(child), goals),
        Children::Two(left, _) => insert_goal(GoalKind::Exp(left), goals),
    }
}
