//! All goals that enforcers and alternatives ask for, as a list.
#![tactic(auto)]

ghost use Rattle.std.specs.Prelude.{◌≡◌, IfSome, OnOk, Some};
ghost use Rattle.std.specs.List.{All};
ghost use Rattle.query_core.specs.Keys as keys;
ghost use Rattle.query_core.specs.Expressions.{AreInRange};
ghost use Rattle.request_props.specs.Requests as requests;
ghost use Rattle.plan_space.specs.Alternatives.{IsAlternative};
ghost use Rattle.goal_space.specs.Words.{IsGoalInRange};
ghost use Rattle.goal_children.specs.Over.{IsGoalOver};
ghost use Rattle.goal_children.specs.Memo.{IsListedMemo};
ghost use Rattle.goal_children.specs.Choices.{IsOfAlternatives, IsOfAsked, IsOfEnforcer, IsOfMode, IsOfRequest};
ghost use Rattle.goal_children.specs.Finding.{InsertsGoals};

use crate::choice::{asked_in_mode, enforced_by};
use crate::memo::Memo;
use crate::words::insert_goal;
use goal_space::GoalKind;
use plan_space::Line;
use plan_tree::{modes_to_try, next_alternative};
use query_core::{Children, KeyParts, PhysicalExpr, candidates_are_known, groups_are_known};
use request_props::Request;
use std::alloc::AllocError;

/// Adds the goals of groups for what the expression asks of them, to serve the request, mode by mode of those that may.
pub fn insert_asked(
    memo: Memo<'_>,
    e: PhysicalExpr,
    wanted: Request,
    goals: &mut Vec<GoalKind>,
) -> Result<(), AllocError>
    requires memo { IsListedMemo memo }
    requires goal { IsGoalOver memo.query.now (GoalKind.OptE e wanted) }
    requires listed { All IsGoalInRange goals.old.items }
    ensures ok { OnOk result
        (InsertsGoals (IsOfAlternatives memo.entry.query.now e wanted) goals.old.items goals.new.items) }
{
    let Memo { query, props, .. } = memo;
    let modes = modes_to_try(query, props, e, wanted);
    let mut from = 0;
    'modes: while let Some((mode, line)) = next_alternative(query, props, e, wanted, modes, from) {
        insert_in_mode(memo, e, wanted, mode, line, goals)?;
        from = mode + 1;
    }
    Ok(())
}

// Adds the goals of groups for what the expression asks of them in one mode.
fn insert_in_mode(
    memo: Memo<'_>,
    e: PhysicalExpr,
    wanted: Request,
    mode: u32,
    line: Line,
    goals: &mut Vec<GoalKind>,
) -> Result<(), AllocError>
    requires memo { IsListedMemo memo }
    requires goal { IsGoalOver memo.query.now (GoalKind.OptE e wanted) }
    requires alternative { IsAlternative memo.query.now e wanted mode line }
    requires listed { All IsGoalInRange goals.old.items }
    ensures ok { OnOk result
        (InsertsGoals (IsOfMode memo.entry.query.now e wanted mode) goals.old.items goals.new.items) }
{
    // For the proof: children are groups with keys.
    candidates_are_known();
    groups_are_known();
    let (first, second) = asked_in_mode(memo, e, wanted, mode, line);
    insert_wished(e.children(), first, second, goals)
}

// Adds the goals of the children for what is asked of them.
fn insert_wished(
    children: Children,
    first: Option<Request>,
    second: Option<Request>,
    goals: &mut Vec<GoalKind>,
) -> Result<(), AllocError>
    requires children { AreInRange children }
    requires first { IfSome first requests.IsRequestInRange }
    requires second { IfSome second requests.IsRequestInRange }
    requires listed { All IsGoalInRange goals.old.items }
    ensures ok { OnOk result
        (InsertsGoals (IsOfAsked children first second) goals.old.items goals.new.items) }
{
    match children {
        Children::Zero => Ok(()),
        Children::One(child) => insert_request(child, first, goals),
        Children::Two(left, right) => {
            insert_request(left, first, goals)?;
            insert_request(right, second, goals)?;
            Ok(())
        }
    }
}

// Adds the goal of the group for what is asked of it, if something is.
fn insert_request(
    group: KeyParts,
    wanted: Option<Request>,
    goals: &mut Vec<GoalKind>,
) -> Result<(), AllocError>
    requires group { keys.IsGroupInRange group }
    requires wanted { IfSome wanted requests.IsRequestInRange }
    requires listed { All IsGoalInRange goals.old.items }
    ensures ok { OnOk result (InsertsGoals (IsOfRequest group wanted) goals.old.items goals.new.items) }
{
    match wanted {
        Some(wanted) => insert_goal(GoalKind::Opt(group, wanted), goals),
        None => Ok(()),
    }
}

/// Adds the goals of the group for what enforcers for the request ask of it.
pub fn insert_enforced(
    memo: Memo<'_>,
    group: KeyParts,
    wanted: Request,
    goals: &mut Vec<GoalKind>,
) -> Result<(), AllocError>
    requires memo { IsListedMemo memo }
    requires goal { IsGoalOver memo.query.now (GoalKind.Opt group wanted) }
    requires listed { All IsGoalInRange goals.old.items }
    ensures ok { OnOk result
        (InsertsGoals (IsOfEnforcer memo.entry.query.now group wanted) goals.old.items goals.new.items) }
{
    // For the proof: groups have keys.
    groups_are_known();
    let (first, second) = enforced_by(memo, group, wanted);
    insert_request(group, first, goals)?;
    insert_request(group, second, goals)?;
    Ok(())
}
