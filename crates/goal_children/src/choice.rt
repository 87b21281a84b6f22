//! The goals that a choice of plans waits for: what enforcers and alternatives ask for.
#![tactic(auto)]

ghost use Rattle.std.specs.Prelude.{◌≡◌, ◌↔◌, ◌⊎◌, IfSome, Some};
ghost use Rattle.std.specs.Option.{option_map};
ghost use Rattle.query_core.specs.Keys as keys;
ghost use Rattle.query_core.specs.Expressions.{physical_children, AreInRange};
ghost use Rattle.request_props.specs.Requests.{IsRequestInRange};
ghost use Rattle.plan_space.specs.Alternatives.{IsAlternative};
ghost use Rattle.goal_space.specs.declared.goals.GoalKind.{GoalKind as AnyGoalKind};
ghost use Rattle.goal_children.specs.Over.{IsGoalOver};
ghost use Rattle.goal_children.specs.Memo.{IsListedMemo};
ghost use Rattle.goal_children.specs.Choices.{IsOfAlternatives, IsOfAsked, IsOfEnforcer, IsOfMode, IsOfRequest};
ghost use Rattle.goal_children.specs.Finding.{FindsFrom};

use crate::finding::{goal_from, sooner};
use crate::memo::Memo;
use goal_space::GoalKind;
use plan_space::{Line, modes_are_few, what_is_asked_fits};
use plan_tree::{
    Enforced, alternative_at, enforcer, modes_to_try, next_alternative, word_of_candidate,
};
use query_core::{Children, Key, KeyParts, PhysicalExpr, candidates_are_known, groups_are_known};
use request_props::Request;

/// The first goal of the group for what an enforcer for the request asks of it, from the bound on.
pub fn enforced_goal_from(
    memo: Memo<'_>,
    group: KeyParts,
    wanted: Request,
    bound: u64,
) -> Option<GoalKind>
    requires memo { IsListedMemo memo }
    requires goal { IsGoalOver memo.query.now (GoalKind.Opt group wanted) }
    ensures { FindsFrom (IsOfEnforcer memo.entry.query.now group wanted) bound result }
{
    // For the proof: groups have keys.
    groups_are_known();
    let (first, second) = enforced_by(memo, group, wanted);
    sooner(
        asked_of_group(group, first, bound),
        asked_of_group(group, second, bound),
    )
}

/// What enforcers for the request ask of the group: two at most.
pub fn enforced_by(
    memo: Memo<'_>,
    group: KeyParts,
    wanted: Request,
) -> (Option<Request>, Option<Request>)
    requires memo { IsListedMemo memo }
    requires goal { IsGoalOver memo.query.now (GoalKind.Opt group wanted) }
    ensures exact { (goal : AnyGoalKind) → IsOfEnforcer memo.entry.query.now group wanted goal
        ↔ (IsOfRequest group result.0 goal ⊎ IsOfRequest group result.1 goal) }
    ensures first { IfSome result.0 IsRequestInRange }
    ensures second { IfSome result.1 IsRequestInRange }
{
    // For the proof: groups have keys.
    groups_are_known();
    let Memo { query, props, .. } = memo;
    let key = Key::make(group);
    let first = below(enforcer(query, props, key, wanted, 0));
    let second = below(enforcer(query, props, key, wanted, 1));
    (first, second)
}

// What an enforcer asks of its own group.
fn below(enforced: Option<Enforced>) -> Option<Request>
    ensures { result ≡ option_map (λ e. e.below) enforced }
{
    match enforced {
        Some(found) => Some(found.below),
        None => None,
    }
}

/// The first goal of a group for what the expression asks of it in some mode, to serve the request,
/// from the bound on. Several modes may ask for one.
pub fn asked_goal_from(
    memo: Memo<'_>,
    e: PhysicalExpr,
    wanted: Request,
    bound: u64,
) -> Option<GoalKind>
    requires memo { IsListedMemo memo }
    requires goal { IsGoalOver memo.query.now (GoalKind.OptE e wanted) }
    ensures { FindsFrom (IsOfAlternatives memo.entry.query.now e wanted) bound result }
{
    let Memo { query, props, .. } = memo;
    let tried = modes_to_try(query, props, e, wanted);
    let (mut next, mut from) = (None, 0);
    'modes: while let Some((mode, line)) = next_alternative(query, props, e, wanted, tried, from) {
        next = sooner(next, goal_in_mode(memo, e, wanted, mode, line, bound));
        from = mode + 1;
    }
    next
}

// The first goal of a group for what the expression asks of it in one mode.
fn goal_in_mode(
    memo: Memo<'_>,
    e: PhysicalExpr,
    wanted: Request,
    mode: u32,
    line: Line,
    bound: u64,
) -> Option<GoalKind>
    requires memo { IsListedMemo memo }
    requires goal { IsGoalOver memo.query.now (GoalKind.OptE e wanted) }
    requires alternative { IsAlternative memo.query.now e wanted mode line }
    ensures { FindsFrom (IsOfMode memo.entry.query.now e wanted mode) bound result }
{
    // For the proof: children are groups with keys.
    candidates_are_known();
    groups_are_known();
    let (first, second) = asked_in_mode(memo, e, wanted, mode, line);
    wished_goal_from(e.children(), first, second, bound)
}

/// What the expression asks of its children in one mode: of the one child or of the left, and of the right.
pub fn asked_in_mode(
    memo: Memo<'_>,
    e: PhysicalExpr,
    wanted: Request,
    mode: u32,
    line: Line,
) -> (Option<Request>, Option<Request>)
    requires memo { IsListedMemo memo }
    requires goal { IsGoalOver memo.query.now (GoalKind.OptE e wanted) }
    requires alternative { IsAlternative memo.query.now e wanted mode line }
    ensures exact { (goal : AnyGoalKind) → IsOfMode memo.entry.query.now e wanted mode goal
        ↔ IsOfAsked (physical_children e.operator) result.0 result.1 goal }
    ensures first { IfSome result.0 IsRequestInRange }
    ensures second { IfSome result.1 IsRequestInRange }
{
    // For the proof: what is asked of children has numbers, and an expression has few modes.
    what_is_asked_fits();
    modes_are_few();
    let word = word_of_candidate(memo.query, e);
    let alt = alternative_at(memo.query, e, word, wanted, mode, &line);
    (asked_of(alt.left), asked_of(alt.right))
}

// What is asked of a child.
fn asked_of(asked: Option<(Key, Request)>) -> Option<Request>
    ensures { result ≡ option_map (λ a. a.1) asked }
{
    match asked {
        Some((_, wanted)) => Some(wanted),
        None => None,
    }
}

// The first goal of the children for what is asked of them.
fn wished_goal_from(
    children: Children,
    first: Option<Request>,
    second: Option<Request>,
    bound: u64,
) -> Option<GoalKind>
    requires children { AreInRange children }
    requires first { IfSome first IsRequestInRange }
    requires second { IfSome second IsRequestInRange }
    ensures { FindsFrom (IsOfAsked children first second) bound result }
{
    match children {
        Children::Zero => None,
        Children::One(child) => asked_of_group(child, first, bound),
        Children::Two(left, right) => sooner(
            asked_of_group(left, first, bound),
            asked_of_group(right, second, bound),
        ),
    }
}

// The goal of the group for what is asked of it, if something is.
fn asked_of_group(group: KeyParts, wanted: Option<Request>, bound: u64) -> Option<GoalKind>
    requires group { keys.IsGroupInRange group }
    requires wanted { IfSome wanted IsRequestInRange }
    ensures { FindsFrom (IsOfRequest group wanted) bound result }
{
    match wanted {
        Some(wanted) => goal_from(GoalKind::Opt(group, wanted), bound),
        None => None,
    }
}
