//! The words of goals, by the words of what they are about.
#![tactic(auto)]

ghost use Rattle.std.specs.Prelude.{◌≡◌, ◌<◌, ◌^◌};
ghost use Rattle.query_core.specs.Keys.{key_number};
ghost use Rattle.query_core.specs.Goals.{FitsExpr, FitsKey};
ghost use Rattle.query_core.specs.Expressions.{expr_of, word_of};
ghost use Rattle.query_core.specs.declared.expressions.ExprParts.{ExprParts};
ghost use Rattle.query_core.specs.declared.expressions.PhysicalExpr.{PhysicalExpr};
ghost use Rattle.query_core.specs.declared.words.KeyParts.{KeyParts as AnyKeyParts};
ghost use Rattle.request_props.specs.Requests.{IsRequestInRange};
ghost use Rattle.goal_space.specs.Words.{goal_word, IsGoalInRange};
ghost use Rattle.goal_space.specs.declared.goals.GoalKind.TheVariants.{Opt, OptE, Xf};

use goal_space::GoalKind;
use query_core::{Expr, Goal, GoalParts, Key, KeyParts, groups_are_known};
use request_props::{Request, code};
use xform_rules::Rule;

/// The word of the goal. That of a group, which goals wait for most, is made without a call.
#[inline(always)]
pub(crate) fn word_of_goal(goal: GoalKind) -> Goal
    requires { IsGoalInRange goal }
    ensures number { result.0 ≡ goal_word goal }
{
    // For the proof: a group has a small key.
    groups_are_known();
    match goal {
        GoalKind::Exp(group) => Goal::make(GoalParts::Exp(Key::make(group))),
        GoalKind::Imp(group) => Goal::make(GoalParts::Imp(Key::make(group))),
        _ => goal.word(),
    }
}

/// The word of the goal of the group of this key for the request.
#[inline(always)]
pub(crate) fn group_goal(key: Key, wanted: Request) -> Goal
    requires key { FitsKey key.0 }
    requires wanted { IsRequestInRange wanted }
    ensures { (group : AnyKeyParts) → key.0 ≡ key_number group →
        goal_word (Opt group wanted) ≡ result.0 }
{
    Goal::make(GoalParts::Opt(key, code(wanted)))
}

/// The same of the group itself.
#[inline(always)]
pub(crate) fn request_goal(group: KeyParts, wanted: Request) -> Goal
    requires { IsGoalInRange (Opt group wanted) }
    ensures number { result.0 ≡ goal_word (Opt group wanted) }
{
    // For the proof: a group has a small key.
    groups_are_known();
    group_goal(Key::make(group), wanted)
}

/// The word of the goal of the rule at the expression of this word.
#[inline(always)]
pub(crate) fn rule_goal(expr: Expr, rule: Rule) -> Goal
    requires expr { FitsExpr expr.0 }
    ensures word { (e : ExprParts) → word_of e ≡ expr.0 → goal_word (Xf e rule) ≡ result.0 }
{
    Goal::make(GoalParts::Xf(expr, rule.number()))
}

/// The word of the goal of the expression of this word for the request.
#[inline(always)]
pub(crate) fn member_goal(expr: Expr, wanted: Request) -> Goal
    requires expr { FitsExpr expr.0 }
    requires wanted { IsRequestInRange wanted }
    ensures word { (e : PhysicalExpr) → word_of (expr_of e) ≡ expr.0 →
        goal_word (OptE e wanted) ≡ result.0 }
    ensures some { 0 < result.0 }
{
    Goal::make(GoalParts::OptE(expr, code(wanted)))
}
