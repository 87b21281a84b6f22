//! The goal of a word, and the goal of the least word from a bound on.
#![tactic(auto)]

ghost use Rattle.std.specs.Prelude.{◌≡◌, ◌≤◌, ◌↔◌, IfSome, MatchOption};
ghost use Rattle.goal_space.specs.declared.goals.GoalKind.{GoalKind as AnyGoalKind};
ghost use Rattle.goal_space.specs.Words.{goal_word, HasWord, IsGoalInRange};
ghost use Rattle.goal_children.specs.Children.{IsBehind};
ghost use Rattle.goal_children.specs.Finding.{sooner_of, FindsFrom};

use goal_space::{GoalKind, goal_kinds_are_one};
use query_core::Goal;

/// The goal that the word is known to have.
pub fn known_goal(word: Goal) -> GoalKind
    requires { (k : AnyGoalKind) × HasWord k word.0 }
    ensures { (k : AnyGoalKind) → HasWord k word.0 → k ≡ result }
{
    match GoalKind::of(word) {
        Some(goal) => goal,
        None => unreachable!(),
    }
}

/// The goal, if its word isn't below the bound.
pub fn goal_from(goal: GoalKind, bound: u64) -> Option<GoalKind>
    requires { IsGoalInRange goal }
    ensures { FindsFrom (λ k. k ≡ goal) bound result }
{
    if bound <= goal.word().0 {
        Some(goal)
    } else {
        None
    }
}

/// The one of the two whose word is less, if both are there.
pub fn sooner(a: Option<GoalKind>, b: Option<GoalKind>) -> Option<GoalKind>
    requires a { IfSome a IsGoalInRange }
    requires b { IfSome b IsGoalInRange }
    ensures { result ≡ sooner_of a b }
{
    match (a, b) {
        (Some(first), Some(second)) if second.word().0 < first.word().0 => b,
        (Some(_), _) => a,
        (None, _) => b,
    }
}

/// The least word behind that of a goal, if a word of 64 bits is.
pub fn bound_behind(before: Option<Goal>) -> Option<u64>
    ensures { MatchOption result
        ((goal : AnyGoalKind) → IsGoalInRange goal → IsBehind before goal → ⊥)
        (λ bound. (goal : AnyGoalKind) → (bound ≤ goal_word goal) ↔ IsBehind before goal) }
{
    // For the proof: words have 64 bits.
    goal_kinds_are_one();
    match before {
        Some(word) if word.0 < u64::MAX => Some(word.0 + 1),
        Some(_) => None,
        None => Some(0),
    }
}
