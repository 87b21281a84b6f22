//! Goals at their places by their words, and the goals of words.
#![tactic(auto)]

ghost use Rattle.std.specs.Prelude.{◌≡◌, MatchOption, OnOk};
ghost use Rattle.std.specs.List.{All};
ghost use Rattle.goal_space.specs.Words.{IsGoalInRange};
ghost use Rattle.goal_children.specs.Finding.{InsertsGoals};
ghost use Rattle.goal_children.specs.GoalLists.{HaveGoalWords, HaveWord, IsPlaceFor, IsWordOfGoal};

use crate::finding::known_goal;
use goal_space::{GoalKind, goal_kinds_are_one};
use query_core::Goal;
use std::alloc::AllocError;

/// Adds the goal at its place, unless it is there.
pub fn insert_goal(goal: GoalKind, goals: &mut Vec<GoalKind>) -> Result<(), AllocError>
    requires in_range { IsGoalInRange goal }
    requires listed { All IsGoalInRange goals.old.items }
    ensures ok { OnOk result (InsertsGoals (λ k. k ≡ goal) goals.old.items goals.new.items) }
{
    // For the proof: a word is that of one goal.
    goal_kinds_are_one();
    match place_for(goals.as_slice(), goal.word().0) {
        Some(place) => {
            goals.insert(place, goal)?;
            Ok(())
        }
        None => Ok(()),
    }
}

// The place of a goal of this word, if none of the goals has it. Mostly it is near the end.
fn place_for(goals: &[GoalKind], word: u64) -> Option<usize>
    requires { All IsGoalInRange goals.now }
    ensures { MatchOption result (HaveWord goals.now word) (IsPlaceFor goals.now word) }
{
    let mut place = goals.len();
    while place > 0 {
        let before = goals[place - 1].word().0;
        if before == word {
            return None;
        }
        if before < word {
            return Some(place);
        }
        place -= 1;
    }
    Some(0)
}

/// Puts the goals of the words into the list, in place of what it held.
pub fn put_goals(words: &[u64], list: &mut Vec<GoalKind>) -> Result<(), AllocError>
    requires { All IsWordOfGoal words.now }
    ensures ok { OnOk result (HaveGoalWords words.now list.new.items) }
{
    list.clear();
    for word in words {
        list.push(known_goal(Goal(*word)))?;
    }
    Ok(())
}
