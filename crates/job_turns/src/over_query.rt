//! Calls of a board, told over the query that its rules are of.
#![tactic(auto)]

ghost use Rattle.std.specs.Prelude.{◌≡◌, Some};
ghost use Rattle.goal_space.specs.Words.{goal_word};
ghost use Rattle.job_turns.specs.Searches.{IsAtWork, StaysAtWork};
ghost use Rattle.job_turns.specs.Works.{IsOneOf};
ghost use Rattle.job_turns.specs.Seats.{IsTurnChild, AreTurnChildren, TurnAwaitsOne, TurnAwaits};

use crate::board_search::BoardSearch;
use crate::job_turn::JobTurn;
use crate::laws::words_are_known;
use crate::words::word_of_goal;
use board_moves::Progress;
use goal_board::Hints;
use goal_space::GoalKind;
use query_core::Goal;

/// Awaits a child of the goal.
#[inline(always)]
pub(crate) fn await_goal<'q, H: Hints>(
    search: &BoardSearch<'_, 'q>,
    turn: &mut JobTurn<'_, 'q, H>,
    child: GoalKind,
) -> Progress
    requires at_work { IsAtWork search.now turn.old (H.capacity turn.old.hints.now) }
    requires child { IsTurnChild search.now turn.old child }
    ensures at_work { StaysAtWork search.now turn.old turn.new (H.capacity turn.new.hints.now) }
    ensures awaits { TurnAwaitsOne search.now turn.old child result turn.new }
{
    // For the proof: a child of a goal has a word.
    words_are_known();
    await_word(search, turn, child, word_of_goal(child))
}

/// Awaits a child of the goal, which has this word.
#[inline(always)]
pub(crate) fn await_word<'q, H: Hints>(
    search: &BoardSearch<'_, 'q>,
    turn: &mut JobTurn<'_, 'q, H>,
    _child: GoalKind,
    word: Goal,
) -> Progress
    requires at_work { IsAtWork search.now turn.old (H.capacity turn.old.hints.now) }
    requires child { IsTurnChild search.now turn.old _child }
    requires word { goal_word _child ≡ word.0 }
    ensures at_work { StaysAtWork search.now turn.old turn.new (H.capacity turn.new.hints.now) }
    ensures awaits { TurnAwaitsOne search.now turn.old _child result turn.new }
{
    // For the proof: a child of a goal has a word.
    words_are_known();
    turn.job
        .await_child(search.board, turn.seat, word.0, turn.hints)
}

/// Awaits those of two children that are there. False where one found every cell taken.
#[inline(always)]
pub(crate) fn await_both<'q, H: Hints>(
    search: &BoardSearch<'_, 'q>,
    turn: &mut JobTurn<'_, 'q, H>,
    children: (Option<GoalKind>, Option<GoalKind>),
) -> bool
    requires at_work { IsAtWork search.now turn.old (H.capacity turn.old.hints.now) }
    requires children { AreTurnChildren search.now turn.old (IsOneOf children) }
    ensures at_work { StaysAtWork search.now turn.old turn.new (H.capacity turn.new.hints.now) }
    ensures awaits { TurnAwaits search.now turn.old (IsOneOf children) result turn.new }
{
    let (first, second) = children;
    if !await_if(search, turn, first) {
        return false;
    }
    await_if(search, turn, second)
}

/// Awaits a child, if there is one. False where it found every cell taken.
#[inline(always)]
pub(crate) fn await_if<'q, H: Hints>(
    search: &BoardSearch<'_, 'q>,
    turn: &mut JobTurn<'_, 'q, H>,
    child: Option<GoalKind>,
) -> bool
    requires at_work { IsAtWork search.now turn.old (H.capacity turn.old.hints.now) }
    requires child { AreTurnChildren search.now turn.old (λ goal. child ≡ Some goal) }
    ensures at_work { StaysAtWork search.now turn.old turn.new (H.capacity turn.new.hints.now) }
    ensures awaits { TurnAwaits search.now turn.old (λ goal. child ≡ Some goal) result turn.new }
{
    match child {
        Some(goal) => match await_goal(search, turn, goal) {
            Progress::Full => false,
            Progress::Complete(_) => true,
            Progress::Waiting => true,
        },
        None => true,
    }
}
