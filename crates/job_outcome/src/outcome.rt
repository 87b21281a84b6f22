//! What a search gave: that all goals are finished, or that the board was full, or that goals are left.
#![tactic(auto)]

ghost use Rattle.std.specs.Prelude.{◌≡◌};
ghost use Rattle.goal_space.specs.Words.{goal_word};
ghost use Rattle.goal_space.specs.Goals.{root_goal_of};
ghost use Rattle.job_outcome.specs.Outcomes.{HasFinishedRoot, IsSearchBoard, TellsOutcome};

use crate::searched::Searched;
use best_answers::answers_are_best;
use goal_board::ClosedBoard;
use goal_rules::Rules;
use goal_space::{goals_are_known, goals_ask_for_members};
use query_core::Goal;
use xform_rules::members_are_known;

/// What the search of a query gave.
#[derive(Drop)]
pub enum Outcome {
    /// The root's goal is finished, and with it every goal.
    Done(Searched),
    /// The query has more entries than the board has cells.
    Full { capacity: u32 },
    /// The search was ended before, when this goal was ready.
    Unfinished { ready: u64 },
}

/// What a closed board held, whose root's goal was put in.
pub fn outcome_of(rules: &Rules<'_>, root: Goal, capacity: u32, board: ClosedBoard) -> Outcome
    requires board { IsSearchBoard rules.now.query.now capacity board }
    requires root { root.0 ≡ goal_word (root_goal_of rules.now.query.now) }
    ensures { TellsOutcome rules.now.query.now capacity board result }
{
    // For the proof: what finished goals promise, members and goals by their words, and what plans cost.
    goals_are_known();
    goals_ask_for_members();
    members_are_known();
    answers_are_best();
    match board.answer(root.0) {
        Some(_) => Outcome::Done(Searched { board }),
        None => left_open(rules, capacity, board),
    }
}

// The same where the root's goal isn't finished.
fn left_open(rules: &Rules<'_>, capacity: u32, board: ClosedBoard) -> Outcome
    requires board { IsSearchBoard rules.now.query.now capacity board }
    requires open_root { HasFinishedRoot rules.now.query.now board → ⊥ }
    ensures { TellsOutcome rules.now.query.now capacity board result }
{
    // For the proof: members and goals by their words.
    members_are_known();
    if board.is_full() {
        return Outcome::Full { capacity };
    }
    match board.ready(rules) {
        Some(ready) => Outcome::Unfinished { ready },
        None => unreachable!(),
    }
}
