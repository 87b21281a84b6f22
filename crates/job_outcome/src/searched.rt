//! What a finished search has: the answers to its goals, and its lists.
#![tactic(auto)]

ghost use Rattle.std.specs.Prelude.{IfOk};
ghost use Rattle.job_outcome.specs.Searched.{answers_of, AreListsOf};

use crate::lists::{in_order, lists_of, members_of, told};
use goal_board::ClosedBoard;
use orca_base::List;
use plan_report::AnswerSource;
use plan_tree::{Answered, Answers};
use query_core::Goal;
use std::alloc::{AllocError, Global};

/// A search that has finished all goals. It keeps the memory of its board until it is dropped.
#[derive(Drop)]
pub struct Searched {
    pub(crate) board: ClosedBoard,
}

/// What a finished search has, in the order of words.
#[derive(Drop)]
pub struct Lists {
    /// The words of all members, ascending.
    pub members: List<u64>,
    /// The words of all goals, ascending.
    pub goals: List<u64>,
    /// The answers to these goals, in their order.
    pub answers: Answers,
    /// The numbers of the workers that finished them, in their order, each below 64.
    pub who: List<u32>,
}

impl AnswerSource for Searched {
    ghost answers = { answers_of };

    /// It is looked up on the board.
    fn answer(&self, goal: Goal) -> Option<Answered> {
        match self.board.answer(goal.0) {
            Some(answer) => Some(told(goal, answer)),
            None => None,
        }
    }
}

impl Searched {
    /// The lists. They are made by each call.
    pub fn lists(&self, alloc: Global) -> Result<Lists, AllocError>
        ensures { IfOk result (AreListsOf self.now) }
    {
        let members = members_of(alloc, &self.board.cells(alloc)?)?;
        let finished = in_order(self.board.finished(alloc)?);
        let (goals, answers, who) = lists_of(alloc, &finished)?;
        Ok(Lists {
            members,
            goals,
            answers,
            who,
        })
    }
}
