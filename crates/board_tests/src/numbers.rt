//! The rules of the tests' boards.

use goal_board::GoalRules;

/// The words from 1 to a limit. Those from 3 on are goals, and 3 is a child of 4. A goal costs ten times its number.
#[derive(Drop)]
pub struct Numbers {
    pub limit: u64,
}

impl GoalRules for Numbers {
    ghost use Rattle.board_tests.specs.Numbers.{numbers, zero_is_none, ranks_fall, children_enter, answers_are_one};

    ghost meaning = { λ r. numbers r.limit };

    ghost rank_of = { λ r goal. goal };

    ghost zero_enters_not = { λ r. zero_is_none r.limit };

    ghost ranks_fall = { λ r. ranks_fall r.limit };

    ghost children_enter = { λ r. children_enter r.limit };

    ghost asked_enter = { λ r goal word enters is_goal asked. absurd asked };

    ghost answers_are_one = { λ r. answers_are_one r.limit };

    fn is_goal(&self, word: u64) -> bool {
        word >= 3
    }

    fn rank(&self, goal: u64) -> u64 {
        goal
    }
}
