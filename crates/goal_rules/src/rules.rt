//! The rules of a board for the search of a query.
#![tactic(auto)]

ghost use Rattle.std.specs.Prelude.{◌≡◌};
ghost use Rattle.request_props.specs.Numbered.{IsProps};
ghost use Rattle.goal_rules.specs.Meaning.{meaning_of};
ghost use Rattle.goal_rules.specs.WordRanks.{rank_of_word, WordRanksFall};
ghost use Rattle.goal_rules.specs.Answers.{AnswersAreOne};

use crate::laws::ranks_are_known;
use crate::ranks::rank_of_word;
use best_answers::answers_are_best;
use board_rule::GoalRules;
use goal_space::{goal_kinds_are_one, goals_are_known, ranks_fall};
use query_core::{Goal, Query};
use request_props::Props;

/// The members of a query's groups and the goals of its search, as the rules of a board.
#[derive(Clone, Copy, Drop)]
pub struct Rules<'q> {
    pub query: &'q Query,
    ghost ranks: { WordRanksFall query.now },
    ghost answers: { AnswersAreOne query.now },
}

impl<'q> Rules<'q> {
    /// The rules of a query, whose props show that it has few lists and orders.
    pub fn new(query: &'q Query, props: &Props) -> Rules<'q>
        requires { IsProps query.now props.now }
        ensures { result.query.now ≡ query.now }
    {
        answers_are_best();
        ranks_fall();
        goals_are_known();
        goal_kinds_are_one();
        ranks_are_known();
        Rules { query }
    }
}

impl<'q> GoalRules for Rules<'q> {
    ghost use Rattle.goal_rules.specs.EntryLaws.{zero_is_none, child_enters, asked_enters};

    ghost meaning = { λ r. meaning_of r.query.now };

    ghost rank_of = { λ r goal. rank_of_word goal };

    ghost zero_enters_not = { λ r. zero_is_none r.query.now };

    ghost ranks_fall = { λ r. r.ranks };

    ghost children_enter = { λ r. child_enters r.query.now };

    ghost asked_enter = { λ r. asked_enters r.query.now };

    ghost answers_are_one = { λ r. r.answers };

    fn is_goal(&self, word: u64) -> bool {
        Goal::is_word(word)
    }

    fn rank(&self, goal: u64) -> u64 {
        rank_of_word(goal)
    }
}
