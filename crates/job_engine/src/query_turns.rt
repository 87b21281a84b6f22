//! The turns of the goals of a query.
#![tactic(auto)]

ghost use Rattle.request_props.specs.Numbered.{IsProps};
ghost use Rattle.goal_rules.specs.declared.rules.Rules.{Rules};
ghost use Rattle.job_engine.specs.Added.{AddsOf};

use board_moves::Turned;
use goal_board::{Board, Right, Seat};
use goal_rules::Rules;
use job_scheduler::GoalTurns;
use job_turns::{BoardSearch, turn};
use place_hints::PlaceHints;
use request_props::Props;
use std::marker::Model;

/// The turn of each goal of a query's search. Contracts see the rules of the search.
#[derive(Drop)]
pub struct QueryTurns<'q> {
    pub(crate) rules: Rules<'q>,
    pub(crate) props: &'q Props,
}

impl<'q> Model for QueryTurns<'q> {
    ghost Value = { Rules };

    ghost view = { λ turns. turns.rules };

    ghost invariant = { λ turns. IsProps turns.rules.query.now turns.props.now };
}

impl<'q> GoalTurns<Rules<'q>> for QueryTurns<'q> {
    ghost rules_of = { λ turns. turns };

    ghost adds = { λ turns word. AddsOf turns.query.now word };

    fn turn(
        &self,
        board: &Board<Rules<'q>>,
        seat: &mut Seat<Rules<'q>>,
        right: Right,
        worker: u32,
        hints: &mut PlaceHints,
    ) -> Turned {
        let search = BoardSearch {
            query: self.rules.query,
            props: self.props,
            board,
        };
        turn(&search, seat, right, worker, hints)
    }
}
