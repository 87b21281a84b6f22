//! What a turn reads: the query, its props and the board.
#![tactic(auto)]

use goal_board::Board;
use goal_rules::Rules;
use query_core::Query;
use request_props::Props;

/// The search of a query on a board.
#[derive(Clone, Copy)]
pub struct BoardSearch<'s, 'q> {
    pub query: &'s Query,
    pub props: &'s Props,
    pub board: &'s Board<Rules<'q>>,
}
