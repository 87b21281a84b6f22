//! What a turn changes: the seat, the job and the hints.
#![tactic(auto)]

use board_moves::Job;
use goal_board::Seat;
use goal_rules::Rules;

/// A job while its turn lasts, with the seat that claimed its goal and the hints that are lent.
pub(crate) struct JobTurn<'t, 'q, H> {
    pub(crate) seat: &'t mut Seat<Rules<'q>>,
    pub(crate) job: Job,
    pub(crate) hints: &'t mut H,
}
