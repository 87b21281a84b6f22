//! A table of words that many threads share: the memo's members and the goals, who works on which, and what came out.
#![tactic(auto)]

mod answers;
mod board;
mod cells;
mod closing;
mod goals;
mod hints;
mod seats;
mod steps;
mod wait_steps;
mod waits;
mod waking;

pub use answers::{Answer, Awaited, Finished, Suspended, Woken};
pub use board::{Board, Right, Seat};
pub use board_rule::GoalRules;
pub use closing::ClosedBoard;
pub use hints::Hints;
pub use word_table::Inserted;
