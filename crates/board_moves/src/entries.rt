ghost use Rattle.std.specs.Prelude.{◌≡◌, ◌≢◌, ℕ, ◌<◌};
ghost use Rattle.board_rule.specs.Looks.{ShowsEntry};
ghost use Rattle.goal_board.specs.Seats.{IsSeatOf, hands};
ghost use Rattle.goal_board.specs.Calls.{Inserts};
ghost use Rattle.board_moves.specs.Words.{IsNextOf};
ghost use Rattle.board_moves.specs.Moves.{OnlyLooks, IsEntryOf};

use crate::words::Words;
use goal_board::{Board, GoalRules, Hints, Inserted, Seat};

/// Puts a goal into the table, and hints it where it wasn't there before.
#[inline(always)]
pub fn put_goal<R: GoalRules, H: Hints>(
    board: &Board<R>,
    seat: &mut Seat<R>,
    goal: u64,
    hints: &mut H,
) -> Inserted
    requires seat { IsSeatOf R.meaning board.now seat.old }
    requires enters { (R.meaning board.now.setup.rules).entry goal }
    requires hints { H.capacity hints.old ≡ board.now.setup.capacity }
    ensures seat { IsSeatOf R.meaning board.now seat.new }
    ensures answer { Inserts board.now.setup.capacity (hands seat.old) goal result (hands seat.new) }
    ensures hints { H.capacity hints.new ≡ H.capacity hints.old }
{
    let put = board.insert(seat, goal);
    if let Inserted::Fresh { at } = put {
        hints.hint(at);
    }
    put
}

/// The next of the words that stands in a cell, where the looks show in cells all of them that ever can.
pub fn next_entry<R: GoalRules, W: Words>(
    board: &Board<R>,
    seat: &mut Seat<R>,
    words: &W,
    before: Option<u64>,
) -> Option<u64>
    requires seat { IsSeatOf R.meaning board.now seat.old }
    requires words { W.can_next words.now }
    requires some_word { (word : ℕ) → W.has words.now word → word ≢ 0 }
    requires shown { (word : ℕ) → IsEntryOf (R.meaning board.now.setup.rules) (W.has words.now) word →
        ShowsEntry (R.meaning board.now.setup.rules) board.now.setup.capacity (hands seat.old).looks word }
    ensures seat { IsSeatOf R.meaning board.now seat.new }
    ensures looks { OnlyLooks (hands seat.old) (hands seat.new) }
    ensures next { IsNextOf (IsEntryOf (R.meaning board.now.setup.rules) (W.has words.now)) before result }
{
    let mut before = before;
    while let Some(word) = words.next(before) {
        if board.holds(seat, word) {
            return Some(word);
        }
        before = Some(word);
    }
    None
}
