ghost use Rattle.std.specs.Prelude.{◌≡◌, ◌≢◌, ℕ, ◌<◌};
ghost use Rattle.goal_board.specs.Seats.{IsSeatOf};
ghost use Rattle.goal_board.specs.SeatCalls.{HasRightTo};
ghost use Rattle.board_moves.specs.Moves.{HaveChildGoals};
ghost use Rattle.board_moves.specs.Seats.{SeatAwaitsFound};

use crate::job::Job;
use crate::progress::Progress;
use crate::words::Members;
use goal_board::{Board, GoalRules, Hints, Seat};

/// Awaits the goals of all members that are in cells, and tells how many these are. None where one of the goals found
/// every cell taken.
pub fn await_found<R: GoalRules, M: Members, H: Hints>(
    board: &Board<R>,
    seat: &mut Seat<R>,
    job: &mut Job,
    members: &M,
    hints: &mut H,
) -> Option<u64>
    requires seat { IsSeatOf R.meaning board.now seat.old }
    requires right { HasRightTo R.meaning board.now seat.old job.old.right }
    requires words { M.can_next members.now }
    requires some_word { (word : ℕ) → M.has members.now word → word ≢ 0 }
    requires children { HaveChildGoals (R.meaning board.now.setup.rules) (M.has members.now)
        (M.goal_of members.now) job.old.right.goal }
    requires hints { H.capacity hints.old ≡ board.now.setup.capacity }
    ensures seat { IsSeatOf R.meaning board.now seat.new }
    ensures right { HasRightTo R.meaning board.now seat.new job.new.right }
    ensures awaits { SeatAwaitsFound R.meaning board.now seat.old (M.has members.now) (M.goal_of members.now)
        job.old.right result seat.new job.new.right }
    ensures hints { H.capacity hints.new ≡ H.capacity hints.old }
{
    let mut number = 0;
    let mut before = None;
    while let Some(word) = members.next(before) {
        if board.holds(seat, word) {
            let goal = members.goal_of(word);
            if let Progress::Full = job.await_child(board, seat, goal, hints) {
                return None;
            }
            number += 1;
        }
        before = Some(word);
    }
    Some(number)
}
