ghost use Rattle.std.specs.Prelude.{◌≡◌, ℕ, ◌<◌};
ghost use Rattle.goal_board.specs.Seats.{IsSeatOf, hands};
ghost use Rattle.goal_board.specs.SeatCalls.{HasRightTo, HasSeenEntry};
ghost use Rattle.board_moves.specs.Turns.{Works};
ghost use Rattle.board_moves.specs.Collects.{IsExploration, ExplorationAdds};

use crate::awaiting::await_found;
use crate::collection::settle;
use crate::job::Job;
use crate::progress::Progress;
use crate::settled::Settled;
use crate::words::Group;
use goal_board::{Answer, Board, GoalRules, Hints, Inserted, Seat};

/// The work of a goal that explores a group. Where the group grew meanwhile, it looks again.
pub fn explore<R: GoalRules, W: Group, H: Hints>(
    board: &Board<R>,
    seat: &mut Seat<R>,
    job: &mut Job,
    group: &W,
    hints: &mut H,
) -> Progress
    requires seat { IsSeatOf R.meaning board.now seat.old }
    requires right { HasRightTo R.meaning board.now seat.old job.old.right }
    requires fresh { job.old.right.waits ≡ 0 }
    requires goal { job.old.right.goal ≡ W.goal group.now }
    requires can_next { W.can_next group.now }
    requires group { IsExploration (R.meaning board.now.setup.rules)
        (W.origin group.now) (W.has group.now) (W.goal_of group.now) (W.goal group.now) }
    requires answer { (R.meaning board.now.setup.rules).answer (W.goal group.now) 0 0 }
    requires hints { H.capacity hints.old ≡ board.now.setup.capacity }
    ensures seat { IsSeatOf R.meaning board.now seat.new }
    ensures right { HasRightTo R.meaning board.now seat.new job.new.right }
    ensures works { Works (R.meaning board.now.setup.rules) board.now.setup.capacity
        (ExplorationAdds (R.meaning board.now.setup.rules) (W.origin group.now) job.old.right.goal)
        (hands seat.old) job.old.right result (hands seat.new) job.new.right }
    ensures hints { H.capacity hints.new ≡ H.capacity hints.old }
{
    match board.insert(seat, group.origin()) {
        Inserted::Full => Progress::Full,
        _ => explore_members(board, seat, job, group, hints)
    }
}

// Where the group grew meanwhile, or another member turned up, it looks again.
fn explore_members<R: GoalRules, W: Group, H: Hints>(
    board: &Board<R>,
    seat: &mut Seat<R>,
    job: &mut Job,
    group: &W,
    hints: &mut H,
) -> Progress
    requires seat { IsSeatOf R.meaning board.now seat.old }
    requires right { HasRightTo R.meaning board.now seat.old job.old.right }
    requires fresh { job.old.right.waits ≡ 0 }
    requires goal { job.old.right.goal ≡ W.goal group.now }
    requires can_next { W.can_next group.now }
    requires group { IsExploration (R.meaning board.now.setup.rules)
        (W.origin group.now) (W.has group.now) (W.goal_of group.now) (W.goal group.now) }
    requires origin { HasSeenEntry R.meaning board.now seat.old (W.origin group.now) }
    requires answer { (R.meaning board.now.setup.rules).answer (W.goal group.now) 0 0 }
    requires hints { H.capacity hints.old ≡ board.now.setup.capacity }
    ensures seat { IsSeatOf R.meaning board.now seat.new }
    ensures right { HasRightTo R.meaning board.now seat.new job.new.right }
    ensures works { Works (R.meaning board.now.setup.rules) board.now.setup.capacity
        ((R.meaning board.now.setup.rules).child job.old.right.goal)
        (hands seat.old) job.old.right result (hands seat.new) job.new.right }
    ensures hints { H.capacity hints.new ≡ H.capacity hints.old }
{
    // For the proof: each round finds more members than the one before, so the rounds end.
    let mut known = 0;
    'rounds: loop {
        if let Settled::Yes = settle(board, seat, group) {
            return Progress::Complete(Answer { cost: 0, node: 0 });
        }
        match await_found(board, seat, job, group, hints) {
            Some(number) => known = number,
            None => return Progress::Full,
        }
        if job.is_waiting() {
            return Progress::Waiting;
        }
    }
}
