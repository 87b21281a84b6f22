ghost use Rattle.std.specs.Prelude.{◌≡◌, ◌≢◌, ℕ, ◌<◌};
ghost use Rattle.goal_board.specs.Seats.{IsSeatOf, hands};
ghost use Rattle.goal_board.specs.SeatCalls.{HasRightTo};
ghost use Rattle.board_moves.specs.Turns.{Turns};
ghost use Rattle.board_moves.specs.Counts.{AdvancesAlone};
ghost use Rattle.board_moves.specs.declared.progress.Turned.TheVariants as turned;

use board_moves::Turned;
use goal_board::{Board, GoalRules, Right, Seat};
use place_hints::PlaceHints;

/// Who makes the turn of a goal that was claimed, on boards with these rules.
pub trait GoalTurns<R: GoalRules>: Send + Sync {
    // The rules of the boards that these jobs are for.
    ghost rules_of: { Self → R };
    // The words that the turn of a goal may put into cells.
    ghost adds: { Self → ℕ → ℕ → Type 0 };

    /// Finishes the goal, or suspends it with a wait, or finds the board full. A seat that is alone has less left to do
    /// after it, unless the board is full.
    fn turn(
        &self,
        board: &Board<R>,
        seat: &mut Seat<R>,
        right: Right,
        worker: u32,
        hints: &mut PlaceHints,
    ) -> Turned
        requires rules { board.now.setup.rules ≡ rules_of self.now }
        requires seat { IsSeatOf R.meaning board.now seat.old }
        requires right { HasRightTo R.meaning board.now seat.old right }
        requires fresh { right.waits ≡ 0 }
        requires worker { worker < 64 }
        requires hints { hints.old ≡ board.now.setup.capacity }
        ensures seat { IsSeatOf R.meaning board.now seat.new }
        ensures turns { Turns board.now.setup.capacity (adds self.now right.goal) (hands seat.old)
            right worker result (hands seat.new) }
        ensures alone { result ≢ turned.Full → AdvancesAlone (R.meaning board.now.setup.rules)
            board.now.setup.capacity (hands seat.old) (hands seat.new) }
        ensures hints { hints.new ≡ hints.old };
}
