ghost use Rattle.std.specs.Prelude.{◌≡◌, ℕ, ◌≤◌, []};
ghost use Rattle.board_rule.specs.Seats.{parted, part, joined};
ghost use Rattle.goal_board.specs.Seats.{IsSeatOf, hands};
ghost use Rattle.goal_board.specs.SeatCalls.{SeatReadsFull};
ghost use Rattle.goal_board.specs.Closing.{ClosesWith};

use crate::board::{Board, Seat};
use crate::closing::ClosedBoard;
use board_rule::{Apart, GoalRules, Together};

impl<R: GoalRules> Board<R> {
    /// Whether the full word was found set: some entry found every cell taken.
    pub fn full_seen(&self, seat: &mut Seat<R>) -> bool
        requires { IsSeatOf R.meaning self.now seat.old }
        ensures seat { IsSeatOf R.meaning self.now seat.new }
        ensures answer { SeatReadsFull R.meaning self.now seat.old result seat.new }
    {
        self.look(seat, 0) != 0
    }

    /// A new seat, which has seen what this one has.
    pub fn split(&self, seat: &mut Seat<R>) -> Seat<R>
        requires seat { IsSeatOf R.meaning self.now seat.old }
        requires parts { 2 ≤ (hands seat.old).parts }
        ensures seats { IsSeatOf R.meaning self.now seat.new × IsSeatOf R.meaning self.now result }
        ensures left { hands seat.new ≡ parted (hands seat.old) }
        ensures right { hands result ≡ part (hands seat.old) }
    {
        Seat {
            seat: self.table.shared.split_seat::<Apart>(&mut seat.seat),
        }
    }

    /// Takes in another seat, which holds no right.
    pub fn join(&self, seat: &mut Seat<R>, other: Seat<R>)
        requires seats { IsSeatOf R.meaning self.now seat.old × IsSeatOf R.meaning self.now other }
        requires rights { (hands other).rights ≡ [] }
        ensures seat { IsSeatOf R.meaning self.now seat.new }
        ensures hands { hands seat.new ≡ joined (hands seat.old) (hands other) }
    {
        let Seat { seat: other } = other;
        self.table
            .shared
            .join_seat::<Together>(&mut seat.seat, other);
    }

    /// Ends the board, whose last seat holds no right.
    pub fn close(self, seat: Seat<R>) -> ClosedBoard
    where
        R: Drop,
        requires seat { IsSeatOf R.meaning self seat }
        requires parts { (hands seat).parts ≡ 64 }
        requires rights { (hands seat).rights ≡ [] }
        ensures { ClosesWith R.meaning self.setup.rules self.setup.capacity (hands seat) result }
    {
        let Board { table, setup } = self;
        let Seat { seat } = seat;
        let words = table.close_with(seat);
        ClosedBoard {
            words,
            capacity: setup.capacity,
        }
    }
}
