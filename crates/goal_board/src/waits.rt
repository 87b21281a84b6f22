ghost use Rattle.std.specs.Prelude.{◌≡◌, ℕ, ◌<◌};
ghost use Rattle.goal_board.specs.Seats.{IsSeatOf, hands};
ghost use Rattle.goal_board.specs.RightCalls.{waited};
ghost use Rattle.goal_board.specs.SeatCalls.{HasRightTo, HasSeenChild, SeatWaitsFor, SeatKeepsOthers};

use crate::answers::Awaited;
use crate::board::{Board, Right, Seat};
use crate::steps::CLOSED;
use board_rule::GoalRules;

impl<R: GoalRules> Board<R> {
    /// Lets a goal wait for a child, unless the child is finished. A goal that waits is not ready before.
    pub fn wait_for(&self, seat: &mut Seat<R>, right: &mut Right, child_at: u32) -> Awaited
        requires seat { IsSeatOf R.meaning self.now seat.old }
        requires right { HasRightTo R.meaning self.now seat.old right.old }
        requires near { child_at < self.now.setup.capacity }
        requires child { HasSeenChild R.meaning self.now seat.old right.old.goal child_at }
        requires fewer { right.old.waits < 8 }
        ensures seat { IsSeatOf R.meaning self.now seat.new }
        ensures answer { SeatWaitsFor R.meaning self.now seat.old right.old.place child_at result seat.new }
        ensures right { right.new ≡ waited result right.old }
        ensures its { HasRightTo R.meaning self.now seat.new right.new }
        ensures others { SeatKeepsOthers R.meaning self.now seat.old right.old.place seat.new }
    {
        let waiter = 8 * right.place + right.waits;
        self.begin_wait(seat, right.place, right.waits);
        let mut head = self.see_head(seat, child_at);
        while head < CLOSED {
            self.store_next(seat, waiter, head);
            let found = self.put_wait(seat, waiter, child_at, head);
            if found == head {
                right.waits += 1;
                return Awaited::Registered;
            }
            head = found;
        }
        self.drop_wait(seat, waiter);
        Awaited::Finished
    }
}
