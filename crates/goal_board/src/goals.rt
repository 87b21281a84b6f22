ghost use Rattle.std.specs.Prelude.{◌≡◌, ℕ, ◌<◌, IsSome};
ghost use Rattle.goal_board.specs.Seats.{IsSeatOf, hands};
ghost use Rattle.goal_board.specs.RightCalls.{SuspendsGoal};
ghost use Rattle.goal_board.specs.SeatCalls.{HasRightTo, HasSeenPromise, HasSeenClosed, SeatKeepsRights};
ghost use Rattle.goal_board.specs.SeatCalls.{SeatKeepsOthers, SeatClaims, SeatFinishes, SeatReads};

use crate::answers::{Answer, Suspended, Woken};
use crate::board::{Board, Right, Seat};
use crate::hints::Hints;
use crate::steps::{CLOSED, HELD, cell_at, cost_at, head_at, node_at, run_at};
use board_rule::GoalRules;

impl<R: GoalRules> Board<R> {
    /// Claims the goal at a place, if it is ready.
    pub fn claim(&self, seat: &mut Seat<R>, at: u32) -> Option<Right>
        requires seat { IsSeatOf R.meaning self.now seat.old }
        requires near { at < self.now.setup.capacity }
        ensures seat { IsSeatOf R.meaning self.now seat.new }
        ensures answer { SeatClaims R.meaning self.now seat.old at result seat.new }
        ensures others { SeatKeepsRights R.meaning self.now seat.old seat.new }
    {
        let goal = self.look(seat, cell_at(at));
        if goal == 0 || !self.setup.rules.is_goal(goal) {
            return None;
        }
        // A look costs less than a step that finds the goal taken.
        let run = self.look(seat, run_at(at));
        if run != 0 {
            return None;
        }
        if self.hold(seat, at) == 0 {
            Some(Right {
                place: at,
                goal,
                waits: 0,
            })
        } else {
            None
        }
    }

    /// Gives up the right to a goal that isn't finished.
    pub fn suspend(&self, seat: &mut Seat<R>, right: Right) -> Suspended
        requires seat { IsSeatOf R.meaning self.now seat.old }
        requires right { HasRightTo R.meaning self.now seat.old right }
        ensures seat { IsSeatOf R.meaning self.now seat.new }
        ensures answer { SuspendsGoal (hands seat.old) right.place result (hands seat.new) }
        ensures others { SeatKeepsOthers R.meaning self.now seat.old right.place seat.new }
    {
        let Right {
            place,
            goal: _,
            waits: _,
        } = right;
        if self.release(seat, place) == HELD {
            Suspended::Ready
        } else {
            Suspended::Waiting
        }
    }

    /// Finishes a goal with its answer, and wakes the goals that wait for it. The worker's number is below 64.
    pub fn finish<H: Hints>(
        &self,
        seat: &mut Seat<R>,
        right: Right,
        worker: u32,
        answer: Answer,
        hints: &mut H,
    ) -> Woken
        requires seat { IsSeatOf R.meaning self.now seat.old }
        requires right { HasRightTo R.meaning self.now seat.old right }
        requires waits { right.waits ≡ 0 }
        requires worker { worker < 64 }
        requires promise { HasSeenPromise R.meaning self.now seat.old right.goal }
        requires answer { (R.meaning self.now.setup.rules).answer right.goal answer.cost answer.node }
        requires hints { H.capacity hints.old ≡ self.now.setup.capacity }
        ensures seat { IsSeatOf R.meaning self.now seat.new }
        ensures answer { SeatFinishes R.meaning self.now seat.old right.place worker answer result seat.new }
        ensures others { SeatKeepsOthers R.meaning self.now seat.old right.place seat.new }
        ensures hints { H.capacity hints.new ≡ H.capacity hints.old }
    {
        let Right {
            place,
            goal: _,
            waits: _,
        } = right;
        self.store_cost(seat, place, answer.cost);
        self.store_node(seat, place, answer.node);
        self.store_who(seat, place, worker as u64 + 1);
        let head = self.close_head(seat, place, worker, answer.cost, answer.node);
        self.wake(seat, head, hints)
    }

    /// The answer of the goal at a place, if it is finished.
    #[inline(always)]
    pub fn answer(&self, seat: &mut Seat<R>, at: u32) -> Option<Answer>
        requires seat { IsSeatOf R.meaning self.now seat.old }
        requires near { at < self.now.setup.capacity }
        ensures seat { IsSeatOf R.meaning self.now seat.new }
        ensures answer { SeatReads R.meaning self.now seat.old at result seat.new }
        ensures shown { HasSeenClosed seat.old at → IsSome result }
    {
        if self.look(seat, head_at(at)) < CLOSED {
            return None;
        }
        let cost = self.look(seat, cost_at(at));
        let node = self.look(seat, node_at(at));
        Some(Answer { cost, node })
    }
}
