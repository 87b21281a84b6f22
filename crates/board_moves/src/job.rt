ghost use Rattle.std.specs.Prelude.{◌≡◌, ℕ, ◌+◌, ◌≤◌, ◌<◌, IsTrue, ◌↔◌};

use crate::entries::put_goal;
use crate::progress::{Progress, Turned};
use goal_board::{Answer, Awaited, Board, GoalRules, Hints, Inserted, Right, Seat, Suspended};

/// A goal that was claimed, while its turn lasts: the right to it, and how many waits that has.
pub struct Job {
    pub(crate) right: Right,
    pub(crate) waits: u32,
    ghost counted: { waits ≡ right.waits },
}

impl Job {
    ghost use Rattle.board_rule.specs.Words.{cell_word};
    ghost use Rattle.board_rule.specs.Looks.{Looked};
    ghost use Rattle.goal_board.specs.Seats.{IsSeatOf, hands};
    ghost use Rattle.goal_board.specs.SeatCalls.{HasRightTo};
    ghost use Rattle.board_moves.specs.Moves.{IsDoneUnlessWaiting};
    ghost use Rattle.board_moves.specs.Seats.{SeatAwaitsChild, SeatIsReady, SeatEnds};

    /// The job of a right that was just claimed.
    #[inline(always)]
    pub fn of(right: Right) -> Job
        requires { right.waits ≡ 0 }
        ensures { result.right ≡ right }
    {
        Job { right, waits: 0 }
    }

    /// The goal's word.
    #[inline(always)]
    pub fn goal(&self) -> u64
        ensures { result ≡ self.now.right.goal }
    {
        self.right.goal()
    }

    /// Whether the goal waits for something.
    #[inline(always)]
    pub fn is_waiting(&self) -> bool
        ensures { IsTrue result ↔ (1 ≤ self.now.right.waits) }
    {
        self.waits != 0
    }

    /// The work is done, with this answer, unless the goal waits for something.
    #[inline(always)]
    pub fn progress(&self, answer: Answer) -> Progress
        ensures { IsDoneUnlessWaiting self.now.right answer result }
    {
        if self.waits == 0 {
            Progress::Complete(answer)
        } else {
            Progress::Waiting
        }
    }

    /// Sees whether a child of the goal is finished. Otherwise puts it in, and waits for it, unless the goal waits for
    /// eight others.
    #[inline(always)]
    pub fn await_child<R: GoalRules, H: Hints>(
        &mut self,
        board: &Board<R>,
        seat: &mut Seat<R>,
        child: u64,
        hints: &mut H,
    ) -> Progress
        requires seat { IsSeatOf R.meaning board.now seat.old }
        requires right { HasRightTo R.meaning board.now seat.old self.old.right }
        requires child { (R.meaning board.now.setup.rules).child self.old.right.goal child }
        requires hints { H.capacity hints.old ≡ board.now.setup.capacity }
        ensures seat { IsSeatOf R.meaning board.now seat.new }
        ensures right { HasRightTo R.meaning board.now seat.new self.new.right }
        ensures awaits { SeatAwaitsChild R.meaning board.now seat.old self.old.right child
            result seat.new self.new.right }
        ensures hints { H.capacity hints.new ≡ H.capacity hints.old }
    {
        match put_goal(board, seat, child, hints) {
            Inserted::Fresh { at } => self.wait(board, seat, at, child),
            Inserted::Known { at } => match board.answer(seat, at) {
                Some(answer) => Progress::Complete(answer),
                None => self.wait(board, seat, at, child),
            },
            Inserted::Full => Progress::Full,
        }
    }

    // Waits for a child that a look found, unless the goal waits for eight others or the child is finished by now.
    fn wait<R: GoalRules>(
        &mut self,
        board: &Board<R>,
        seat: &mut Seat<R>,
        at: u32,
        child: u64,
    ) -> Progress
        requires seat { IsSeatOf R.meaning board.now seat.old }
        requires right { HasRightTo R.meaning board.now seat.old self.old.right }
        requires near { at < board.now.setup.capacity }
        requires stands { Looked (hands seat.old).looks (cell_word at) child }
        requires child { (R.meaning board.now.setup.rules).child self.old.right.goal child }
        ensures seat { IsSeatOf R.meaning board.now seat.new }
        ensures right { HasRightTo R.meaning board.now seat.new self.new.right }
        ensures awaits { SeatAwaitsChild R.meaning board.now seat.old self.old.right child
            result seat.new self.new.right }
    {
        if self.waits == 8 {
            return Progress::Waiting;
        }
        match board.wait_for(seat, &mut self.right, at) {
            Awaited::Registered => {
                self.waits += 1;
                Progress::Waiting
            }
            Awaited::Finished => match board.answer(seat, at) {
                Some(answer) => Progress::Complete(answer),
                None => unreachable!(),
            },
        }
    }

    /// Ends the turn. The worker's number is below 64.
    pub fn end<R: GoalRules, H: Hints>(
        self,
        board: &Board<R>,
        seat: &mut Seat<R>,
        worker: u32,
        progress: Progress,
        hints: &mut H,
    ) -> Turned
        requires seat { IsSeatOf R.meaning board.now seat.old }
        requires right { HasRightTo R.meaning board.now seat.old self.right }
        requires ready { SeatIsReady R.meaning board.now seat.old self.right progress }
        requires worker { worker < 64 }
        requires hints { H.capacity hints.old ≡ board.now.setup.capacity }
        ensures seat { IsSeatOf R.meaning board.now seat.new }
        ensures ends { SeatEnds R.meaning board.now seat.old self.right.place worker progress
            result seat.new }
        ensures hints { H.capacity hints.new ≡ H.capacity hints.old }
    {
        let Job { right, waits: _ } = self;
        match progress {
            Progress::Complete(answer) => {
                Turned::Finished(board.finish(seat, right, worker, answer, hints))
            }
            Progress::Waiting => {
                let place = right.place();
                // Whatever it waited for is finished by now, and nobody else is told.
                if let Suspended::Ready = board.suspend(seat, right) {
                    hints.hint(place);
                }
                Turned::Suspended
            }
            Progress::Full => {
                board.suspend(seat, right);
                Turned::Full
            }
        }
    }
}
