ghost use Rattle.std.specs.Prelude.{◌≡◌, ℕ, ◌<◌, List, Some};
ghost use Rattle.goal_board.specs.Seats.{hands};
ghost use Rattle.job_scheduler.specs.Crews.{IsOfCrew, Worked};

use crate::goal_turns::GoalTurns;
use crate::scheduler::Scheduler;
use crate::stepped::Stepped;
use crate::worker::Worker;
use goal_board::GoalRules;

impl<R: GoalRules, J: GoalTurns<R>> Scheduler<R, J> {
    /// Steps until the root goal is finished or the board is full, as the only worker that there ever was. It returns.
    pub fn work_alone(&self, worker: &mut Worker<R>)
        requires worker { IsOfCrew R.meaning self.now.board self.now.root self.now.goal 1 worker.old }
        requires alone { (kept : List ℕ) × ((hands worker.old.seat).alone ≡ Some kept) }
        ensures worked { Worked R.meaning self.now.board self.now.root self.now.goal 1 worker.old worker.new }
    {
        loop {
            match self.step(worker) {
                Stepped::Ran => {}
                Stepped::Idle => unreachable!(),
                Stepped::Done => return,
                Stepped::Full => return,
            }
        }
    }
}
