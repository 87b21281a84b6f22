ghost use Rattle.std.specs.Prelude.{◌≡◌, ◌⊎◌, [], ◌∷◌};
ghost use Rattle.board_rule.specs.Looks.{ShowsFull, ShowsClosed};
ghost use Rattle.board_rule.specs.Seats.{fresh_right};
ghost use Rattle.goal_board.specs.Seats.{hands};
ghost use Rattle.goal_board.specs.SeatCalls.{HasRightTo};
ghost use Rattle.job_scheduler.specs.Workers.{IsWorkerOf, IsFreeWorkerOf};
ghost use Rattle.job_scheduler.specs.Steps.{Keeps, TurnKeeps, Runs};
ghost use Rattle.job_scheduler.specs.Steps.{WorkerSteps, WorkerStepsAlone, WorkerAdvancesAlone};
ghost use Rattle.job_scheduler.specs.declared.stepped.Stepped.TheVariants as stepped;

use crate::goal_turns::GoalTurns;
use crate::scheduler::Scheduler;
use crate::sought::{Sought, Standing};
use crate::stepped::Stepped;
use crate::worker::Worker;
use board_moves::Turned;
use goal_board::{GoalRules, Right};

impl<R: GoalRules, J: GoalTurns<R>> Scheduler<R, J> {
    /// Claims one goal that is ready and makes its turn, or tells why there is none. It waits for nobody and takes
    /// no memory that it can't do without.
    pub fn step(&self, worker: &mut Worker<R>) -> Stepped
        requires worker { IsFreeWorkerOf R.meaning self.now.board self.now.root self.now.goal worker.old }
        ensures worker { IsFreeWorkerOf R.meaning self.now.board self.now.root self.now.goal worker.new }
        ensures number { worker.new.number ≡ worker.old.number }
        ensures keeps { Keeps (hands worker.old.seat) (hands worker.new.seat) }
        ensures steps { WorkerSteps R.meaning self.now.board worker.old self.now.root result worker.new }
        ensures alone { WorkerStepsAlone R.meaning self.now.board worker.old result worker.new }
        ensures closed { ShowsClosed (hands worker.old.seat).looks self.now.root → result ≡ stepped.Done }
        ensures full { ShowsFull (hands worker.old.seat).looks →
            (result ≡ stepped.Full) ⊎ (result ≡ stepped.Done) }
    {
        match self.look(worker) {
            Standing::Done => Stepped::Done,
            Standing::Full => Stepped::Full,
            Standing::Open => match self.seek(worker) {
                Sought::Claimed(right) => self.run(worker, right),
                Sought::Busy => Stepped::Idle,
                Sought::Done => Stepped::Done,
                Sought::Full => Stepped::Full,
            },
        }
    }

    // Makes the turn of the goal that was claimed, the only one that this worker holds.
    fn run(&self, worker: &mut Worker<R>, right: Right) -> Stepped
        requires worker { IsWorkerOf R.meaning self.now.board self.now.root self.now.goal worker.old }
        requires right { HasRightTo R.meaning self.now.board worker.old.seat right }
        requires fresh { right.waits ≡ 0 }
        requires only { (hands worker.old.seat).rights ≡ fresh_right right.place ∷ [] }
        ensures worker { IsFreeWorkerOf R.meaning self.now.board self.now.root self.now.goal worker.new }
        ensures number { worker.new.number ≡ worker.old.number }
        ensures keeps { TurnKeeps (hands worker.old.seat) (hands worker.new.seat) right.place }
        ensures runs { Runs worker.old.number right.place (hands worker.old.seat)
            result (hands worker.new.seat) }
        ensures alone { result ≡ stepped.Ran →
            WorkerAdvancesAlone R.meaning self.now.board worker.old worker.new }
    {
        let turned = self.turns.turn(
            &self.board,
            &mut worker.seat,
            right,
            worker.number,
            &mut worker.hints,
        );
        match turned {
            Turned::Finished(_) => Stepped::Ran,
            Turned::Suspended => Stepped::Ran,
            Turned::Full => Stepped::Full,
        }
    }
}
