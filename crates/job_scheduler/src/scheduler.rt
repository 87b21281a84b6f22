ghost use Rattle.std.specs.Prelude.{◌≡◌, ◌≢◌, ℕ, ◌^◌, ◌<◌, ◌≤◌, IfOk, OnErr, IsTrue};
ghost use Rattle.std.specs.Coded.{Coded-set};
ghost use Rattle.board_rule.specs.Seats.{parted, part, joined};
ghost use Rattle.goal_board.specs.Seats.{hands};
ghost use Rattle.goal_board.specs.Closing.{ClosesWith};

use crate::goal_turns::GoalTurns;
use crate::worker::Worker;
use goal_board::{Board, ClosedBoard, GoalRules, Hints, Inserted};
use place_hints::PlaceHints;
use std::alloc::{AllocError, Global};

/// A board, and who makes the turns of its goals, until the root goal is finished or the board is full.
#[derive(Drop)]
pub struct Scheduler<R: GoalRules, J: GoalTurns<R>> {
    pub(crate) board: Board<R>,
    pub(crate) turns: J,
    // The place of the root goal, and its word.
    pub(crate) root: u32,
    pub(crate) goal: u64,
    ghost near: { root < board.setup.capacity },
    ghost same_rules: { board.setup.rules ≡ J.rules_of turns } by { Coded-set R.code board.setup.rules (J.rules_of turns) },
}

impl<R: GoalRules, J: GoalTurns<R>> Scheduler<R, J> {
    ghost use Rattle.job_scheduler.specs.Workers.{IsFreeWorkerOf};
    ghost use Rattle.job_scheduler.specs.Opening.{IsOpening};

    /// A board of `capacity` cells with the root goal alone, and its first worker, whose number is 0.
    pub fn start(
        alloc: Global,
        rules: R,
        turns: J,
        goal: u64,
        capacity: u32,
    ) -> Result<(Scheduler<R, J>, Worker<R>), AllocError>
    where
        R: Drop,
        J: Drop,
        requires capacity { (1 ≤ capacity) × (capacity ≤ 2 ^ 20) }
        requires rules { rules ≡ J.rules_of turns }
        requires goal { (R.meaning rules).entry goal × IsTrue ((R.meaning rules).goal goal) }
        ensures board { IfOk result (λ made. (made.0.board.setup.rules ≡ rules) ×
            (made.0.board.setup.capacity ≡ capacity) × (made.0.goal ≡ goal)) }
        ensures worker { IfOk result (λ made.
            IsFreeWorkerOf R.meaning made.0.board made.0.root made.0.goal made.1 × (made.1.number ≡ 0)) }
        ensures opening { IfOk result (λ made. IsOpening capacity made.0.root goal (hands made.1.seat)) }
    {
        let mut hints = PlaceHints::new(alloc, capacity)?;
        let (board, mut seat) = Board::start(alloc, rules, capacity)?;
        match board.insert(&mut seat, goal) {
            Inserted::Fresh { at } => {
                hints.hint(at);
                let scheduler = Scheduler {
                    board,
                    turns,
                    root: at,
                    goal,
                };
                let worker = Worker {
                    seat,
                    hints,
                    next: 0,
                    number: 0,
                };
                Ok((scheduler, worker))
            }
            Inserted::Known { at: _at } => unreachable!(),
            Inserted::Full => unreachable!(),
        }
    }

    /// A new worker with this number, which has seen what this one has.
    pub fn split(
        &self,
        alloc: Global,
        worker: &mut Worker<R>,
        number: u32,
    ) -> Result<Worker<R>, AllocError>
        requires worker { IsFreeWorkerOf R.meaning self.now.board self.now.root self.now.goal worker.old }
        requires parts { 2 ≤ (hands worker.old.seat).parts }
        requires number { number < 64 }
        ensures this { IsFreeWorkerOf R.meaning self.now.board self.now.root self.now.goal worker.new }
        ensures other { IfOk result (IsFreeWorkerOf R.meaning self.now.board self.now.root self.now.goal) }
        ensures number { IfOk result (λ other. other.number ≡ number) }
        ensures left { IfOk result (λ other. hands worker.new.seat ≡ parted (hands worker.old.seat)) }
        ensures right { IfOk result (λ other. hands other.seat ≡ part (hands worker.old.seat)) }
        ensures same { worker.new.number ≡ worker.old.number }
        ensures err { OnErr result (hands worker.new.seat ≡ hands worker.old.seat) }
    {
        let hints = worker.hints.split(alloc)?;
        let seat = self.board.split(&mut worker.seat);
        Ok(Worker {
            seat,
            hints,
            next: worker.next,
            number,
        })
    }

    /// Takes in another worker. Its hints are dropped.
    pub fn join(&self, worker: &mut Worker<R>, other: Worker<R>)
        requires worker { IsFreeWorkerOf R.meaning self.now.board self.now.root self.now.goal worker.old }
        requires other { IsFreeWorkerOf R.meaning self.now.board self.now.root self.now.goal other }
        ensures worker { IsFreeWorkerOf R.meaning self.now.board self.now.root self.now.goal worker.new }
        ensures hands { hands worker.new.seat ≡ joined (hands worker.old.seat) (hands other.seat) }
        ensures same { worker.new.number ≡ worker.old.number }
    {
        let Worker {
            seat,
            hints: _,
            next: _,
            number: _,
        } = other;
        self.board.join(&mut worker.seat, seat);
    }

    /// Ends the board, whose last worker this is.
    pub fn close(self, worker: Worker<R>) -> ClosedBoard
    where
        R: Drop,
        J: Drop,
        requires worker { IsFreeWorkerOf R.meaning self.board self.root self.goal worker }
        requires parts { (hands worker.seat).parts ≡ 64 }
        ensures { ClosesWith R.meaning self.board.setup.rules self.board.setup.capacity
            (hands worker.seat) result }
    {
        let Scheduler {
            board,
            turns: _,
            root: _,
            goal: _,
        } = self;
        let Worker {
            seat,
            hints: _,
            next: _,
            number: _,
        } = worker;
        board.close(seat)
    }
}
