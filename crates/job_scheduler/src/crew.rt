// Many workers, each in a thread of its own.
ghost use Rattle.std.specs.Prelude.{◌≡◌, ℕ, ◌+◌, ◌<◌, ◌≤◌, All, IfOk, [], List};
ghost use Rattle.goal_board.specs.Seats.{hands};
ghost use Rattle.job_scheduler.specs.Crews.{IsOfCrew, Worked, AreWorked, ShowsEnd, parts_of};

use crate::goal_turns::GoalTurns;
use crate::scheduler::Scheduler;
use crate::stepped::Stepped;
use crate::worker::Worker;
use goal_board::GoalRules;
use orca_io::Gate;
use std::alloc::{AllocError, Global};
use std::sync::Wait;
use std::thread;
use std::thread::Threads;

impl<R: GoalRules, J: GoalTurns<R>> Scheduler<R, J> {
    /// Lets n workers, in threads of their own, step until the root goal is finished or the board is full, and takes
    /// all of them in. Where memory is refused no worker comes back. It may wait.
    pub fn work_crew<W: Threads + Wait + Sync, G: Gate>(
        &self,
        rt: &W,
        alloc: Global,
        worker: Worker<R>,
        n: u32,
        gate: &G,
    ) -> Result<Worker<R>, AllocError>
        requires worker { IsOfCrew R.meaning self.now.board self.now.root self.now.goal n worker }
        requires parts { (hands worker.seat).parts ≡ 64 }
        requires few { n ≤ 64 }
        ensures { IfOk result (Worked R.meaning self.now.board self.now.root self.now.goal n worker) }
    {
        let crew = self.hire(alloc, worker, n)?;
        let task = |worker: Worker<R>| -> Worker<R>
            requires { IsOfCrew R.meaning self.now.board self.now.root self.now.goal n worker }
            ensures { Worked R.meaning self.entry.now.board self.entry.now.root self.entry.now.goal
                n worker result }
        { self.work(rt, worker, n, gate) };
        let crew = thread::map_vec(rt, crew, &task)?;
        Ok(self.gather(crew, n))
    }

    // The worker and n - 1 others that are split from it.
    fn hire(&self, alloc: Global, first: Worker<R>, n: u32) -> Result<Vec<Worker<R>>, AllocError>
        requires worker { IsOfCrew R.meaning self.now.board self.now.root self.now.goal n first }
        requires parts { (hands first.seat).parts ≡ 64 }
        requires few { n ≤ 64 }
        ensures each { IfOk result (λ crew.
            All (IsOfCrew R.meaning self.now.board self.now.root self.now.goal n) crew.items) }
        ensures parts { IfOk result (λ crew. parts_of crew.items ≡ 64) }
    {
        let mut first = first;
        let mut crew = Vec::new(alloc);
        for number in 1..n {
            let other = self.split(alloc, &mut first, number)?;
            crew.push(other)?;
        }
        crew.push(first)?;
        Ok(crew)
    }

    // Steps until the root goal is finished or the board is full. The number of workers bounds the worker's.
    fn work<W: Wait, G: Gate>(&self, rt: &W, worker: Worker<R>, _n: u32, gate: &G) -> Worker<R>
        requires { IsOfCrew R.meaning self.now.board self.now.root self.now.goal _n worker }
        ensures { Worked R.meaning self.now.board self.now.root self.now.goal _n worker result }
    {
        let mut worker = worker;
        let mut turn = 0u64;
        for _step in rt.forever() {
            gate.pass(worker.number, turn);
            turn = turn.saturating_add(1);
            match self.step(&mut worker) {
                Stepped::Ran => {}
                Stepped::Idle => thread::yield_now(),
                Stepped::Done => return worker,
                Stepped::Full => return worker,
            }
        }
        unreachable!()
    }

    // Takes all workers into one of them.
    fn gather(&self, crew: Vec<Worker<R>>, _n: u32) -> Worker<R>
        requires each { AreWorked R.meaning self.now.board self.now.root self.now.goal _n crew.items }
        requires parts { parts_of crew.items ≡ 64 }
        ensures its { IsOfCrew R.meaning self.now.board self.now.root self.now.goal _n result }
        ensures parts { (hands result.seat).parts ≡ 64 }
        ensures ended { ShowsEnd (hands result.seat).looks self.now.root }
    {
        let mut crew = crew;
        let Some(mut worker) = crew.pop() else {
            unreachable!()
        };
        while let Some(other) = crew.pop() {
            self.join(&mut worker, other);
        }
        worker
    }
}
