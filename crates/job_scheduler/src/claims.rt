// How a worker finds a goal that is ready, and claims it.
ghost use Rattle.std.specs.Prelude.{◌≡◌, ◌<◌, ◌≤◌, IfSome};
ghost use Rattle.goal_board.specs.Seats.{hands};
ghost use Rattle.job_scheduler.specs.Workers.{IsWorkerOf};
ghost use Rattle.job_scheduler.specs.Claims.{StaysClosed, StaysFull, WorkerClaims, WorkerSweeps, WorkerFinds};
ghost use Rattle.job_scheduler.specs.Claims.{WorkerSeeks, WorkerSeeksAll};

use crate::goal_turns::GoalTurns;
use crate::scheduler::Scheduler;
use crate::sought::{Sought, Standing};
use crate::worker::Worker;
use goal_board::{GoalRules, Right};
use std::thread;

/// How many places a piece of a scan has. Behind each piece a worker looks at the root goal, at the full word, and at
/// what other workers were told of. Then it lets other threads go on: most goals are made ready by them, and hinted.
const PIECE: u32 = 16;

impl<R: GoalRules, J: GoalTurns<R>> Scheduler<R, J> {
    // Looks at the root goal, and then at the full word.
    pub(crate) fn look(&self, worker: &mut Worker<R>) -> Standing
        requires worker { IsWorkerOf R.meaning self.now.board self.now.root self.now.goal worker.old }
        ensures worker { IsWorkerOf R.meaning self.now.board self.now.root self.now.goal worker.new }
        ensures number { worker.new.number ≡ worker.old.number }
        ensures finds { WorkerFinds R.meaning self.now.board worker.old self.now.root result worker.new }
        ensures closed { StaysClosed (hands worker.old.seat).looks self.now.root result }
        ensures full { StaysFull (hands worker.old.seat).looks result }
    {
        match self.board.answer(&mut worker.seat, self.root) {
            Some(_) => Standing::Done,
            None => {
                if self.board.full_seen(&mut worker.seat) {
                    Standing::Full
                } else {
                    Standing::Open
                }
            }
        }
    }

    // Claims the goal of a hint, if it is ready.
    fn claim_hinted(&self, worker: &mut Worker<R>, hint: Option<u32>) -> Option<Right>
        requires worker { IsWorkerOf R.meaning self.now.board self.now.root self.now.goal worker.old }
        requires near { IfSome hint (λ at. at < self.now.board.setup.capacity) }
        ensures worker { IsWorkerOf R.meaning self.now.board self.now.root self.now.goal worker.new }
        ensures number { worker.new.number ≡ worker.old.number }
        ensures claims { WorkerClaims R.meaning self.now.board worker.old result worker.new }
    {
        match hint {
            Some(at) => self.board.claim(&mut worker.seat, at),
            None => None,
        }
    }

    // Claims a goal that this worker was told of, the newest first.
    fn claim_own(&self, worker: &mut Worker<R>) -> Option<Right>
        requires worker { IsWorkerOf R.meaning self.now.board self.now.root self.now.goal worker.old }
        ensures worker { IsWorkerOf R.meaning self.now.board self.now.root self.now.goal worker.new }
        ensures number { worker.new.number ≡ worker.old.number }
        ensures claims { WorkerClaims R.meaning self.now.board worker.old result worker.new }
    {
        for _hint in 0..self.board.capacity() {
            let hint = worker.hints.take();
            if hint.is_none() {
                break;
            }
            if let Some(right) = self.claim_hinted(worker, hint) {
                return Some(right);
            }
        }
        None
    }

    // Claims a goal that another worker was told of, trying each of them once.
    fn claim_stolen(&self, worker: &mut Worker<R>) -> Option<Right>
        requires worker { IsWorkerOf R.meaning self.now.board self.now.root self.now.goal worker.old }
        ensures worker { IsWorkerOf R.meaning self.now.board self.now.root self.now.goal worker.new }
        ensures number { worker.new.number ≡ worker.old.number }
        ensures claims { WorkerClaims R.meaning self.now.board worker.old result worker.new }
    {
        for other in 0..worker.hints.others() {
            let hint = worker.hints.steal(other);
            if let Some(right) = self.claim_hinted(worker, hint) {
                return Some(right);
            }
        }
        None
    }

    // Claims the first goal from a place on that is ready, if one is before the end.
    fn claim_between(&self, worker: &mut Worker<R>, from: u32, to: u32) -> Option<Right>
        requires worker { IsWorkerOf R.meaning self.now.board self.now.root self.now.goal worker.old }
        requires near { to ≤ self.now.board.setup.capacity }
        ensures worker { IsWorkerOf R.meaning self.now.board self.now.root self.now.goal worker.new }
        ensures number { worker.new.number ≡ worker.old.number }
        ensures sweeps { WorkerSweeps R.meaning self.now.board worker.old from to result worker.new }
    {
        for at in from..to {
            if let Some(right) = self.board.claim(&mut worker.seat, at) {
                worker.next = at + 1;
                return Some(right);
            }
        }
        None
    }

    // Scans a piece of the places. Where it finds none it looks at the root goal and the full word, and then at what
    // other workers were told of meanwhile.
    fn scan_piece(&self, worker: &mut Worker<R>, from: u32, to: u32) -> Sought
        requires worker { IsWorkerOf R.meaning self.now.board self.now.root self.now.goal worker.old }
        requires near { to ≤ self.now.board.setup.capacity }
        ensures worker { IsWorkerOf R.meaning self.now.board self.now.root self.now.goal worker.new }
        ensures number { worker.new.number ≡ worker.old.number }
        ensures seeks { WorkerSeeks R.meaning self.now.board worker.old
            self.now.root from to result worker.new }
    {
        match self.claim_between(worker, from, to) {
            Some(right) => Sought::Claimed(right),
            None => match self.look(worker) {
                Standing::Open => match self.claim_stolen(worker) {
                    Some(right) => Sought::Claimed(right),
                    None => Sought::Busy,
                },
                Standing::Done => Sought::Done,
                Standing::Full => Sought::Full,
            },
        }
    }

    // Scans these places, piece by piece.
    fn scan(&self, worker: &mut Worker<R>, from: u32, to: u32) -> Sought
        requires worker { IsWorkerOf R.meaning self.now.board self.now.root self.now.goal worker.old }
        requires near { to ≤ self.now.board.setup.capacity }
        ensures worker { IsWorkerOf R.meaning self.now.board self.now.root self.now.goal worker.new }
        ensures number { worker.new.number ≡ worker.old.number }
        ensures seeks { WorkerSeeks R.meaning self.now.board worker.old
            self.now.root from to result worker.new }
    {
        let mut at = from;
        while at < to {
            let end = piece_end(at, to);
            match self.scan_piece(worker, at, end) {
                Sought::Busy => at = end,
                sought => return sought,
            }
            thread::yield_now();
        }
        Sought::Busy
    }

    // Scans all places, from the one after that of the last scan round to it.
    fn scan_all(&self, worker: &mut Worker<R>) -> Sought
        requires worker { IsWorkerOf R.meaning self.now.board self.now.root self.now.goal worker.old }
        ensures worker { IsWorkerOf R.meaning self.now.board self.now.root self.now.goal worker.new }
        ensures number { worker.new.number ≡ worker.old.number }
        ensures seeks { WorkerSeeksAll R.meaning self.now.board worker.old self.now.root result worker.new }
    {
        let from = worker.next;
        match self.scan(worker, from, self.board.capacity()) {
            Sought::Busy => self.scan(worker, 0, from),
            sought => sought,
        }
    }

    // Claims a goal by the worker's own hints, then by those of others, and only then by a scan.
    pub(crate) fn seek(&self, worker: &mut Worker<R>) -> Sought
        requires worker { IsWorkerOf R.meaning self.now.board self.now.root self.now.goal worker.old }
        ensures worker { IsWorkerOf R.meaning self.now.board self.now.root self.now.goal worker.new }
        ensures number { worker.new.number ≡ worker.old.number }
        ensures seeks { WorkerSeeksAll R.meaning self.now.board worker.old self.now.root result worker.new }
    {
        match self.claim_own(worker) {
            Some(right) => Sought::Claimed(right),
            None => match self.claim_stolen(worker) {
                Some(right) => Sought::Claimed(right),
                None => self.scan_all(worker),
            },
        }
    }
}

// Where the piece ends that begins here.
fn piece_end(at: u32, to: u32) -> u32
    requires { at < to }
    ensures { (at < result) × (result ≤ to) }
{
    if to - at > PIECE { at + PIECE } else { to }
}
