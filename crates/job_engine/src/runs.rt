//! Runs of a search to its end, by one worker or by a crew.
#![tactic(auto)]

ghost use Rattle.std.specs.Prelude.{◌≡◌, ◌≤◌, IfOk, OnErr, Some};
ghost use Rattle.job_engine.specs.Searching.{query_of, IsFresh, IsLast};
ghost use Rattle.job_engine.specs.Runs.{RunEnds, IsNoted, IsRun};

use crate::engine::Engine;
use crate::note::RunNote;
use goal_rules::Rules;
use job_outcome::{Outcome, finishers_are_known, outcome_of};
use job_scheduler::Worker;
use orca_io::Gate;
use std::alloc::{AllocError, Global};
use std::sync::Wait;
use std::thread::Threads;

/// Runs the search by its first worker alone. It returns. Engine and worker are as `Engine::start` gave them.
pub fn run_alone<'q>(engine: Engine<'q>, worker: Worker<Rules<'q>>, note: &mut RunNote) -> Outcome
    requires { IsFresh engine worker }
    ensures ends { RunEnds (query_of engine.entry) engine.entry.cells 1 result }
    ensures noted { IsNoted engine.entry.capacity 1 result note.new }
    ensures run { IsRun (query_of engine.entry) engine.entry.cells engine.entry.capacity 1 result note.new }
{
    let mut worker = worker;
    engine.scheduler.work_alone(&mut worker);
    end(engine, worker, 1, note)
}

/// Runs the search by n workers, each in a thread of its own. Each passes the gate before each of its steps. It may
/// wait. Engine and worker are as `Engine::start` gave them.
pub fn run_crew<'q, W: Threads + Wait + Sync, G: Gate>(
    rt: &W,
    alloc: Global,
    engine: Engine<'q>,
    worker: Worker<Rules<'q>>,
    n: u32,
    gate: &G,
    note: &mut RunNote,
) -> Result<Outcome, AllocError>
    requires fresh { IsFresh engine worker }
    requires workers { (1 ≤ n) × (n ≤ 64) }
    ensures ends { IfOk result (RunEnds (query_of engine.entry) engine.entry.cells n) }
    ensures noted { IfOk result (λ outcome. IsNoted engine.entry.capacity n outcome note.new) }
    ensures run { IfOk result (λ outcome.
        IsRun (query_of engine.entry) engine.entry.cells engine.entry.capacity n outcome note.new) }
    ensures err { OnErr result (note.new ≡ note.old) }
{
    let worker = engine.scheduler.work_crew(rt, alloc, worker, n, gate)?;
    Ok(end(engine, worker, n, note))
}

// Ends a search of n workers, whose last worker this is, and fills the note.
fn end<'q>(engine: Engine<'q>, worker: Worker<Rules<'q>>, n: u32, note: &mut RunNote) -> Outcome
    requires { IsLast engine n worker }
    ensures ends { RunEnds (query_of engine.entry) engine.entry.cells n result }
    ensures noted { IsNoted engine.entry.capacity n result note.new }
    ensures run { IsRun (query_of engine.entry) engine.entry.cells engine.entry.capacity n result note.new }
{
    // For the proof: each finished goal has one worker, which the last one's seat has in its list.
    finishers_are_known();
    let capacity = engine.capacity;
    let (outcome, finished) = close_board(engine, worker, n);
    note.filled = Some((capacity, n, finished));
    outcome
}

// Closes the board of a search of n workers, whose last worker this is: what it held, and how many goals were
// finished.
fn close_board<'q>(engine: Engine<'q>, worker: Worker<Rules<'q>>, _n: u32) -> (Outcome, u32)
    requires { IsLast engine _n worker }
    ensures { IsRun (query_of engine.entry) engine.entry.cells
        engine.entry.capacity _n result.0 (Some (engine.entry.capacity, _n, result.1)) }
{
    let Engine {
        scheduler,
        rules,
        root,
        cells,
        capacity: _,
    } = engine;
    let board = scheduler.close(worker);
    let finished = board.finished_count();
    (outcome_of(&rules, root, cells, board), finished)
}
