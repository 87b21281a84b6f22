//! How many workers search: each passes a gate before each of its steps.
use crate::join_tests::JOINED;
use crate::runs::{JOIN, PLAN, TWO_TABLES, assert_told, run_over, shelf_of, text_at};
use orca_cli::Status;
use orca_io::{Gate, MemSink};
use std::alloc::AllocGlobal;
use std::sync::Wait;
use std::sync::atomic::{AtomicU64, Ordering};
use std::test::Fail;
use std::thread::Threads;
use test_gates::MeetingGate;

// Has a bit for each worker that passed.
#[derive(Drop)]
struct Counting {
    passed: AtomicU64,
}

impl Gate for Counting {
    fn pass(&self, worker: u32, _turn: u64) {
        if worker < 64 {
            self.passed.fetch_or(1 << worker, Ordering::SeqCst);
        }
    }
}

// The text of the words of a line over the running example, where there is a plan, and the note; the workers pass the
// gate.
fn planned_past<R: Threads + Wait + Sync + AllocGlobal, G: Gate>(
    rt: &R,
    line: &str,
    gate: &G,
) -> Result<(String, Option<(u32, u32, u32)>), Fail> {
    let mut shelf = shelf_of(rt.alloc(), TWO_TABLES.as_bytes(), JOIN.as_bytes())?;
    let mut sink = MemSink::with_room(rt.alloc(), 1 << 20)?;
    let (status, note) = run_over(rt, line, &mut shelf, &mut sink, gate)?;
    let text = text_at(rt.alloc(), status, Status::Planned, &sink)?;
    Ok((text, note))
}

// How many workers pass the gate where the words ask for so many, and the plan is printed.
fn passes<R: Threads + Wait + Sync + AllocGlobal>(rt: &R, workers: &str) -> Result<u32, Fail> {
    let line = [PLAN, " --workers ", workers].concat(rt.alloc())?;
    let gate = Counting {
        passed: AtomicU64::new(0),
    };
    let (text, _) = planned_past(rt, &line, &gate)?;
    if text.as_str() != JOINED {
        return Ok(0);
    }
    Ok(gate.passed.load(Ordering::SeqCst).count_ones())
}

#[test]
fn each_worker_of_a_crew_passes_the_gate(rt: HostRuntime) -> Result<(), Fail> {
    assert!(rt; passes(&rt, "2")? == 2);
    assert!(rt; passes(&rt, "8")? == 8);
    assert!(rt; passes(&rt, "64")? == 64);
    Ok(())
}

#[test]
fn two_workers_of_a_run_meet(rt: HostRuntime) -> Result<(), Fail> {
    let gate = MeetingGate::new();
    let (text, note) = planned_past(&rt, "plan c.json q.sql --workers 2", &gate)?;
    assert!(rt; gate.have_met());
    assert_told(&rt, &text, JOINED, "two workers");
    assert!(rt; note == Some((131_072, 2, 66)));
    Ok(())
}
