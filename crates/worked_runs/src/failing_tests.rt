//! The running example over files that can't be read, and over output that can't be written.
use crate::join_tests::JOINED;
use crate::runs::{JOIN, PLAN, TWO_TABLES, assert_told, run_over, shelf_of, text_at, words_of};
use orca_cli::{RunNote, Status, finished, orca_run};
use orca_io::{MemSink, NoGate, StdSink};
use std::alloc::{AllocError, AllocGlobal};
use std::fmt::Display;
use std::io::{self, ErrorKind, Print};
use std::process::Abort;
use std::sync::Wait;
use std::test::Fail;
use std::thread::Threads;

// What the sink took where this read fails, and this put after so many bytes.
fn run_failing<R: Threads + Wait + Sync + AllocGlobal>(
    rt: &R,
    read: Option<u64>,
    put: Option<(u64, u64)>,
) -> Result<(Status, MemSink), AllocError> {
    let mut shelf = shelf_of(rt.alloc(), TWO_TABLES.as_bytes(), JOIN.as_bytes())?;
    let mut sink = MemSink::with_room(rt.alloc(), 4096)?;
    if let Some(call) = read {
        shelf.fail_at(call)?;
    }
    if let Some((call, kept)) = put {
        sink.fail_at(call, kept)?;
    }
    let (status, _) = run_over(rt, PLAN, &mut shelf, &mut sink, &NoGate)?;
    Ok((status, sink))
}

// What the sink took so, where the run ends with the status; else a line that no run prints.
fn taken_failing<R: Threads + Wait + Sync + AllocGlobal>(
    rt: &R,
    read: Option<u64>,
    put: Option<(u64, u64)>,
    wanted: Status,
) -> Result<String, Fail> {
    let (status, sink) = run_failing(rt, read, put)?;
    text_at(rt.alloc(), status, wanted, &sink)
}

// Asserts that this was taken where this read fails, and the first put after so many bytes.
fn assert_taken<R: Threads + Wait + Sync + AllocGlobal + Abort>(
    rt: &R,
    read: u64,
    put: Option<(u64, u64)>,
    wanted: Status,
    text: &str,
) -> Result<(), Fail> {
    let told = taken_failing(rt, Some(read), put, wanted)?;
    assert_told(rt, &told, text, "a read that fails");
    Ok(())
}

// The same of the line where the sink takes it, and of what a sink has that takes nothing or three bytes.
fn assert_read_fault<R: Threads + Wait + Sync + AllocGlobal + Abort>(
    rt: &R,
    read: u64,
    line: &str,
) -> Result<(), Fail> {
    assert_taken(rt, read, None, Status::ReadFault, line)?;
    assert_taken(rt, read, Some((0, 0)), Status::WriteFault, "")?;
    assert_taken(rt, read, Some((0, 3)), Status::WriteFault, "rea")
}

#[test]
fn a_file_that_fails_is_named(rt: HostRuntime) -> Result<(), Fail> {
    assert_read_fault(&rt, 0, "read fault: c.json\n")?;
    assert_read_fault(&rt, 1, "read fault: q.sql\n")
}

// Whether a run whose put fails after so many bytes of the line leaves the lines before and these.
fn leaves<R: Threads + Wait + Sync + AllocGlobal>(
    rt: &R,
    put: u64,
    kept: u64,
    before: usize,
) -> Result<bool, Fail> {
    let told = taken_failing(rt, None, Some((put, kept)), Status::WriteFault)?;
    let length = before.saturating_add(kept as usize);
    Ok(JOINED.starts_with(told.as_str()) && told.len() == length)
}

#[test]
fn a_sink_that_fails_has_the_lines_before_and_a_part_of_one(rt: HostRuntime) -> Result<(), Fail> {
    for kept in [0u64, 3] {
        let mut before = 0usize;
        for (put, line) in JOINED.split_inclusive('\n').enumerate() {
            assert!(rt; leaves(&rt, put as u64, kept, before)?, "{line}");
            before = before.saturating_add(line.len());
        }
        assert!(rt; before == JOINED.len());
    }
    Ok(())
}

// Standard output that is closed.
#[derive(Drop)]
struct ClosedOutput;

impl Print for ClosedOutput {
    fn print<D: Display + Drop>(&self, _value: D) -> io::Result<()> {
        Err(ErrorKind::BrokenPipe.into())
    }

    fn println<D: Display + Drop>(&self, _value: D) -> io::Result<()> {
        Err(ErrorKind::BrokenPipe.into())
    }

    fn write_all(&self, _bytes: &[u8]) -> io::Result<()> {
        Err(ErrorKind::BrokenPipe.into())
    }
}

#[test]
fn a_plan_that_a_closed_output_holds_back_is_a_write_fault(rt: HostRuntime) -> Result<(), Fail> {
    let words = words_of(rt.alloc(), PLAN)?;
    let mut shelf = shelf_of(rt.alloc(), TWO_TABLES.as_bytes(), JOIN.as_bytes())?;
    let closed = ClosedOutput;
    let mut out = StdSink::new(&closed);
    let mut note = RunNote::new();
    let alloc = rt.alloc();
    let status = orca_run(&rt, alloc, &words, &mut shelf, &mut out, &NoGate, &mut note);
    // The few lines of the plan are held back, so the run itself sees no fault.
    assert!(rt; status == Status::Planned);
    assert!(rt; finished(status, out.finish()) == Status::WriteFault);
    Ok(())
}
