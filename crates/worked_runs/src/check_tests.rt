//! What is said of the text of a plan that is given.
use crate::runs::{JOIN, TWO_TABLES, assert_told, run_over, shelf_of, text_at};
use orca_cli::Status;
use orca_io::{MemSink, NoGate};
use std::alloc::AllocGlobal;
use std::process::Abort;
use std::sync::Wait;
use std::test::Fail;
use std::thread::Threads;

const CHECK: &str = "check c.json q.sql plan";

// Lines of the plan of the running example.
const HEAD: &str = "cost 7506\noutput T1.a\n";

const MERGE: &str = "GatherMerge(T1.a) rows=1000 cost=3001\n";

const SORT: &str = "  Sort(T1.a) rows=1000 cost=2001\n";

const JOINED: &str = "    HashJoin(colocated p0) rows=1000 cost=1001\n";

const SCAN: &str = "      Scan(T1) rows=1000 cost=251\n";

const MOVED: &str =
    "      Redistribute(T2.b) rows=1000 cost=1001\n        Scan(T2) rows=1000 cost=251\n";

// The lines below the sort, one level up.
const UNSORTED: &str = "  HashJoin(colocated p0) rows=1000 cost=1001
    Scan(T1) rows=1000 cost=251
    Redistribute(T2.b) rows=1000 cost=1001
      Scan(T2) rows=1000 cost=251
";

// Asserts that the words of a line say this, with the status, where these lines are the plan's text.
fn assert_said<R: Threads + Wait + Sync + AllocGlobal + Abort>(
    rt: &R,
    line: &str,
    lines: &[&str],
    status: Status,
    said: &str,
) -> Result<(), Fail> {
    let alloc = rt.alloc();
    let text = lines.concat(alloc)?;
    let mut shelf = shelf_of(alloc, TWO_TABLES.as_bytes(), JOIN.as_bytes())?;
    shelf.put_file("plan", text.as_bytes())?;
    let mut sink = MemSink::with_room(alloc, 1 << 20)?;
    let (ended, _) = run_over(rt, line, &mut shelf, &mut sink, &NoGate)?;
    let told = text_at(alloc, ended, status, &sink)?;
    let wanted = [said, "\n"].concat(alloc)?;
    assert_told(rt, &told, &wanted, &text);
    Ok(())
}

#[test]
fn a_plan_is_told_with_its_cost(rt: HostRuntime) -> Result<(), Fail> {
    let least = [HEAD, MERGE, SORT, JOINED, SCAN, MOVED];
    assert_said(&rt, CHECK, &least, Status::Planned, "valid cost 7506")
}

#[test]
fn a_plan_with_its_sides_exchanged_wants_the_rule(rt: HostRuntime) -> Result<(), Fail> {
    let exchanged = [HEAD, MERGE, SORT, JOINED, MOVED, SCAN];
    assert_said(&rt, CHECK, &exchanged, Status::Planned, "valid cost 7506")?;
    let off = "check c.json q.sql plan --off JoinCommute";
    let refused = "plan refused: member at line 4";
    assert_said(&rt, off, &exchanged, Status::PlanRefused, refused)
}

#[test]
fn a_text_that_is_no_plan_is_refused_at_its_line(rt: HostRuntime) -> Result<(), Fail> {
    let not_moved = "      Scan(T2) rows=1000 cost=251\n";
    let over_nothing = "      Redistribute(T2.b) rows=1000 cost=1001\n";
    let sorted = "Sort(T1.a) rows=1000 cost=2001\n";
    let other_total = "cost 7507\noutput T1.a\n";
    let other_rows = "    HashJoin(colocated p0) rows=1001 cost=1001\n";
    let cases: [([&str; 6], &str); 9] = [
        (["no plan\n", "", "", "", "", ""], "form at line 0"),
        ([HEAD, "", "", "", "", ""], "form at line 2"),
        (
            [
                HEAD,
                MERGE,
                "   Sort(T1.a) rows=1000 cost=2001\n",
                JOINED,
                SCAN,
                MOVED,
            ],
            "form at line 3",
        ),
        (
            [HEAD, MERGE, SORT, JOINED, SCAN, over_nothing],
            "kids at line 6",
        ),
        ([HEAD, MERGE, UNSORTED, "", "", ""], "needs at line 2"),
        (
            [HEAD, MERGE, SORT, JOINED, SCAN, not_moved],
            "needs at line 4",
        ),
        ([HEAD, sorted, UNSORTED, "", "", ""], "root request"),
        (
            [other_total, MERGE, SORT, JOINED, SCAN, MOVED],
            "number at line 0",
        ),
        (
            [HEAD, MERGE, SORT, other_rows, SCAN, MOVED],
            "number at line 4",
        ),
    ];
    for (lines, cause) in &cases {
        let refused = ["plan refused: ", *cause].concat(rt.alloc())?;
        assert_said(&rt, CHECK, lines, Status::PlanRefused, &refused)?;
    }
    Ok(())
}

#[test]
fn a_text_of_many_lines_or_bytes_is_too_large(rt: HostRuntime) -> Result<(), Fail> {
    let alloc = rt.alloc();
    let mut scans = Vec::new(alloc);
    for _ in 0..1001 {
        scans.extend_from_slice(b"  Scan(T1) rows=1000 cost=251\n")?;
    }
    let scans = str::from_utf8(scans.as_slice())?;
    let many = [HEAD, MERGE, scans];
    let large = "plan refused: too large: 1002";
    assert_said(&rt, CHECK, &many, Status::PlanRefused, large)?;
    let long = [0u8; 1].as_slice();
    let mut bytes = Vec::new(alloc);
    for _ in 0..1_048_577 {
        bytes.extend_from_slice(long)?;
    }
    let bytes = str::from_utf8(bytes.as_slice())?;
    assert_said(
        &rt,
        CHECK,
        &[bytes],
        Status::PlanRefused,
        "plan refused: too long",
    )
}

#[test]
fn a_plan_that_is_not_there_is_a_read_fault(rt: HostRuntime) -> Result<(), Fail> {
    let line = "check c.json q.sql other";
    assert_said(&rt, line, &[HEAD], Status::ReadFault, "read fault: other")
}
