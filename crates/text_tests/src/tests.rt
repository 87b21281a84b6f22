//! The plan of two tables that are joined by an equality, printed and then changed by hand.

use std::alloc::Global;
use std::process::Abort;
use std::test::Fail;
use text_check::{TextFault, check_text};
use worked_queries::{implied, two_tables};

const HEAD: &str = "cost 7506\noutput T1.a\n";

const MERGE: &str = "GatherMerge(T1.a) rows=1000 cost=3001\n";

const SORT: &str = "  Sort(T1.a) rows=1000 cost=2001\n";

const JOIN: &str = "    HashJoin(colocated p0) rows=1000 cost=1001\n";

const SCAN: &str = "      Scan(T1) rows=1000 cost=251\n";

const MOVED: &str =
    "      Redistribute(T2.b) rows=1000 cost=1001\n        Scan(T2) rows=1000 cost=251\n";

// The lines under the merge, one level up.
const JOINED: &str = "  HashJoin(colocated p0) rows=1000 cost=1001
    Scan(T1) rows=1000 cost=251
    Redistribute(T2.b) rows=1000 cost=1001
      Scan(T2) rows=1000 cost=251
";

// A plan whose sorts nest 995 deep begins with these lines.
const DEEP_HEAD: &str = "cost 1996500\noutput T1.a\nGatherMerge(T1.a) rows=1000 cost=3001\n";

// Adds a line at this level.
fn push_line(text: &mut Vec<u8>, level: u32, line: &str) -> Result<(), Fail> {
    for _ in 0..level {
        text.extend_from_slice(b"  ")?;
    }
    text.extend_from_slice(line.as_bytes())?;
    Ok(())
}

// What is said of a text of these lines.
fn said(alloc: Global, lines: &[&str]) -> Result<Result<u64, TextFault>, Fail> {
    let (query, props) = implied(alloc, two_tables(alloc)?)?;
    let mut text = Vec::new(alloc);
    for line in lines {
        text.extend_from_slice(line.as_bytes())?;
    }
    Ok(check_text(alloc, &query, &props, text.as_slice()))
}

#[test]
fn a_plan_has_its_cost_with_either_side_first(rt: HostRuntime) -> Result<(), Fail> {
    let alloc = rt.alloc();
    let least = said(alloc, &[HEAD, MERGE, SORT, JOIN, SCAN, MOVED])?;
    assert!(rt; least == Ok(7506));
    let turned = said(alloc, &[HEAD, MERGE, SORT, JOIN, MOVED, SCAN])?;
    assert!(rt; turned == Ok(7506));
    Ok(())
}

#[test]
fn a_text_that_is_no_plan_is_refused_at_its_line(rt: HostRuntime) -> Result<(), Fail> {
    let alloc = rt.alloc();
    let not_moved = "      Scan(T2) rows=1000 cost=251\n";
    let over_nothing = "      Redistribute(T2.b) rows=1000 cost=1001\n";
    let sorted = "Sort(T1.a) rows=1000 cost=2001\n";
    let other_rows = "    HashJoin(colocated p0) rows=1001 cost=1001\n";
    let other_cost = "      Scan(T1) rows=1000 cost=252\n";
    let other_column = "  Sort(T2.a) rows=1000 cost=2001\n";
    let other_total = "cost 7507\noutput T1.a\n";
    let cases: [([&str; 6], TextFault); 10] = [
        (
            ["no plan\n", "", "", "", "", ""],
            TextFault::Form { line: 0 },
        ),
        ([HEAD, "", "", "", "", ""], TextFault::Form { line: 2 }),
        (
            [HEAD, MERGE, other_column, JOIN, SCAN, MOVED],
            TextFault::Form { line: 3 },
        ),
        (
            [HEAD, MERGE, SORT, JOIN, SCAN, over_nothing],
            TextFault::Kids { line: 6 },
        ),
        (
            [HEAD, MERGE, JOINED, "", "", ""],
            TextFault::Needs { line: 2 },
        ),
        (
            [HEAD, MERGE, SORT, JOIN, SCAN, not_moved],
            TextFault::Needs { line: 4 },
        ),
        ([HEAD, sorted, JOINED, "", "", ""], TextFault::Request),
        (
            [other_total, MERGE, SORT, JOIN, SCAN, MOVED],
            TextFault::Number { line: 0 },
        ),
        (
            [HEAD, MERGE, SORT, other_rows, SCAN, MOVED],
            TextFault::Number { line: 4 },
        ),
        (
            [HEAD, MERGE, SORT, JOIN, other_cost, MOVED],
            TextFault::Number { line: 5 },
        ),
    ];
    for (lines, fault) in &cases {
        let found = said(alloc, lines)?;
        assert!(rt; found == Err(*fault));
    }
    Ok(())
}

#[test]
fn a_plan_of_a_thousand_nodes_has_its_cost(rt: HostRuntime) -> Result<(), Fail> {
    let alloc = rt.alloc();
    let (query, props) = implied(alloc, two_tables(alloc)?)?;
    let mut text = Vec::new(alloc);
    text.extend_from_slice(DEEP_HEAD.as_bytes())?;
    for level in 1..996 {
        push_line(&mut text, level, "Sort(T1.a) rows=1000 cost=2001\n")?;
    }
    push_line(
        &mut text,
        996,
        "HashJoin(colocated p0) rows=1000 cost=1001\n",
    )?;
    push_line(&mut text, 997, "Scan(T1) rows=1000 cost=251\n")?;
    push_line(&mut text, 997, "Redistribute(T2.b) rows=1000 cost=1001\n")?;
    push_line(&mut text, 998, "Scan(T2) rows=1000 cost=251\n")?;
    assert!(rt; text.len() == 1030042);
    let found = check_text(alloc, &query, &props, text.as_slice());
    assert!(rt; found == Ok(1996500));
    Ok(())
}
