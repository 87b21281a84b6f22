//! Stages of a join of two tables, by one worker and by eight.

ghost use Rattle.std.specs.Prelude.{◌≤◌, ◌^◌, length};
ghost use Rattle.request_props.specs.Numbered.{IsProps};

use orca_io::{Gate, NoGate};
use plan_report::plan_text;
use plan_tree::Found;
use query_core::Query;
use request_props::Props;
use stage_plan::{Stage, Staged, StagedRun, run_stages};
use std::alloc::{AllocError, Global};
use std::sync::Wait;
use std::test::Fail;
use std::thread::Threads;
use test_gates::MeetingGate;
use worked_queries::{implied, two_tables};

// JoinToHash alone, with JoinToMerge, and all three rules that implement joins.
const HASH: u32 = 1 << 9;

const HASH_AND_MERGE: u32 = 1 << 9 | 1 << 10;

const ALL_JOINS: u32 = 1 << 9 | 1 << 10 | 1 << 11;

const HASH_JOIN: &str = "cost 7506
output T1.a
GatherMerge(T1.a) rows=1000 cost=3001
  Sort(T1.a) rows=1000 cost=2001
    HashJoin(colocated p0) rows=1000 cost=1001
      Scan(T1) rows=1000 cost=251
      Redistribute(T2.b) rows=1000 cost=1001
        Scan(T2) rows=1000 cost=251
";

const LOOP_JOIN: &str = "cost 259506
output T1.a
GatherMerge(T1.a) rows=1000 cost=3001
  Sort(T1.a) rows=1000 cost=2001
    LoopJoin(copied) rows=1000 cost=250001
      Scan(T1) rows=1000 cost=251
      Broadcast rows=1000 cost=4001
        Scan(T2) rows=1000 cost=251
";

// A stage with nothing off, if its plan isn't below a cost.
fn all(threshold: Option<u64>) -> Stage {
    Stage { off: 0, threshold }
}

// A line for the cost of each stage that ran.
fn cost_lines(alloc: Global, ran: &[Option<u64>]) -> Result<String, AllocError> {
    let mut text = String::new(alloc);
    for cost in ran {
        match cost {
            Some(cost) => text.push_str(&format!(in alloc; "cost {cost}\n")?)?,
            None => text.push_str("no plan\n")?,
        }
    }
    Ok(text)
}

// The plan's stage and its text, or why there is no plan.
fn answer_lines(
    alloc: Global,
    query: &Query,
    props: &Props,
    found: Staged,
) -> Result<Vec<u8>, AllocError>
    requires { IsProps query.now props.now }
{
    match found {
        Staged::Least { stage, plan, cost } => {
            let first = format!(in alloc; "stage {stage}\n")?;
            let mut text = first.as_bytes().to_vec(alloc)?;
            let lines = plan_text(alloc, query, props, &Found::Least { plan, cost })?;
            text.extend_from_slice(lines.as_slice())?;
            Ok(text)
        }
        Staged::NoPlan => "none\n".as_bytes().to_vec(alloc),
        Staged::Full { stage } => {
            let text = format!(in alloc; "full {stage}\n")?;
            text.as_bytes().to_vec(alloc)
        }
    }
}

// The costs, and the answer.
fn told(alloc: Global, query: &Query, props: &Props, run: StagedRun) -> Result<Vec<u8>, AllocError>
    requires { IsProps query.now props.now }
{
    let StagedRun { found, ran } = run;
    let costs = cost_lines(alloc, ran.as_slice())?;
    let answer = answer_lines(alloc, query, props, found)?;
    let mut text = costs.as_bytes().to_vec(alloc)?;
    text.extend_from_slice(answer.as_slice())?;
    Ok(text)
}

// The same of the two tables, planned in these stages.
fn planned<R: Threads + Wait + Sync, G: Gate>(
    rt: &R,
    alloc: Global,
    stages: &[Stage],
    capacity: u32,
    workers: u32,
    gate: &G,
) -> Result<Vec<u8>, Fail>
    requires stages { (1 ≤ length stages.now) × (length stages.now ≤ 8) }
    requires capacity { (1 ≤ capacity) × (capacity ≤ 2 ^ 20) }
    requires workers { (1 ≤ workers) × (workers ≤ 64) }
{
    let (query, props) = implied(alloc, two_tables(alloc)?)?;
    let mut query = query;
    let run = run_stages(
        rt, alloc, &mut query, &props, stages, capacity, workers, gate,
    )?;
    Ok(told(alloc, &query, &props, run)?)
}

// Whether one worker and eight tell this of the stages.
fn tell<R: Threads + Wait + Sync>(
    rt: &R,
    alloc: Global,
    stages: &[Stage],
    capacity: u32,
    lines: &str,
    plan: &str,
) -> Result<bool, Fail>
    requires stages { (1 ≤ length stages.now) × (length stages.now ≤ 8) }
    requires capacity { (1 ≤ capacity) × (capacity ≤ 2 ^ 20) }
{
    let wanted = format!(in alloc; "{lines}{plan}")?;
    let alone = planned(rt, alloc, stages, capacity, 1, &NoGate)?;
    let by_eight = planned(rt, alloc, stages, capacity, 8, &NoGate)?;
    Ok(alone.as_slice() == wanted.as_bytes() && by_eight.as_slice() == wanted.as_bytes())
}

#[test]
fn a_stage_that_is_not_enough_is_followed_by_the_next(rt: HostRuntime) -> Result<(), Fail> {
    let stages = [
        Stage {
            off: HASH_AND_MERGE,
            threshold: Some(7000),
        },
        all(None),
    ];
    let lines = "cost 259506\ncost 7506\nstage 1\n";
    assert!(rt; tell(&rt, rt.alloc(), &stages, 131_072, lines, HASH_JOIN)?);
    Ok(())
}

#[test]
fn a_stage_that_is_enough_is_the_last(rt: HostRuntime) -> Result<(), Fail> {
    let stages = [
        Stage {
            off: HASH_AND_MERGE,
            threshold: Some(300_000),
        },
        all(None),
    ];
    let lines = "cost 259506\nstage 0\n";
    assert!(rt; tell(&rt, rt.alloc(), &stages, 131_072, lines, LOOP_JOIN)?);
    Ok(())
}

#[test]
fn a_cost_at_the_threshold_is_not_enough(rt: HostRuntime) -> Result<(), Fail> {
    let stages = [
        all(Some(7506)),
        Stage {
            off: HASH,
            threshold: None,
        },
    ];
    let lines = "cost 7506\ncost 9257\nstage 0\n";
    assert!(rt; tell(&rt, rt.alloc(), &stages, 131_072, lines, HASH_JOIN)?);
    Ok(())
}

#[test]
fn of_two_stages_with_the_least_plan_the_first_is_told(rt: HostRuntime) -> Result<(), Fail> {
    let stages = [
        Stage {
            off: HASH_AND_MERGE,
            threshold: None,
        },
        all(None),
        all(None),
    ];
    let lines = "cost 259506\ncost 7506\ncost 7506\nstage 1\n";
    assert!(rt; tell(&rt, rt.alloc(), &stages, 131_072, lines, HASH_JOIN)?);
    Ok(())
}

#[test]
fn a_stage_without_a_plan_has_no_cost(rt: HostRuntime) -> Result<(), Fail> {
    let stages = [Stage {
        off: ALL_JOINS,
        threshold: None,
    }];
    assert!(rt; tell(&rt, rt.alloc(), &stages, 131_072, "no plan\nnone\n", "")?);
    Ok(())
}

#[test]
fn a_stage_with_too_many_entries_ends_all(rt: HostRuntime) -> Result<(), Fail> {
    let first = Stage {
        off: ALL_JOINS,
        threshold: None,
    };
    assert!(rt; tell(&rt, rt.alloc(), &[all(None)], 78, "full 0\n", "")?);
    assert!(rt;
        tell(
            &rt,
            rt.alloc(),
            &[first, all(None), first],
            78,
            "no plan\nfull 1\n",
            ""
        )?
    );
    Ok(())
}

#[test]
fn two_workers_of_a_stage_meet(rt: HostRuntime) -> Result<(), Fail> {
    let gate = MeetingGate::new();
    let text = planned(&rt, rt.alloc(), &[all(None)], 131_072, 2, &gate)?;
    assert!(rt; text.as_slice().ends_with(HASH_JOIN.as_bytes()));
    assert!(rt; gate.have_met());
    Ok(())
}
