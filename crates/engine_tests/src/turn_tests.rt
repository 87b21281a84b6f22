//! Three workers on one thread, which step in drawn orders: the search of the running example has 79 entries.

ghost use Rattle.std.specs.Prelude.{◌≡◌, ◌≤◌, ◌<◌, ◌^◌};
ghost use Rattle.request_props.specs.Numbered.{IsProps};
ghost use Rattle.goal_board.specs.Seats.{hands};
ghost use Rattle.job_engine.specs.Searching.{IsWorker};

use crate::run_tests::{find_alone, found_alike};
use job_engine::{Engine, Outcome, Rules, RunNote, Stepped, Worker};
use query_core::Query;
use request_props::Props;
use std::alloc::{AllocError, Global};
use std::test::Fail;
use worked_queries::{implied, two_tables};

// Who steps.
#[derive(Clone, Copy)]
enum Turn {
    First,
    Second,
    Third,
}

// The order of steps that a number gives.
#[derive(Drop)]
struct Draws {
    last: u64,
}

impl Draws {
    fn next(&mut self) -> Turn {
        self.last = (75 * (self.last % 65_537) + 74) % 65_537;
        match self.last % 3 {
            0 => Turn::First,
            1 => Turn::Second,
            _ => Turn::Third,
        }
    }
}

fn is_end(stepped: Stepped) -> bool {
    match stepped {
        Stepped::Ran => false,
        Stepped::Idle => false,
        Stepped::Done => true,
        Stepped::Full => true,
    }
}

// A step of a worker, which keeps its parts.
fn step_of<'q>(engine: &Engine<'q>, worker: &mut Worker<Rules<'q>>) -> Stepped
    requires { IsWorker engine.now worker.old }
    ensures worker { IsWorker engine.now worker.new }
    ensures parts { (hands worker.new.seat).parts ≡ (hands worker.old.seat).parts }
{
    engine.step(worker)
}

// A step of one worker of three.
fn step_one<'q>(
    engine: &Engine<'q>,
    first: &mut Worker<Rules<'q>>,
    second: &mut Worker<Rules<'q>>,
    third: &mut Worker<Rules<'q>>,
    turn: Turn,
) -> Stepped
    requires first { IsWorker engine.now first.old }
    requires second { IsWorker engine.now second.old }
    requires third { IsWorker engine.now third.old }
    ensures first { IsWorker engine.now first.new }
    ensures second { IsWorker engine.now second.new }
    ensures third { IsWorker engine.now third.new }
    ensures first_parts { (hands first.new.seat).parts ≡ (hands first.old.seat).parts }
    ensures second_parts { (hands second.new.seat).parts ≡ (hands second.old.seat).parts }
    ensures third_parts { (hands third.new.seat).parts ≡ (hands third.old.seat).parts }
{
    match turn {
        Turn::First => step_of(engine, first),
        Turn::Second => step_of(engine, second),
        Turn::Third => step_of(engine, third),
    }
}

// Three workers step in an order that is drawn, until one of them is told that the search has ended.
fn step_by_draws<'q>(
    engine: &Engine<'q>,
    first: &mut Worker<Rules<'q>>,
    second: &mut Worker<Rules<'q>>,
    third: &mut Worker<Rules<'q>>,
    number: u64,
)
    requires first { IsWorker engine.now first.old }
    requires second { IsWorker engine.now second.old }
    requires third { IsWorker engine.now third.old }
    ensures first { IsWorker engine.now first.new }
    ensures second { IsWorker engine.now second.new }
    ensures third { IsWorker engine.now third.new }
    ensures first_parts { (hands first.new.seat).parts ≡ (hands first.old.seat).parts }
    ensures second_parts { (hands second.new.seat).parts ≡ (hands second.old.seat).parts }
    ensures third_parts { (hands third.new.seat).parts ≡ (hands third.old.seat).parts }
{
    let mut draws = Draws { last: number };
    for _turn in 0..100_000 {
        let turn = draws.next();
        let told = step_one(engine, first, second, third, turn);
        if is_end(told) {
            return;
        }
    }
}

// Says whether, where one of three workers was told the end, each is told the same, and what the board held.
fn search_by_draws(
    alloc: Global,
    query: &Query,
    props: &Props,
    capacity: u32,
    number: u64,
) -> Result<(bool, Outcome), AllocError>
    requires props { IsProps query.now props.now }
    requires capacity { (1 ≤ capacity) × (capacity ≤ 2 ^ 20) }
{
    let (engine, mut first) = Engine::start(alloc, query, props, capacity)?;
    let mut second = engine.split(alloc, &mut first, 1)?;
    let mut third = engine.split(alloc, &mut first, 2)?;
    step_by_draws(&engine, &mut first, &mut second, &mut third, number);
    let told = step_of(&engine, &mut first);
    let second_told = step_of(&engine, &mut second);
    let third_told = step_of(&engine, &mut third);
    let agree = is_end(told) && told == second_told && told == third_told;
    engine.join(&mut first, second);
    engine.join(&mut first, third);
    Ok((agree, engine.close(first)))
}

// The first worker steps so many times, then a second one once and never again, and then the first until the end.
fn search_past_one_step(
    alloc: Global,
    query: &Query,
    props: &Props,
    before: u32,
) -> Result<(Option<Stepped>, Outcome), AllocError>
    requires { IsProps query.now props.now }
{
    let (engine, mut first) = Engine::start(alloc, query, props, 79)?;
    let mut second = engine.split(alloc, &mut first, 1)?;
    step_until_end(&engine, &mut first, before);
    step_of(&engine, &mut second);
    let told = step_until_end(&engine, &mut first, 100_000);
    engine.join(&mut first, second);
    Ok((told, engine.close(first)))
}

/// The end that one worker is told within so many steps, if it is told one.
pub fn step_until_end<'q>(
    engine: &Engine<'q>,
    worker: &mut Worker<Rules<'q>>,
    most: u32,
) -> Option<Stepped>
    requires { IsWorker engine.now worker.old }
    ensures worker { IsWorker engine.now worker.new }
    ensures parts { (hands worker.new.seat).parts ≡ (hands worker.old.seat).parts }
{
    for _step in 0..most {
        let told = step_of(engine, worker);
        if is_end(told) {
            return Some(told);
        }
    }
    None
}

// Whether three workers agree, and find in 79 cells what one worker finds.
fn ends_as_alone(
    alloc: Global,
    query: &Query,
    props: &Props,
    alone: &Outcome,
    number: u64,
) -> Result<bool, AllocError>
    requires { IsProps query.now props.now }
{
    let (agree, outcome) = search_by_draws(alloc, query, props, 79, number)?;
    Ok(agree && found_alike(alloc, alone, &outcome)?)
}

// Whether three workers agree that 78 cells are full.
fn ends_full(alloc: Global, query: &Query, props: &Props, number: u64) -> Result<bool, AllocError>
    requires { IsProps query.now props.now }
{
    let (agree, outcome) = search_by_draws(alloc, query, props, 78, number)?;
    Ok(agree && matches!(&outcome, Outcome::Full { capacity: 78 }))
}

#[test]
fn a_hundred_orders_of_three_workers_end_alike(rt: HostRuntime) -> Result<(), Fail> {
    let (query, props) = implied(rt.alloc(), two_tables(rt.alloc())?)?;
    let alone = find_alone(rt.alloc(), &query, &props, 131_072, &mut RunNote::new())?;
    for number in 0..100 {
        assert!(rt;
            ends_as_alone(rt.alloc(), &query, &props, &alone, number)?,
            "{number}"
        );
        assert!(rt; ends_full(rt.alloc(), &query, &props, number)?, "{number}");
    }
    Ok(())
}

// Whether the first worker comes to the end and finds what it finds alone, where the second stops so.
fn ends_past_one_step(
    alloc: Global,
    query: &Query,
    props: &Props,
    alone: &Outcome,
    before: u32,
) -> Result<bool, AllocError>
    requires { IsProps query.now props.now }
{
    let (told, outcome) = search_past_one_step(alloc, query, props, before)?;
    Ok(told == Some(Stepped::Done) && found_alike(alloc, alone, &outcome)?)
}

#[test]
fn a_worker_that_stops_keeps_nobody_waiting(rt: HostRuntime) -> Result<(), Fail> {
    let (query, props) = implied(rt.alloc(), two_tables(rt.alloc())?)?;
    let alone = find_alone(rt.alloc(), &query, &props, 79, &mut RunNote::new())?;
    for before in 0..150 {
        assert!(rt;
            ends_past_one_step(rt.alloc(), &query, &props, &alone, before)?,
            "{before}"
        );
    }
    Ok(())
}
