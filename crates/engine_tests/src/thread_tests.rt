//! Two workers of a host in threads of their own, without a crew: neither waits for the other.

ghost use Rattle.std.specs.Prelude.{◌≡◌, ℕ};
ghost use Rattle.request_props.specs.Numbered.{IsProps};
ghost use Rattle.goal_board.specs.Seats.{hands};
ghost use Rattle.job_engine.specs.Searching.{IsWorker};

use crate::run_tests::{find_alone, found_alike};
use crate::turn_tests::step_until_end;
use job_engine::{Engine, Outcome, Rules, RunNote, Stepped, Worker};
use query_core::Query;
use request_props::Props;
use std::alloc::{AllocError, Global};
use std::test::Fail;
use std::thread;
use std::thread::Threads;
use worked_queries::{implied, two_tables};

// What workers search. It stands for an engine where threads share it, since a closure can't name both its lifetimes.
trait Search {
    type Worker: Send + Drop;

    ghost is_worker: { Self → Self.Worker → Type 0 };

    ghost parts_of: { Self.Worker → ℕ };

    // Steps ten thousand times, or until the end.
    fn work(&self, worker: Self::Worker) -> Self::Worker
        requires { is_worker self.now worker }
        ensures its { is_worker self.now result }
        ensures parts { parts_of result ≡ parts_of worker };
}

impl<'q> Search for Engine<'q> {
    type Worker = Worker<Rules<'q>>;

    ghost is_worker = { λ engine worker. IsWorker engine worker };

    ghost parts_of = { λ worker. (hands worker.seat).parts };

    fn work(&self, worker: Worker<Rules<'q>>) -> Worker<Rules<'q>> {
        let mut worker = worker;
        step_until_end(self, &mut worker, 10_000);
        worker
    }
}

// Both work, each in a thread of its own.
fn work_by_two<S: Search + Sync>(
    rt: &impl Threads,
    search: &S,
    first: S::Worker,
    second: S::Worker,
) -> (S::Worker, S::Worker)
    requires first { S.is_worker search.now first }
    requires second { S.is_worker search.now second }
    ensures first { S.is_worker search.now result.0 }
    ensures second { S.is_worker search.now result.1 }
    ensures first_parts { S.parts_of result.0 ≡ S.parts_of first }
    ensures second_parts { S.parts_of result.1 ≡ S.parts_of second }
{
    thread::join(
        rt,
        ||
            requires { S.is_worker search.now first }
        { search.work(first) },
        ||
            requires { S.is_worker search.now second }
        { search.work(second) },
    )
}

// Both work in threads, and then the first one alone until the end. Says which end it is told, and what the board held.
fn search_by_two(
    rt: &impl Threads,
    alloc: Global,
    query: &Query,
    props: &Props,
) -> Result<(Option<Stepped>, Outcome), AllocError>
    requires { IsProps query.now props.now }
{
    let (engine, mut first) = Engine::start(alloc, query, props, 79)?;
    let second = engine.split(alloc, &mut first, 1)?;
    let (mut first, second) = work_by_two(rt, &engine, first, second);
    let told = step_until_end(&engine, &mut first, 100_000);
    engine.join(&mut first, second);
    Ok((told, engine.close(first)))
}

// Whether the two come to the end, and find what one worker finds.
fn end_as_alone(
    rt: &impl Threads,
    alloc: Global,
    query: &Query,
    props: &Props,
    alone: &Outcome,
) -> Result<bool, AllocError>
    requires { IsProps query.now props.now }
{
    let (told, outcome) = search_by_two(rt, alloc, query, props)?;
    Ok(told == Some(Stepped::Done) && found_alike(alloc, alone, &outcome)?)
}

#[test]
fn two_workers_in_threads_of_a_host_find_what_one_finds(rt: HostRuntime) -> Result<(), Fail> {
    let (query, props) = implied(rt.alloc(), two_tables(rt.alloc())?)?;
    let alone = find_alone(rt.alloc(), &query, &props, 79, &mut RunNote::new())?;
    for number in 0..20 {
        assert!(rt;
            end_as_alone(&rt, rt.alloc(), &query, &props, &alone)?,
            "{number}"
        );
    }
    Ok(())
}
