//! Searches of a query from beginning to end. What a board costs is mostly the touching of its memory, so a search
//! begins on one with as many cells as a query like this usually needs, and is made again on one of the whole capacity
//! where that was too small.
#![tactic(auto)]

ghost use Rattle.std.specs.Prelude.{◌≡◌, ◌≤◌, ◌^◌, IfOk, OnErr, true};
ghost use Rattle.request_props.specs.Numbered.{IsProps};
ghost use Rattle.job_outcome.specs.Outcomes.{IsDoneCase};
ghost use Rattle.job_engine.specs.Runs.{RunEnds, IsNoted, IsRun, IsRunWithin};

use crate::engine::Engine;
use crate::note::RunNote;
use crate::runs::{run_alone, run_crew};
use job_outcome::Outcome;
use orca_io::Gate;
use query_core::{KEYS, Key, Query};
use request_props::Props;
use std::alloc::{AllocError, Global};
use std::sync::Wait;
use std::thread::Threads;

// A board has a quarter more cells than members and goals are expected, and at least so many more. With too few cells
// the search is made again; each cell too many is filled and read, and with few free ones a word is looked for in many
// places.
const LEAST_FREE: usize = 128;

/// Searches by one worker on a board of at most `capacity` cells. It returns. The note is that of the run which gave
/// the outcome.
pub fn search_alone(
    alloc: Global,
    query: &Query,
    props: &Props,
    capacity: u32,
    note: &mut RunNote,
) -> Result<Outcome, AllocError>
    requires props { IsProps query.now props.now }
    requires capacity { (1 ≤ capacity) × (capacity ≤ 2 ^ 20) }
    ensures ends { IfOk result (RunEnds query.now capacity 1) }
    ensures noted { IfOk result (λ outcome. IsNoted capacity 1 outcome note.new) }
    ensures run { IfOk result (λ outcome. IsRunWithin query.now capacity 1 outcome note.new) }
    ensures err { OnErr result (note.new ≡ note.old) }
{
    let cells = usual_cells(query, props, capacity);
    if cells < capacity {
        let (outcome, filled) = run_alone_on(alloc, query, props, cells, capacity)?;
        if is_done(&outcome) {
            *note = filled;
            return Ok(outcome);
        }
    }
    let (engine, worker) = Engine::start(alloc, query, props, capacity)?;
    Ok(run_alone(engine, worker, note))
}

/// Searches by n workers on a board of at most `capacity` cells. Each worker is in a thread of its own, which passes the
/// gate before each of its steps. A search that is made again on a larger board is a second run, in which each worker's
/// turns at the gate begin at 0 again. It may wait. The note is that of the run which gave the outcome.
pub fn search_by_crew<W: Threads + Wait + Sync, G: Gate>(
    rt: &W,
    alloc: Global,
    query: &Query,
    props: &Props,
    capacity: u32,
    n: u32,
    gate: &G,
    note: &mut RunNote,
) -> Result<Outcome, AllocError>
    requires props { IsProps query.now props.now }
    requires capacity { (1 ≤ capacity) × (capacity ≤ 2 ^ 20) }
    requires workers { (1 ≤ n) × (n ≤ 64) }
    ensures ends { IfOk result (RunEnds query.now capacity n) }
    ensures noted { IfOk result (λ outcome. IsNoted capacity n outcome note.new) }
    ensures run { IfOk result (λ outcome. IsRunWithin query.now capacity n outcome note.new) }
    ensures err { OnErr result (note.new ≡ note.old) }
{
    let cells = usual_cells(query, props, capacity);
    if cells < capacity {
        let (outcome, filled) = run_crew_on(rt, alloc, query, props, cells, capacity, n, gate)?;
        if is_done(&outcome) {
            *note = filled;
            return Ok(outcome);
        }
    }
    let (engine, worker) = Engine::start(alloc, query, props, capacity)?;
    run_crew(rt, alloc, engine, worker, n, gate, note)
}

// How many cells a search of such a query usually wants.
fn usual_cells(query: &Query, props: &Props, capacity: u32) -> u32
    requires props { IsProps query.now props.now }
    requires some { 1 ≤ capacity }
    ensures { (1 ≤ result) × (result ≤ capacity) }
{
    let entries = expected_entries(query, props);
    let usual = entries
        .saturating_add(entries / 4)
        .saturating_add(LEAST_FREE);
    if usual < capacity as usize {
        usual as u32
    } else {
        capacity
    }
}

// How many members and goals are expected of such a query.
fn expected_entries(query: &Query, props: &Props) -> usize
    requires { IsProps query.now props.now }
{
    let mut entries = 0usize;
    for number in 0..KEYS {
        entries = entries.saturating_add(expected_in(query, props, Key(number)));
    }
    entries
}

// The same of the group of this key, if there is one: where h of its columns are equated with columns outside it, each
// of its expressions has four goals, three more for every two of these columns, and one for every two columns of GROUP
// BY, and the group has one for each of 1 + h orders in each of 3 + h distributions. Measured: of some 2,000 queries
// over 2 to 8 tables (chains, stars, snowflakes, other trees, cycles and cliques, with several equalities of two
// tables, filters, groupings, orders, hashed tables and indexes) none had 7 of 100 more than this.
fn expected_in(query: &Query, props: &Props, key: Key) -> usize
    requires { IsProps query.now props.now }
{
    if !props.is_key(query, key) {
        return 0;
    }
    let group = query.group(key);
    let expressions = props.candidates_of(query, group).len();
    let outer = props.outer_columns(query, group);
    let halves = outer
        .saturating_mul(3)
        .saturating_add(query.group_by.len())
        .saturating_add(8);
    let requests = outer
        .saturating_add(3)
        .saturating_mul(outer.saturating_add(1));
    (expressions.saturating_mul(halves) / 2).saturating_add(requests)
}

// A run by one worker on a board of `cells` cells, with its note.
fn run_alone_on(
    alloc: Global,
    query: &Query,
    props: &Props,
    cells: u32,
    capacity: u32,
) -> Result<(Outcome, RunNote), AllocError>
    requires props { IsProps query.now props.now }
    requires cells { (1 ≤ cells) × (cells ≤ 2 ^ 20) }
    ensures ends { IfOk result (λ made. RunEnds query.now cells 1 made.0) }
    ensures noted { IfOk result (λ made. IsNoted capacity 1 made.0 made.1) }
    ensures run { IfOk result (λ made. IsRun query.now cells capacity 1 made.0 made.1) }
{
    let mut note = RunNote::new();
    let (engine, worker) = Engine::start_on(alloc, query, props, cells, capacity)?;
    let outcome = run_alone(engine, worker, &mut note);
    Ok((outcome, note))
}

// The same by n workers.
fn run_crew_on<W: Threads + Wait + Sync, G: Gate>(
    rt: &W,
    alloc: Global,
    query: &Query,
    props: &Props,
    cells: u32,
    capacity: u32,
    n: u32,
    gate: &G,
) -> Result<(Outcome, RunNote), AllocError>
    requires props { IsProps query.now props.now }
    requires cells { (1 ≤ cells) × (cells ≤ 2 ^ 20) }
    requires workers { (1 ≤ n) × (n ≤ 64) }
    ensures ends { IfOk result (λ made. RunEnds query.now cells n made.0) }
    ensures noted { IfOk result (λ made. IsNoted capacity n made.0 made.1) }
    ensures run { IfOk result (λ made. IsRun query.now cells capacity n made.0 made.1) }
{
    let mut note = RunNote::new();
    let (engine, worker) = Engine::start_on(alloc, query, props, cells, capacity)?;
    let outcome = run_crew(rt, alloc, engine, worker, n, gate, &mut note)?;
    Ok((outcome, note))
}

// Whether all goals are finished, which a run of the whole capacity finishes alike.
fn is_done(outcome: &Outcome) -> bool
    ensures { result ≡ true → IsDoneCase outcome.now }
{
    match outcome {
        Outcome::Done(_) => true,
        Outcome::Full { .. } => false,
        Outcome::Unfinished { .. } => false,
    }
}
