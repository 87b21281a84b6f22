//! Words that are commands, and words that are none.

use command_line::*;
use query_core::{Options, RootDist};
use query_generator::GenShape;
use query_stage::Stage;
use std::alloc::{AllocError, Global};
use std::test::Fail;

// The words of a line, between single spaces.
fn words_of(alloc: Global, line: &str) -> Result<Vec<String>, AllocError> {
    let mut words = Vec::new(alloc);
    for word in line.split(' ') {
        words.push(String::from_str(alloc, word)?)?;
    }
    Ok(words)
}

// Whether the command plans the query of `q.sql` over the catalogue of `c.json`.
fn plans_the_files(command: &Command<'_>) -> bool {
    matches!(command.task, Task::Plan(files) if files.catalog == "c.json" && files.query == "q.sql")
}

fn has_each_option(command: &Command<'_>) -> bool {
    let settings = command.settings;
    let options = Options {
        root: RootDist::Spread,
        off: 4100,
    };
    plans_the_files(command)
        && settings.options == options
        && settings.workers == 64
        && settings.capacity == 1_048_576
        && settings.memo
        && settings.trace
        && settings.by_worker
}

#[test]
fn each_option_is_read(rt: HostRuntime) -> Result<(), Fail> {
    let words = words_of(
        rt.alloc(),
        "plan c.json --root spread --workers 64 q.sql --off JoinCommute+AggToHash --memo --capacity 1048576 --trace --by-worker",
    )?;
    assert!(rt; matches!(read_command(&words), Some(command) if has_each_option(&command)));
    Ok(())
}

fn has_usual_options(command: &Command<'_>) -> bool {
    let settings = command.settings;
    let options = Options {
        root: RootDist::One,
        off: 0,
    };
    plans_the_files(command)
        && settings.options == options
        && settings.workers == 1
        && settings.capacity == 131_072
        && !settings.memo
        && !settings.trace
        && !settings.by_worker
}

#[test]
fn what_is_not_given_is_usual(rt: HostRuntime) -> Result<(), Fail> {
    let words = words_of(rt.alloc(), "plan c.json q.sql")?;
    assert!(rt; matches!(read_command(&words), Some(command) if has_usual_options(&command)));
    Ok(())
}

// Whether the greatest number and eight tables in a clique are made, by two workers with room for 64.
fn has_its_numbers(command: &Command<'_>) -> bool {
    let settings = command.settings;
    matches!(command.task, Task::Gen(made) if is_the_greatest(made.input))
        && settings.workers == 2
        && settings.capacity == 64
}

fn is_the_greatest(input: GenInput) -> bool {
    input.number == u64::MAX && input.tables == 8 && matches!(input.shape, GenShape::Clique)
}

#[test]
fn a_number_tables_and_a_shape_are_generated(rt: HostRuntime) -> Result<(), Fail> {
    let line = "gen 18446744073709551615 --capacity 64 8 clique --workers 2";
    let words = words_of(rt.alloc(), line)?;
    assert!(rt; matches!(read_command(&words), Some(command) if has_its_numbers(&command)));
    Ok(())
}

// Whether three stages are named: one without JoinCommute and AggToHash and with the greatest threshold, one with all
// rules, and one with all rules and the least threshold.
fn has_three_stages(command: &Command<'_>) -> bool {
    let settings = command.settings;
    matches!(command.task, Task::Stages(named) if are_three_stages(named))
        && settings.workers == 8
        && settings.capacity == 64
        && settings.options.root == RootDist::Spread
}

fn are_three_stages(named: StageFiles<'_>) -> bool {
    let first = Stage {
        off: 4100,
        threshold: Some(100_000_000_000_000_000),
    };
    let second = Stage {
        off: 0,
        threshold: None,
    };
    let third = Stage {
        off: 0,
        threshold: Some(1),
    };
    named.files.catalog == "c.json"
        && named.files.query == "q.sql"
        && named.stages.as_slice() == [first, second, third].as_slice()
}

#[test]
fn stages_have_rules_that_are_off_and_thresholds(rt: HostRuntime) -> Result<(), Fail> {
    let line =
        "stages c.json q.sql --root spread AggToHash+JoinCommute@100000000000000000,all,all@1 --workers 8 --capacity 64";
    let words = words_of(rt.alloc(), line)?;
    assert!(rt; matches!(read_command(&words), Some(command) if has_three_stages(&command)));
    Ok(())
}

// Whether a plan is checked with two options, which are all that a check takes.
fn checks_a_plan(command: &Command<'_>) -> bool {
    let options = Options {
        root: RootDist::Spread,
        off: 4,
    };
    matches!(command.task, Task::Check(named) if named.files.catalog == "c.json"
        && named.files.query == "q.sql" && named.plan == "p.txt")
        && command.settings.options == options
}

// Whether a dump keeps its five options.
fn dumps_a_query(command: &Command<'_>) -> bool {
    let settings = command.settings;
    matches!(command.task, Task::Dump(files) if files.catalog == "c.json" && files.query == "q.sql")
        && settings.capacity == 64
        && settings.memo
        && settings.trace
        && settings.options.root == RootDist::Spread
        && settings.options.off == 4
}

#[test]
fn checks_dumps_and_replays_are_read(rt: HostRuntime) -> Result<(), Fail> {
    let check = words_of(
        rt.alloc(),
        "check c.json --off JoinCommute q.sql p.txt --root spread",
    )?;
    assert!(rt; matches!(read_command(&check), Some(command) if checks_a_plan(&command)));
    let dump = words_of(
        rt.alloc(),
        "dump c.json q.sql --memo --capacity 64 --trace --root spread --off JoinCommute",
    )?;
    assert!(rt; matches!(read_command(&dump), Some(command) if dumps_a_query(&command)));
    let replay = words_of(rt.alloc(), "replay --workers 8 d.txt")?;
    assert!(rt;
        matches!(read_command(&replay), Some(command)
        if command.settings.workers == 8 && matches!(command.task, Task::Replay(file) if file == "d.txt"))
    );
    Ok(())
}

// The first line is empty.
const OTHERS: &str = "
plan c.json
plan c.json q.sql more
plan c.json q.sql --workers
plan c.json q.sql --workers 0
plan c.json q.sql --workers 65
plan c.json q.sql --workers=4
plan c.json q.sql --workers 04
plan c.json q.sql --workers +4
plan c.json q.sql --workers 4 --workers 4
plan c.json q.sql --workers 18446744073709551620
plan c.json q.sql --capacity 63
plan c.json q.sql --capacity 064
plan c.json q.sql --capacity 1048577
plan c.json q.sql --by-worker --by-worker
plan c.json q.sql --root
plan c.json q.sql --root=one
plan c.json q.sql --off ExpandNAry
plan c.json q.sql --off JoinCommute+JoinCommute
plan c.json q.sql --root two
plan c.json q.sql --memo --memo
plan c.json q.sql --help
plan c.json q.sql --
plan c.json  q.sql
Plan c.json q.sql
gen 1 9 chain
gen 1 0 chain
gen 01 1 chain
gen 18446744073709551616 1 chain
gen 1 1 ring
gen 1 1
gen 1 1 chain more
gen 1 1 chain --memo
gen 1 1 chain --workers 2 --workers 2
stages c.json q.sql
stages c.json q.sql all more
stages c.json q.sql all --off JoinCommute
stages c.json q.sql all --memo
stages c.json q.sql All
stages c.json q.sql all,
stages c.json q.sql ,all
stages c.json q.sql all,,all
stages c.json q.sql all@
stages c.json q.sql all@0
stages c.json q.sql all@01
stages c.json q.sql all@+1
stages c.json q.sql all@1@1
stages c.json q.sql all@100000000000000001
stages c.json q.sql @1
stages c.json q.sql ExpandNAry
stages c.json q.sql JoinCommute+JoinCommute
stages c.json q.sql JoinCommute+all
stages c.json q.sql JoinCommute+
stages c.json q.sql all,all,all,all,all,all,all,all,all
check c.json q.sql
check c.json q.sql p.txt more
check c.json q.sql p.txt --workers 2
check c.json q.sql p.txt --capacity 64
dump c.json
dump c.json q.sql more
dump c.json q.sql --workers 2
dump c.json q.sql --by-worker
replay
replay d.txt more
replay d.txt --capacity 64
replay d.txt --root one
";

// Whether the words of the line are no command.
fn is_none(alloc: Global, line: &str) -> Result<bool, AllocError> {
    let words = words_of(alloc, line)?;
    Ok(read_command(&words).is_none())
}

#[test]
fn other_words_are_no_command(rt: HostRuntime) -> Result<(), Fail> {
    for line in OTHERS.lines() {
        assert!(rt; is_none(rt.alloc(), line)?, "{line}");
    }
    Ok(())
}
