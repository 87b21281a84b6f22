//! Estimates of worked examples.

use cardinality::rows;
use query_core::{Key, Query};
use std::alloc::Global;
use std::process::Abort;
use std::test::Fail;
use worked_queries::{cycle_of_four_predicates, filtered_count, huge_tables};

fn rows_at(query: &Query, number: u32) -> Option<u64> {
    let key = Key(number);
    if query.is_key(key) {
        Some(rows(query, key))
    } else {
        None
    }
}

// Asserts that the group of each key has so many rows.
fn assert_rows(
    rt: &impl Abort,
    alloc: Global,
    query: Result<Query, Fail>,
    groups: &[(u32, u64)],
) -> Result<(), Fail> {
    let query = Box::new(alloc, query?)?;
    for (number, rows) in groups {
        assert!(rt; rows_at(&query, *number) == Some(*rows), "{number}");
    }
    Ok(())
}

const OF_A_CYCLE: [(u32, u64); 4] = [(1027, 100), (1029, 1000), (1030, 1000), (1031, 100)];

#[test]
fn predicates_apply_when_their_last_table_joins(rt: HostRuntime) -> Result<(), Fail> {
    let query = cycle_of_four_predicates(rt.alloc());
    assert_rows(&rt, rt.alloc(), query, &OF_A_CYCLE)
}

const OF_HUGE_TABLES: [(u32, u64); 2] = [(0, 1_000_000_000_000), (1027, 333_333_333_334)];

#[test]
fn no_estimate_is_above_the_limit(rt: HostRuntime) -> Result<(), Fail> {
    assert_rows(&rt, rt.alloc(), huge_tables(rt.alloc()), &OF_HUGE_TABLES)
}

const OF_A_COUNT: [(u32, u64); 4] = [(0, 100_000), (16, 1000), (2048, 40), (2049, 10)];

#[test]
fn own_predicates_and_grouping_reduce_rows(rt: HostRuntime) -> Result<(), Fail> {
    assert_rows(&rt, rt.alloc(), filtered_count(rt.alloc()), &OF_A_COUNT)
}
