//! How many columns of a group are equated with columns outside it.

use query_core::{KeyParts, Query};
use std::alloc::Global;
use std::process::Abort;
use std::test::Fail;
use worked_queries::{cycle_of_four_predicates, implied, star_of_four};

// Asserts that each group has so many of these columns.
fn assert_outer_columns(
    rt: &impl Abort,
    alloc: Global,
    query: Result<Query, Fail>,
    groups: &[(KeyParts, usize)],
) -> Result<(), Fail> {
    let (query, props) = implied(alloc, query?)?;
    for (group, many) in groups {
        assert!(rt; props.outer_columns(&query, *group) == *many, "{group:?}");
    }
    Ok(())
}

const OF_A_CYCLE: [(KeyParts, usize); 4] = [
    (KeyParts::Get(0), 3),
    (KeyParts::Get(2), 2),
    (KeyParts::Join(3), 2),
    (KeyParts::Join(7), 0),
];

#[test]
fn columns_equated_within_the_group_do_not_count(rt: HostRuntime) -> Result<(), Fail> {
    let query = cycle_of_four_predicates(rt.alloc());
    assert_outer_columns(&rt, rt.alloc(), query, &OF_A_CYCLE)
}

const OF_A_STAR: [(KeyParts, usize); 3] = [
    (KeyParts::Get(0), 1),
    (KeyParts::Get(1), 1),
    (KeyParts::Join(3), 1),
];

#[test]
fn a_column_of_several_equalities_counts_once(rt: HostRuntime) -> Result<(), Fail> {
    assert_outer_columns(&rt, rt.alloc(), star_of_four(rt.alloc()), &OF_A_STAR)
}
