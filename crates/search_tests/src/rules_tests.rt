//! Results of rules at worked examples.

use query_core::*;
use std::alloc::Global;
use std::process::Abort;
use std::test::Fail;
use worked_queries::{compared_tables, three_indexes};
use xform_rules::{applies, nth_result};

// The joins of the first table and the second: a word has the key from bit 36 on, the operator from bit 31, the index
// from bit 26, and the children.
const HASH_JOIN: u64 = 0x403480002002;

const MERGE_JOIN: u64 = 0x403500002002;

const LOOP_JOIN: u64 = 0x403580002002;

// The result of a rule at the expression with which the group of this key begins.
fn first_step(query: &Query, key: u32, rule: u32, n: u32) -> Option<u64> {
    if !query.is_key(Key(key)) {
        return None;
    }
    // For the proof: an origin is a candidate.
    candidates_are_known();
    Some(nth_result(query, query.origin(Key(key)), rule, n, None)?.0)
}

// The result of a second rule at what ExpandNAry gives for the root.
fn second_step(query: &Query, rule: u32) -> Option<u64> {
    candidates_are_known();
    let join = nth_result(query, query.origin(query.root()), 1, 0, None)?;
    Some(nth_result(query, join, rule, 0, None)?.0)
}

// Asserts what each rule gives for the join of all tables.
fn assert_joined(
    rt: &impl Abort,
    alloc: Global,
    query: Result<Query, Fail>,
    rules: &[(u32, Option<u64>)],
) -> Result<(), Fail> {
    let query = Box::new(alloc, query?)?;
    for (rule, result) in rules {
        assert!(rt; second_step(&query, *rule) == *result, "{rule}");
    }
    Ok(())
}

// Asserts what a rule gives at a place for the first expression of a group, whose key comes first.
fn assert_first_steps(
    rt: &impl Abort,
    alloc: Global,
    query: Result<Query, Fail>,
    steps: &[(u32, u32, u32, Option<u64>)],
) -> Result<(), Fail> {
    let query = Box::new(alloc, query?)?;
    for (key, rule, n, result) in steps {
        assert!(rt;
            first_step(&query, *key, *rule, *n) == *result,
            "{rule} {n}"
        );
    }
    Ok(())
}

// Whether the rule applies to the expression with which the group of this key begins.
fn applies_first(query: &Query, key: u32, rule: u32) -> Option<bool> {
    if !query.is_key(Key(key)) {
        return None;
    }
    // For the proof: an origin is a candidate.
    candidates_are_known();
    Some(applies(query, query.origin(Key(key)), rule))
}

// Asserts which rules apply to the first expressions of groups, whose keys come first.
fn assert_applies(
    rt: &impl Abort,
    alloc: Global,
    query: Result<Query, Fail>,
    rows: &[(u32, u32, bool)],
) -> Result<(), Fail> {
    let query = Box::new(alloc, query?)?;
    for (key, rule, expected) in rows {
        assert!(rt;
            applies_first(&query, *key, *rule) == Some(*expected),
            "{key} {rule}"
        );
    }
    Ok(())
}

const APPLY_TO_A_JOIN: [(u32, u32, bool); 6] = [
    (1027, 1, true),
    (1027, 2, false),
    (0, 5, true),
    (0, 6, false),
    (0, 0, false),
    (0, 15, false),
];

const APPLY_WITHOUT_SCANS: [(u32, u32, bool); 2] = [(0, 5, false), (1027, 1, true)];

const APPLY_TO_INDEXES: [(u32, u32, bool); 4] = [
    (0, 6, true),
    (16, 5, false),
    (16, 7, true),
    (16, 8, true),
];

// Numbers of rules are 1 to 14.
#[test]
fn a_rule_applies_where_it_is_on_and_for_the_expression(rt: HostRuntime) -> Result<(), Fail> {
    let alloc = rt.alloc();
    let joined = compared_tables(alloc, CmpOp::Eq, 0);
    assert_applies(&rt, alloc, joined, &APPLY_TO_A_JOIN)?;
    let without_scans = compared_tables(alloc, CmpOp::Eq, 1 << 5);
    assert_applies(&rt, alloc, without_scans, &APPLY_WITHOUT_SCANS)?;
    assert_applies(&rt, alloc, three_indexes(alloc), &APPLY_TO_INDEXES)
}

const EQUALITY: [(u32, Option<u64>); 5] = [
    (9, Some(HASH_JOIN)),
    (10, Some(MERGE_JOIN)),
    (11, Some(LOOP_JOIN)),
    (2, Some(0x403400004001)),
    (12, None),
];

const EQUALITY_STEPS: [(u32, u32, u32, Option<u64>); 2] = [(1027, 9, 0, None), (1027, 1, 1, None)];

#[test]
fn a_join_of_two_tables_is_implemented_in_three_ways(rt: HostRuntime) -> Result<(), Fail> {
    let alloc = rt.alloc();
    assert_joined(&rt, alloc, compared_tables(alloc, CmpOp::Eq, 0), &EQUALITY)?;
    let query = compared_tables(alloc, CmpOp::Eq, 0);
    assert_first_steps(&rt, alloc, query, &EQUALITY_STEPS)
}

const INEQUALITY: [(u32, Option<u64>); 3] = [(9, None), (10, None), (11, Some(LOOP_JOIN))];

#[test]
fn without_an_equality_a_join_is_by_loops(rt: HostRuntime) -> Result<(), Fail> {
    let query = compared_tables(rt.alloc(), CmpOp::Lt, 0);
    assert_joined(&rt, rt.alloc(), query, &INEQUALITY)
}

const HASHES_OFF: [(u32, Option<u64>); 2] = [(9, None), (10, Some(MERGE_JOIN))];

#[test]
fn a_rule_that_is_off_has_no_result(rt: HostRuntime) -> Result<(), Fail> {
    let query = compared_tables(rt.alloc(), CmpOp::Eq, 1 << 9);
    assert_joined(&rt, rt.alloc(), query, &HASHES_OFF)
}

const INDEX_STEPS: [(u32, u32, u32, Option<u64>); 5] = [
    (16, 8, 0, Some(0x10304000000)),
    (16, 8, 1, Some(0x10308000000)),
    (16, 8, 2, None),
    (0, 6, 2, Some(0x188000000)),
    (0, 6, 3, None),
];

#[test]
fn an_index_is_sought_where_its_first_column_is_compared(rt: HostRuntime) -> Result<(), Fail> {
    assert_first_steps(&rt, rt.alloc(), three_indexes(rt.alloc()), &INDEX_STEPS)
}
