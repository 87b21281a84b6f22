//! Estimates of ranges by histograms.

use cardinality::rows;
use query_core::{Key, Query};
use std::alloc::{AllocError, Global};
use std::process::Abort;
use std::test::Fail;
use worked_queries::ranged_table;

// The rows of the group of the table's own predicates.
fn rows_left(query: &Query) -> Option<u64> {
    let filtered = Key(16);
    if query.is_key(filtered) {
        Some(rows(query, filtered))
    } else {
        None
    }
}

// Asserts for each condition how many rows of a table of so many meet it.
fn assert_left(
    rt: &impl Abort,
    alloc: Global,
    rows: u64,
    histogram: &str,
    conditions: &[(&str, u64)],
) -> Result<(), Fail> {
    for (condition, wanted) in conditions {
        let query = Box::new(alloc, ranged_table(alloc, rows, histogram, condition)?)?;
        assert!(rt; rows_left(&query) == Some(*wanted), "{condition}");
    }
    Ok(())
}

const TWO_BUCKETS: &str = r#"{"low":1,"buckets":[{"upto":10,"rows":100},{"upto":100,"rows":900}]}"#;

const OF_TWO_BUCKETS: [(&str, u64); 23] = [
    ("a < 1", 0),
    ("a <= 0", 0),
    ("a > 100", 0),
    ("a >= 101", 0),
    ("a < 2", 100),
    ("a <= 1", 100),
    ("a < 11", 100),
    ("a <= 10", 100),
    ("a <= 11", 1000),
    ("a < 12", 1000),
    ("a > 0", 1000),
    ("a < 1000", 1000),
    ("a >= 100", 900),
    ("a > 99", 900),
    ("a >= 11", 900),
    ("a > 10", 900),
    ("a = 5", 10),
    ("a = 500", 10),
    ("a <> 5", 1000),
    ("a < 'x'", 334),
    ("b < 5", 334),
    ("a > 10 AND a < 5", 90),
    ("a < 5 AND a > 10", 90),
];

#[test]
fn the_buckets_that_a_range_meets_are_left(rt: HostRuntime) -> Result<(), Fail> {
    assert_left(&rt, rt.alloc(), 1_000, TWO_BUCKETS, &OF_TWO_BUCKETS)
}

#[test]
fn few_rows_stay_few(rt: HostRuntime) -> Result<(), Fail> {
    assert_left(&rt, rt.alloc(), 0, TWO_BUCKETS, &[("a < 5", 0)])?;
    assert_left(
        &rt,
        rt.alloc(),
        1,
        TWO_BUCKETS,
        &[("a < 5", 1), ("a < 0", 0)],
    )
}

#[test]
fn each_predicate_rounds_up(rt: HostRuntime) -> Result<(), Fail> {
    assert_left(
        &rt,
        rt.alloc(),
        3,
        r#"{"low":0,"buckets":[{"upto":9,"rows":3},{"upto":19,"rows":2}]}"#,
        &[("a >= 10 AND a < 10", 2), ("a < 10 AND a >= 10", 1)],
    )
}

#[test]
fn rows_are_multiplied_before_they_are_rounded(rt: HostRuntime) -> Result<(), Fail> {
    assert_left(
        &rt,
        rt.alloc(),
        10,
        r#"{"low":0,"buckets":[{"upto":9,"rows":1},{"upto":19,"rows":2}]}"#,
        &[("a >= 10", 7), ("a < 10", 4)],
    )
}

const BELOW_ZERO: [(&str, u64); 5] = [
    ("a < -2", 2),
    ("a <= -2", 4),
    ("a > -3", 6),
    ("a >= -3", 8),
    ("a < -0", 4),
];

#[test]
fn numbers_may_be_below_zero(rt: HostRuntime) -> Result<(), Fail> {
    assert_left(
        &rt,
        rt.alloc(),
        8,
        r#"{"low":-5,"buckets":[{"upto":-3,"rows":1},{"upto":0,"rows":1},{"upto":4,"rows":2}]}"#,
        &BELOW_ZERO,
    )
}

const ALL_NUMBERS: &str =
    r#"{"low":-9223372036854775808,"buckets":[{"upto":9223372036854775807,"rows":1}]}"#;

const OF_ALL_NUMBERS: [(&str, u64); 3] = [
    ("a > 9223372036854775807", 0),
    ("a >= 9223372036854775807", 1000),
    ("a < 0", 1000),
];

const GREATEST_APART: &str = r#"{"low":-9223372036854775808,"buckets":[
{"upto":9223372036854775806,"rows":1},{"upto":9223372036854775807,"rows":2}]}"#;

const OF_GREATEST_APART: [(&str, u64); 3] = [
    ("a >= 9223372036854775807", 667),
    ("a < 9223372036854775807", 334),
    ("a <= 9223372036854775807", 1000),
];

const LEAST_APART: &str = r#"{"low":-9223372036854775808,"buckets":[
{"upto":-9223372036854775808,"rows":1},{"upto":-9223372036854775807,"rows":2}]}"#;

const OF_LEAST_APART: [(&str, u64); 4] = [
    ("a < -9223372036854775807", 334),
    ("a <= -9223372036854775807", 1000),
    ("a > -9223372036854775807", 0),
    ("a >= -9223372036854775807", 667),
];

const GREATEST_ALONE: &str =
    r#"{"low":9223372036854775807,"buckets":[{"upto":9223372036854775807,"rows":1}]}"#;

const OF_GREATEST_ALONE: [(&str, u64); 1] = [("a >= 9223372036854775807", 1000)];

#[test]
fn the_least_and_the_greatest_number_are_met(rt: HostRuntime) -> Result<(), Fail> {
    assert_left(&rt, rt.alloc(), 1_000, ALL_NUMBERS, &OF_ALL_NUMBERS)?;
    assert_left(&rt, rt.alloc(), 1_000, GREATEST_APART, &OF_GREATEST_APART)?;
    assert_left(&rt, rt.alloc(), 1_000, LEAST_APART, &OF_LEAST_APART)?;
    assert_left(&rt, rt.alloc(), 1_000, GREATEST_ALONE, &OF_GREATEST_ALONE)
}

const ONE_VALUE: &str = r#"{"low":5,"buckets":[{"upto":5,"rows":1}]}"#;

const OF_ONE_VALUE: [(&str, u64); 4] = [
    ("a < 5", 0),
    ("a <= 5", 1000),
    ("a > 5", 0),
    ("a >= 5", 1000),
];

#[test]
fn a_bucket_may_have_one_value(rt: HostRuntime) -> Result<(), Fail> {
    assert_left(&rt, rt.alloc(), 1_000, ONE_VALUE, &OF_ONE_VALUE)
}

const FIRST_EMPTY: &str = r#"{"low":1,"buckets":[{"upto":10,"rows":0},{"upto":20,"rows":5}]}"#;

const ALL_EMPTY: &str = r#"{"low":1,"buckets":[{"upto":10,"rows":0},{"upto":20,"rows":0}]}"#;

#[test]
fn buckets_may_have_no_rows(rt: HostRuntime) -> Result<(), Fail> {
    let of_first_empty = [("a < 11", 0), ("a < 12", 1000)];
    assert_left(&rt, rt.alloc(), 1_000, FIRST_EMPTY, &of_first_empty)?;
    let of_all_empty = [("a < 11", 334), ("a >= 20", 334), ("a > 20", 334)];
    assert_left(&rt, rt.alloc(), 1_000, ALL_EMPTY, &of_all_empty)
}

// The histogram of 64 buckets of 10^12 rows, but for the first, which has these. The first ends at 10, and each later
// one 10 above the one before it.
fn full_histogram(alloc: Global, first: u64) -> Result<String, AllocError> {
    let mut text = format!(in alloc; "{{\"low\":1,\"buckets\":[{{\"upto\":10,\"rows\":{first}}}")?;
    for i in 2..=64u64 {
        write!(text, ",{{\"upto\":{i}0,\"rows\":1000000000000}}")?;
    }
    text.push_str("]}")?;
    Ok(text)
}

const OF_FULL: [(&str, u64); 2] = [("a < 11", 15_625_000_000), ("a > 10", 984_375_000_000)];

const OF_ONE_ROW_LESS: [(&str, u64); 2] = [("a < 11", 15_625_000_000), ("a > 10", 984_375_000_001)];

#[test]
fn the_greatest_histogram_is_met(rt: HostRuntime) -> Result<(), Fail> {
    let full = full_histogram(rt.alloc(), 1_000_000_000_000)?;
    assert_left(&rt, rt.alloc(), 1_000_000_000_000, &full, &OF_FULL)?;
    let less = full_histogram(rt.alloc(), 999_999_999_999)?;
    assert_left(&rt, rt.alloc(), 1_000_000_000_000, &less, &OF_ONE_ROW_LESS)
}
