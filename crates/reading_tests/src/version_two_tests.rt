//! What only version 2 of a catalogue can say: histograms, and tables with a copy on each segment.
use crate::catalog_tests::{parts_of, said};
use crate::texts::{assert_told, numbered};
use catalog_json::read_catalog;
use query_core::{Bucket, Catalog, Histogram, Placing};
use std::alloc::{AllocError, Global};
use std::process::Abort;
use std::test::Fail;

/// A table of two columns, the first with a histogram of two buckets.
pub const HISTOGRAM: &str = "{\"version\":2,\"segments\":4,\"tables\":[\
    {\"name\":\"t\",\"rows\":1000,\"distribution\":[\"a\"],\"columns\":[{\"name\":\"a\",\"ndv\":100,\
    \"histogram\":{\"low\":1,\"buckets\":[{\"upto\":10,\"rows\":100},{\"upto\":100,\"rows\":900}]}},\
    {\"name\":\"b\",\"ndv\":10}]}]}";

// In each line what is replaced in this text, by what, and what is said then.
const CHANGES: &str = r#""version" | "version" | read
"version":2 | "version":0 | version 0
"version":2 | "version":3 | version 3
{"low":1,"buckets":[{"upto":10,"rows":100},{"upto":100,"rows":900}]} | null | shape at /tables/0/columns/0/histogram
{"low":1,"buckets":[{"upto":10,"rows":100},{"upto":100,"rows":900}]} | [] | shape at /tables/0/columns/0/histogram
"low":1, |  | shape at /tables/0/columns/0/histogram/low
"low":1 | "low":1.0 | shape at /tables/0/columns/0/histogram/low
"low":1 | "low":-0 | shape at /tables/0/columns/0/histogram/low
"low":1 | "low":"1" | shape at /tables/0/columns/0/histogram/low
"low":1 | "low":9223372036854775808 | shape at /tables/0/columns/0/histogram/low
"low":1 | "low":-9223372036854775809 | shape at /tables/0/columns/0/histogram/low
"low":1 | "low":-9223372036854775808 | read
"low":1 | "low":10 | read
"low":1 | "low":11 | range at /tables/0/columns/0/histogram/buckets/0/upto
,"buckets":[{"upto":10,"rows":100},{"upto":100,"rows":900}] |  | shape at /tables/0/columns/0/histogram/buckets
[{"upto":10,"rows":100},{"upto":100,"rows":900}] | null | shape at /tables/0/columns/0/histogram/buckets
[{"upto":10,"rows":100},{"upto":100,"rows":900}] | [] | range at /tables/0/columns/0/histogram/buckets
{"upto":10,"rows":100} | 1 | shape at /tables/0/columns/0/histogram/buckets/0
"upto":10, |  | shape at /tables/0/columns/0/histogram/buckets/0/upto
"upto":10,"rows":100 | "upto":0 | range at /tables/0/columns/0/histogram/buckets/0/upto
,"rows":100} | } | shape at /tables/0/columns/0/histogram/buckets/0/rows
"rows":100} | "rows":-1} | shape at /tables/0/columns/0/histogram/buckets/0/rows
"rows":100} | "rows":0} | read
"rows":100} | "rows":1000000000000} | read
"rows":100} | "rows":1000000000001} | range at /tables/0/columns/0/histogram/buckets/0/rows
"upto":100, | "upto":9223372036854775808, | shape at /tables/0/columns/0/histogram/buckets/1/upto
"upto":100, | "upto":9223372036854775807, | read
"upto":100, | "upto":11, | read
"upto":100, | "upto":10, | range at /tables/0/columns/0/histogram/buckets/1/upto
10,"rows":100},{"upto":100 | 9223372036854775807,"rows":100},{"upto":9223372036854775807 | range at /tables/0/columns/0/histogram/buckets/1/upto
"ndv":100,"histogram":{"low":1 | "ndv":-1,"histogram":{"low":"x" | shape at /tables/0/columns/0/ndv
1,"buckets":[{"upto":10,"rows":100},{"upto":100,"rows":900}]}},{"name":"b" | 1}},{"name":"a" | shape at /tables/0/columns/0/histogram/buckets
["a"],"columns":[{"name":"a","ndv":100,"histogram":{"low":1 | ["c"],"columns":[{"name":"a","ndv":100,"histogram":{"low":"x" | shape at /tables/0/columns/0/histogram/low
"ndv":10} | "ndv":10,"histogram":{}} | shape at /tables/0/columns/1/histogram/low
["a"] | "replicated" | read
["a"] | "copied" | shape at /tables/0/distribution
["a"] | ["replicated"] | unknown column at /tables/0/distribution/0
["a"],"columns":[{"name":"a" | ["replicated"],"columns":[{"name":"replicated" | read
"#;

// The same of the text in version 1.
const CHANGES_OF_ONE: &str = r#""version" | "version" | read
{"low":1,"buckets":[{"upto":10,"rows":100},{"upto":100,"rows":900}]} | null | read
"low":1 | "low":"x" | read
["a"] | "replicated" | shape at /tables/0/distribution
["a"] | ["replicated"] | unknown column at /tables/0/distribution/0
"#;

// Asserts for each line what is said of the text after its change.
fn assert_changes(rt: &impl Abort, alloc: Global, text: &str, changes: &str) -> Result<(), Fail> {
    for line in changes.lines() {
        let (old, new, want) = parts_of(line).ok_or("a line has three parts")?;
        let changed = text.replacen(alloc, old, new, 1)?;
        assert_told(rt, &said(alloc, changed.as_bytes())?, want, new);
    }
    Ok(())
}

// The text with the number of version 1.
fn in_version_one(alloc: Global) -> Result<String, AllocError> {
    HISTOGRAM.replacen(alloc, "\"version\":2", "\"version\":1", 1)
}

#[test]
fn one_change_is_refused_at_its_place(rt: HostRuntime) -> Result<(), Fail> {
    assert_changes(&rt, rt.alloc(), HISTOGRAM, CHANGES)
}

#[test]
fn version_one_passes_histograms_over(rt: HostRuntime) -> Result<(), Fail> {
    let text = in_version_one(rt.alloc())?;
    assert_changes(&rt, rt.alloc(), &text, CHANGES_OF_ONE)
}

// What is said of the text with so many buckets.
fn said_of_buckets(alloc: Global, count: u64) -> Result<String, AllocError> {
    let buckets = numbered(alloc, "{\"rows\":1,\"upto\":", "}", count)?;
    let text = [
        "{\"version\":2,\"segments\":4,\"tables\":[\
        {\"name\":\"t\",\"rows\":1000,\"distribution\":\"random\",\"columns\":[{\"name\":\"a\",\"ndv\":100,\
        \"histogram\":{\"low\":0,\"buckets\":[",
        &buckets,
        "]}}]}]}",
    ]
    .concat(alloc)?;
    said(alloc, text.as_bytes())
}

#[test]
fn a_histogram_has_at_most_sixty_four_buckets(rt: HostRuntime) -> Result<(), Fail> {
    let alloc = rt.alloc();
    assert_told(&rt, &said_of_buckets(alloc, 64)?, "read", "64");
    let wanted = "range at /tables/0/columns/0/histogram/buckets";
    assert_told(&rt, &said_of_buckets(alloc, 65)?, wanted, "65");
    Ok(())
}

fn is_bucket(bucket: Option<&Bucket>, upto: i64, rows: u64) -> bool {
    matches!(bucket, Some(bucket) if bucket.upto == upto && bucket.rows == rows)
}

fn are_buckets(buckets: &[Bucket]) -> bool {
    buckets.len() == 2 && is_bucket(buckets.first(), 10, 100) && is_bucket(buckets.get(1), 100, 900)
}

fn is_histogram(histogram: &Histogram) -> bool {
    histogram.low == 1 && are_buckets(histogram.buckets.as_slice())
}

// The histogram of the first column of the catalogue that the text says.
fn first_histogram(alloc: Global, text: &str) -> Result<Option<Histogram>, Fail> {
    let catalog = read_catalog(alloc, text.as_bytes())
        .ok()
        .ok_or("the text is a catalogue")?;
    let table = catalog.tables.as_slice().first().ok_or("a table")?;
    let column = table.columns.as_slice().first().ok_or("a column")?;
    match &column.histogram {
        Some(histogram) => Ok(Some(histogram.copy(alloc)?)),
        None => Ok(None),
    }
}

#[test]
fn a_histogram_is_read_in_version_two_alone(rt: HostRuntime) -> Result<(), Fail> {
    let two = first_histogram(rt.alloc(), HISTOGRAM)?;
    assert!(rt; matches!(&two, Some(histogram) if is_histogram(histogram)));
    let one = first_histogram(rt.alloc(), &in_version_one(rt.alloc())?)?;
    assert!(rt; one.is_none());
    Ok(())
}

fn has_a_replicated_table(catalog: &Catalog) -> bool {
    matches!(catalog.tables.as_slice().first(), Some(table) if matches!(&table.placing, Placing::Replicated))
}

#[test]
fn a_copy_on_each_segment_is_read(rt: HostRuntime) -> Result<(), Fail> {
    let text = HISTOGRAM.replacen(rt.alloc(), "[\"a\"]", "\"replicated\"", 1)?;
    let read = read_catalog(rt.alloc(), text.as_bytes());
    assert!(rt; matches!(&read, Ok(catalog) if has_a_replicated_table(catalog)));
    Ok(())
}
