use crate::texts::{assert_told, numbered, numbered_line};
use catalog_json::{CatalogFault, read_catalog};
use orca_base::Text;
use query_core::{Catalog, ColumnInfo, Placing, TableInfo};
use std::alloc::{AllocError, AllocGlobal, Global};
use std::process::Abort;
use std::test::Fail;

/// Two tables of 1,000 rows, each hashed on its first column.
pub const TWO_TABLES: &str = "{\"version\":1,\"segments\":4,\"tables\":[\
    {\"name\":\"T1\",\"rows\":1000,\"distribution\":[\"a\"],\"columns\":[{\"name\":\"a\",\"ndv\":1000}]},\
    {\"name\":\"T2\",\"rows\":1000,\"distribution\":[\"a\"],\
    \"columns\":[{\"name\":\"a\",\"ndv\":1000},{\"name\":\"b\",\"ndv\":500}]}]}";

// These words, and the path behind them.
fn at_path(alloc: Global, words: &str, path: &Text) -> Result<String, AllocError> {
    [words, path.as_str()].concat(alloc)
}

fn told(alloc: Global, fault: CatalogFault) -> Result<String, AllocError> {
    match fault {
        CatalogFault::TooLong => String::from_str(alloc, "too long"),
        CatalogFault::NotJson => String::from_str(alloc, "not JSON"),
        CatalogFault::Shape { path } => at_path(alloc, "shape at ", &path),
        CatalogFault::Version { found } => numbered_line(alloc, "version ", found),
        CatalogFault::Range { path } => at_path(alloc, "range at ", &path),
        CatalogFault::Twice { path } => at_path(alloc, "twice at ", &path),
        CatalogFault::UnknownColumn { path } => at_path(alloc, "unknown column at ", &path),
        CatalogFault::Memory => String::from_str(alloc, "memory"),
    }
}

/// The line that says why the bytes are refused, or `read`.
pub fn said(alloc: Global, bytes: &[u8]) -> Result<String, AllocError> {
    match read_catalog(alloc, bytes) {
        Ok(_) => String::from_str(alloc, "read"),
        Err(fault) => told(alloc, fault),
    }
}

// What is said of the two tables after one change.
fn changed(alloc: Global, old: &str, new: &str) -> Result<String, AllocError> {
    let text = TWO_TABLES.replacen(alloc, old, new, 1)?;
    said(alloc, text.as_bytes())
}

// Whether it is T2.
fn is_second_table(table: &TableInfo) -> bool {
    table.name.as_str() == "T2"
        && table.rows == 1000
        && table.indexes.is_empty()
        && matches!(&table.placing, Placing::Hashed(places) if places.as_slice() == [0].as_slice())
        && table.columns.len() == 2
        && matches!(table.columns.as_slice().get(1), Some(column) if is_second_column(column))
}

// Whether it is T2.b.
fn is_second_column(column: &ColumnInfo) -> bool {
    column.name.as_str() == "b" && column.ndv == 500
}

fn has_two_tables(catalog: &Catalog) -> bool {
    catalog.segments == 4
        && catalog.tables.len() == 2
        && matches!(catalog.tables.as_slice().get(1), Some(table) if is_second_table(table))
}

#[test]
fn two_tables_are_read(rt: HostRuntime) {
    let read = read_catalog(rt.alloc(), TWO_TABLES.as_bytes());
    assert!(rt; matches!(&read, Ok(catalog) if has_two_tables(catalog)));
}

// In each line what is replaced in the two tables, by what, and what is said then.
const CHANGES: &str = r#""version":1 | "version":3 | version 3
"ndv":1000 | "ndv":1000000000001 | range at /tables/0/columns/0/ndv
"T2" | "T1" | twice at /tables/1/name
["a"] | ["c"] | unknown column at /tables/0/distribution/0
"rows":1000 | "rows":"1000" | shape at /tables/0/rows
{"version" | {"comment":"x","version" | read
"version":1, |  | shape at /version
"version":1 | "version":0 | version 0
"version":1 | "version":1.0 | shape at /version
"segments":4 | "segments":0 | range at /segments
"segments":4 | "segments":1000 | read
"segments":4 | "segments":1001 | range at /segments
"segments":4 | "segments":4e0 | shape at /segments
"segments":4 | "segments":5,"segments":4.0 | shape at /segments
"segments":4 | "segments":4.0,"segments":5 | read
"segments" | "\u0073egments" | read
"T2" | "\u00541" | twice at /tables/1/name
"b" | "a" | twice at /tables/1/columns/1/name
"T1" | "1T" | shape at /tables/0/name
"T1" | "T\u00e9" | shape at /tables/0/name
"T1" | "" | shape at /tables/0/name
"T1" | "select" | read
"rows":1000 | "rows":1000000000000 | read
"rows":1000 | "rows":1000000000001 | range at /tables/0/rows
"rows":1000 | "rows":18446744073709551615 | range at /tables/0/rows
"rows":1000 | "rows":18446744073709551616 | shape at /tables/0/rows
"rows":1000 | "rows":-1 | shape at /tables/0/rows
"rows":1000 | "rows":-0 | shape at /tables/0/rows
"rows":1000 | "rows":0 | read
"rows":1000 | "rows":1e3 | shape at /tables/0/rows
"rows":1000, |  | shape at /tables/0/rows
["a"] | "random" | read
["a"] | "Random" | shape at /tables/0/distribution
["a"] | null | shape at /tables/0/distribution
"distribution":["a"], |  | shape at /tables/0/distribution
["a"] | [] | range at /tables/0/distribution
["a"] | [0,0,0,0,0,0,0,0,0] | range at /tables/0/distribution
["a"] | ["a","a"] | twice at /tables/0/distribution/1
["a"] | ["a","a b"] | shape at /tables/0/distribution/1
["a"] | ["a"],"indexes":[["a"],["b"]] | unknown column at /tables/0/indexes/1/0
["a"] | ["a"],"indexes":[[]] | range at /tables/0/indexes/0
["a"] | ["a"],"indexes":["a"] | shape at /tables/0/indexes/0
["a"] | ["a"],"indexes":null | shape at /tables/0/indexes
["a"] | ["a"],"indexes":[] | read
[{"name":"a","ndv":1000}] | [] | range at /tables/0/columns
[{"name":"a","ndv":1000}] | {} | shape at /tables/0/columns
{"name":"a","ndv":1000} | 1 | shape at /tables/0/columns/0
{"name":"T1" | 5,{"name":"T1" | shape at /tables/0
"#;

/// The parts of a line, between bars.
pub fn parts_of(line: &str) -> Option<(&str, &str, &str)> {
    let (old, rest) = line.split_once(" | ")?;
    let (new, want) = rest.split_once(" | ")?;
    Some((old, new, want))
}

#[test]
fn one_change_is_refused_at_its_place(rt: HostRuntime) -> Result<(), Fail> {
    for line in CHANGES.lines() {
        let (old, new, want) = parts_of(line).ok_or("a line has three parts")?;
        let told = changed(rt.alloc(), old, new)?;
        assert_told(&rt, &told, want, new);
    }
    Ok(())
}

const NO_OBJECTS: [(&[u8], &str); 4] = [
    (b"[]", "shape at "),
    (b"1", "shape at "),
    (b"", "not JSON"),
    (b"\"\xff\"", "not JSON"),
];

#[test]
fn what_is_no_object_is_refused(rt: HostRuntime) -> Result<(), Fail> {
    for (bytes, want) in &NO_OBJECTS {
        let told = said(rt.alloc(), bytes)?;
        assert_told(&rt, &told, want, "bytes");
    }
    Ok(())
}

#[test]
fn each_proper_prefix_is_refused(rt: HostRuntime) -> Result<(), Fail> {
    let bytes = TWO_TABLES.as_bytes();
    for end in 0..bytes.len() {
        let told = said(rt.alloc(), &bytes[..end])?;
        assert!(rt; told.as_str() == "not JSON", "at {end}");
    }
    Ok(())
}

// So many arrays, each but the last around another.
fn nested(alloc: Global, arrays: usize) -> Result<String, AllocError> {
    let open = "[".repeat(alloc, arrays)?;
    let close = "]".repeat(alloc, arrays)?;
    [open, close].concat(alloc)
}

// What is said of the two tables with this value under a key that is passed over.
fn said_beside(alloc: Global, value: &str) -> Result<String, AllocError> {
    let beside = ["{\"x\":", value, ",\"version\""].concat(alloc)?;
    changed(alloc, "{\"version\"", &beside)
}

// And under one that is looked at.
fn said_inside(alloc: Global, value: &str) -> Result<String, AllocError> {
    let inside = ["\"segments\":", value].concat(alloc)?;
    changed(alloc, "\"segments\":4", &inside)
}

// Asserts what is said of so many arrays alone, and of them under either key.
fn assert_levels(
    rt: &impl Abort,
    alloc: Global,
    arrays: usize,
    alone: &str,
    passed_over: &str,
    looked_at: &str,
) -> Result<(), AllocError> {
    let value = nested(alloc, arrays)?;
    assert_told(rt, &said(alloc, value.as_bytes())?, alone, &value);
    assert_told(rt, &said_beside(alloc, &value)?, passed_over, &value);
    assert_told(rt, &said_inside(alloc, &value)?, looked_at, &value);
    Ok(())
}

// How many arrays, and what is said of them alone, which are no object; and under the object, which is a level, where a
// key is passed over and where one is looked at.
const LEVELS: [(usize, &str, &str, &str); 3] = [
    (126, "shape at ", "read", "shape at /segments"),
    (127, "shape at ", "not JSON", "not JSON"),
    (128, "not JSON", "not JSON", "not JSON"),
];

#[test]
fn a_hundred_and_twenty_seven_levels_are_read(rt: HostRuntime) -> Result<(), Fail> {
    for (arrays, alone, passed_over, looked_at) in &LEVELS {
        assert_levels(&rt, rt.alloc(), *arrays, alone, passed_over, looked_at)?;
    }
    Ok(())
}

// What is said of a catalogue of so many tables.
fn said_of_tables(alloc: Global, count: u64) -> Result<String, AllocError> {
    let back = r#"","rows":0,"distribution":"random","columns":[{"name":"a","ndv":0}]}"#;
    let tables = numbered(alloc, r#"{"name":"n"#, back, count)?;
    let text = [r#"{"version":1,"segments":1,"tables":["#, &tables, "]}"].concat(alloc)?;
    said(alloc, text.as_bytes())
}

// What is said of a catalogue of one table, with so many columns, a0 and so on, that is hashed on these names.
fn said_of_columns(alloc: Global, count: u64, hashed: &str) -> Result<String, AllocError> {
    let columns = numbered(alloc, r#"{"name":"a"#, r#"","ndv":0}"#, count)?;
    let front = r#"{"version":1,"segments":4,"tables":[{"name":"T1","rows":1000,"distribution":["#;
    let text = [front, hashed, r#"],"columns":["#, &columns, "]}]}"].concat(alloc)?;
    said(alloc, text.as_bytes())
}

// The same of nine columns, of which the table is hashed on the first ones.
fn said_of_hashed(alloc: Global, count: u64) -> Result<String, AllocError> {
    let hashed = numbered(alloc, "\"a", "\"", count)?;
    said_of_columns(alloc, 9, &hashed)
}

// What is said of the two tables where the first has one index, and so many more.
fn said_of_indexes(alloc: Global, more: usize) -> Result<String, AllocError> {
    let others = "[\"a\"],".repeat(alloc, more)?;
    let indexes = ["[\"a\"],\"indexes\":[", &others, "[\"a\"]]"].concat(alloc)?;
    changed(alloc, "[\"a\"]", &indexes)
}

// What is said of the two tables where the first has a name of so many letters.
fn said_of_name(alloc: Global, count: usize) -> Result<String, AllocError> {
    let name = "n".repeat(alloc, count)?;
    changed(alloc, "T1", &name)
}

// Asserts what is said of what is as long as it may be, or longer by one.
fn assert_said(
    rt: &impl Abort,
    said: Result<String, AllocError>,
    wanted: &str,
) -> Result<(), AllocError> {
    assert_told(rt, &said?, wanted, wanted);
    Ok(())
}

#[test]
fn lengths_end_at_their_limits(rt: HostRuntime) -> Result<(), Fail> {
    let (alloc, last) = (rt.alloc(), "\"a999\"");
    assert_said(&rt, said_of_tables(alloc, 1000), "read")?;
    assert_said(&rt, said_of_tables(alloc, 1001), "range at /tables")?;
    assert_said(&rt, said_of_columns(alloc, 1000, last), "read")?;
    assert_said(
        &rt,
        said_of_columns(alloc, 1001, last),
        "range at /tables/0/columns",
    )?;
    assert_said(&rt, said_of_hashed(alloc, 8), "read")?;
    assert_said(
        &rt,
        said_of_hashed(alloc, 9),
        "range at /tables/0/distribution",
    )?;
    assert_said(&rt, said_of_indexes(alloc, 15), "read")?;
    assert_said(
        &rt,
        said_of_indexes(alloc, 16),
        "range at /tables/0/indexes",
    )?;
    assert_said(&rt, said_of_name(alloc, 64), "read")?;
    assert_said(&rt, said_of_name(alloc, 65), "shape at /tables/0/name")?;
    Ok(())
}

// The two tables with so many bytes, by spaces behind them.
fn padded(alloc: Global, length: usize) -> Result<String, AllocError> {
    let spaces = " ".repeat(alloc, length.saturating_sub(TWO_TABLES.len()))?;
    [TWO_TABLES, &spaces].concat(alloc)
}

// Asserts what is said of the two tables with so many bytes.
fn assert_length(rt: &(impl Abort + AllocGlobal), length: usize, wanted: &str) -> Result<(), Fail> {
    let text = padded(rt.alloc(), length)?;
    assert!(rt; text.len() == length);
    assert_told(rt, &said(rt.alloc(), text.as_bytes())?, wanted, "spaces");
    Ok(())
}

#[test]
fn a_mebibyte_is_read(rt: HostRuntime) -> Result<(), Fail> {
    assert_length(&rt, 1_048_576, "read")?;
    assert_length(&rt, 1_048_577, "too long")
}
