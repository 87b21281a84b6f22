//! Dumps that are written and read back, and texts that are none.
ghost use Rattle.query_core.specs.Catalog.{IsCatalog};
ghost use Rattle.dump_replay.specs.Dumps.{AreDumpOptions};

use crate::catalog_tests::TWO_TABLES;
use crate::texts::{assert_told, numbered_line};
use catalog_json::read_catalog;
use dump_replay::{Dump, DumpFault, DumpOptions, dump_text, read_dump};
use query_core::{Catalog, Options, RootDist};
use sql_reader::read_sql;
use std::alloc::{AllocError, AllocGlobal, Global};
use std::process::Abort;
use std::test::Fail;

const QUERY: &str = "SELECT T1.a FROM T1, T2 WHERE T1.a = T2.b ORDER BY T1.a";

// The dump of that query over two tables, with the memo.
const DUMP: &str = "orca dump 1
capacity 131072
root one
off
print memo
catalog {\"version\":2,\"segments\":4,\"tables\":[\
    {\"name\":\"T1\",\"rows\":1000,\"distribution\":[\"a\"],\"columns\":[{\"name\":\"a\",\"ndv\":1000}]},\
    {\"name\":\"T2\",\"rows\":1000,\"distribution\":[\"a\"],\
    \"columns\":[{\"name\":\"a\",\"ndv\":1000},{\"name\":\"b\",\"ndv\":500}]}]}
query SELECT T1.a FROM T1, T2 WHERE T1.a = T2.b ORDER BY T1.a
";

// The dump of a query over one of the two tables, without two of the rules.
const OTHER_DUMP: &str = "orca dump 1
capacity 64
root spread
off JoinCommute+PartialToHash
print memo trace
catalog {\"version\":2,\"segments\":4,\"tables\":[\
    {\"name\":\"T2\",\"rows\":1000,\"distribution\":[\"a\"],\
    \"columns\":[{\"name\":\"a\",\"ndv\":1000},{\"name\":\"b\",\"ndv\":500}]}]}
query SELECT b
FROM T2 -- all
";

// The dump of a query over the two tables; no bytes where one of the texts isn't read.
fn dumped(alloc: Global, query: &str, options: DumpOptions) -> Result<Vec<u8>, Fail>
    requires { AreDumpOptions options }
{
    match read_catalog(alloc, TWO_TABLES.as_bytes()) {
        Ok(catalog) => dumped_over(alloc, &catalog, query, options),
        Err(_) => Ok(Vec::new(alloc)),
    }
}

fn dumped_over(
    alloc: Global,
    catalog: &Catalog,
    query: &str,
    options: DumpOptions,
) -> Result<Vec<u8>, Fail>
    requires catalogue { IsCatalog catalog.now }
    requires options { AreDumpOptions options }
{
    match read_sql(alloc, query.as_bytes()) {
        Ok(select) => {
            let text = dump_text(alloc, &select, catalog, query.as_bytes(), &options)
                .ok()
                .ok_or("the query is dumped")?;
            Ok(text)
        }
        Err(_) => Ok(Vec::new(alloc)),
    }
}

#[test]
fn a_query_is_dumped(rt: HostRuntime) -> Result<(), Fail> {
    let options = DumpOptions {
        capacity: 131_072,
        options: Options {
            root: RootDist::One,
            off: 0,
        },
        memo: true,
        trace: false,
    };
    let text = dumped(rt.alloc(), QUERY, options)?;
    assert!(rt; text.as_slice() == DUMP.as_bytes());
    Ok(())
}

#[test]
fn a_dump_has_the_tables_of_its_query(rt: HostRuntime) -> Result<(), Fail> {
    let options = DumpOptions {
        capacity: 64,
        options: Options {
            root: RootDist::Spread,
            off: 16_388,
        },
        memo: true,
        trace: true,
    };
    let text = dumped(rt.alloc(), "SELECT b\nFROM T2 -- all", options)?;
    assert!(rt; text.as_slice() == OTHER_DUMP.as_bytes());
    Ok(())
}

fn is_other_dump(dump: &Dump) -> bool {
    let options = DumpOptions {
        capacity: 64,
        options: Options {
            root: RootDist::Spread,
            off: 16_388,
        },
        memo: true,
        trace: true,
    };
    dump.options == options
        && dump.catalog.as_slice().starts_with(b"{\"version\":2,")
        && dump.query.as_slice() == b"SELECT b\nFROM T2 -- all".as_slice()
}

#[test]
fn a_dump_is_read_as_it_was(rt: HostRuntime) -> Result<(), Fail> {
    let read = read_dump(rt.alloc(), OTHER_DUMP.as_bytes());
    assert!(rt; matches!(&read, Ok(dump) if is_other_dump(dump)));
    Ok(())
}

// The line that tells the fault of a text, or `read`.
fn said(alloc: Global, text: &[u8]) -> Result<String, AllocError> {
    match read_dump(alloc, text) {
        Ok(_) => String::from_str(alloc, "read"),
        Err(DumpFault::TooLong) => String::from_str(alloc, "too long"),
        Err(DumpFault::Line { line }) => numbered_line(alloc, "line ", line as u64),
        Err(DumpFault::Memory) => String::from_str(alloc, "memory"),
    }
}

// In each row a part of the first dump, what stands in its place, and what is said of the text.
const CHANGED: [(&str, &str, &str); 28] = [
    ("1\n", "2\n", "line 0"),
    ("orca", " orca", "line 0"),
    ("131072", "64", "read"),
    ("131072", "63", "line 1"),
    ("131072", "1048576", "read"),
    ("131072", "1048577", "line 1"),
    ("131072", "0131072", "line 1"),
    ("131072", "+131072", "line 1"),
    ("131072", "", "line 1"),
    ("capacity 131072\n", "", "line 1"),
    ("root one", "root spread", "read"),
    ("root one", "root one ", "line 2"),
    ("root one", "root two", "line 2"),
    ("off", "off JoinCommute+JoinToHash", "read"),
    ("off", "off JoinToHash+JoinCommute", "line 3"),
    ("off", "off JoinCommute+JoinCommute", "line 3"),
    ("off", "off ExpandNAry", "line 3"),
    ("off", "off ", "line 3"),
    ("print memo", "print", "read"),
    ("print memo", "print trace", "read"),
    ("print memo", "print trace memo", "line 4"),
    ("print memo", "print memo memo", "line 4"),
    ("catalog {", "catalog \n{", "line 6"),
    ("catalog {", "catalog{", "line 5"),
    ("query SELECT", "query:SELECT", "line 6"),
    ("query SELECT", "query \nSELECT", "read"),
    (" ORDER BY T1.a\n", "", "line 6"),
    ("query SELECT", "SELECT", "line 6"),
];

#[test]
fn the_first_line_that_is_not_of_the_form_is_told(rt: HostRuntime) -> Result<(), Fail> {
    for (old, new, wanted) in &CHANGED {
        let text = DUMP.replacen(rt.alloc(), *old, *new, 1)?;
        let told = said(rt.alloc(), text.as_bytes())?;
        assert_told(&rt, &told, wanted, new);
    }
    Ok(())
}

#[test]
fn a_text_that_ends_early_lacks_a_line(rt: HostRuntime) -> Result<(), Fail> {
    for (text, wanted) in &[
        ("", "line 0"),
        ("orca dump 1", "line 0"),
        ("orca dump 1\n", "line 1"),
        (
            "orca dump 1\ncapacity 64\nroot one\noff\nprint\ncatalog \nquery ",
            "line 6",
        ),
        (
            "orca dump 1\ncapacity 64\nroot one\noff\nprint\ncatalog \nquery \n",
            "read",
        ),
    ] {
        let told = said(rt.alloc(), text.as_bytes())?;
        assert_told(&rt, &told, wanted, text);
    }
    Ok(())
}

// Asserts what is said of a dump of this length, whose query has line feeds alone.
fn assert_length(rt: &(impl Abort + AllocGlobal), length: usize, wanted: &str) -> Result<(), Fail> {
    let alloc = rt.alloc();
    let front = "orca dump 1\ncapacity 64\nroot one\noff\nprint\ncatalog \nquery ";
    let feeds = "\n".repeat(alloc, length.saturating_sub(front.len()))?;
    let text = format!(in alloc; "{front}{feeds}")?;
    let told = said(alloc, text.as_bytes())?;
    assert_told(rt, &told, wanted, "a long dump");
    Ok(())
}

#[test]
fn a_dump_has_a_greatest_length(rt: HostRuntime) -> Result<(), Fail> {
    assert_length(&rt, 1_179_648, "read")?;
    assert_length(&rt, 1_179_649, "too long")
}
