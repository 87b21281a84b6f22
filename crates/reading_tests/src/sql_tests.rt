use crate::texts::{assert_told, numbered_line};
use sql_reader::{Limit, SqlFault, read_sql};
use std::alloc::{AllocError, Global};
use std::test::Fail;

fn too_many(what: Limit) -> &'static str {
    match what {
        Limit::Items => "too many items at ",
        Limit::Tables => "too many tables at ",
        Limit::Predicates => "too many predicates at ",
        Limit::GroupBy => "too many group columns at ",
        Limit::OrderBy => "too many order keys at ",
    }
}

/// The line that tells the fault.
pub fn told_of_text(alloc: Global, fault: SqlFault) -> Result<String, AllocError> {
    let (words, at) = match fault {
        SqlFault::TooLong => return String::from_str(alloc, "too long"),
        SqlFault::NotAscii { at } => ("not ASCII at ", at),
        SqlFault::Token { at } => ("token at ", at),
        SqlFault::Grammar { at } => ("grammar at ", at),
        SqlFault::TooMany { what, at } => (too_many(what), at),
        SqlFault::Memory => return String::from_str(alloc, "memory"),
    };
    numbered_line(alloc, words, at as u64)
}

// The line that tells the fault of a text, or `read`.
fn said(alloc: Global, text: &[u8]) -> Result<String, AllocError> {
    match read_sql(alloc, text) {
        Ok(_) => String::from_str(alloc, "read"),
        Err(fault) => told_of_text(alloc, fault),
    }
}

// In each line a text, and what is said of it. The first text is empty.
const REFUSED: &str = " | grammar at 0
; | grammar at 0
SELECT a FROM T1 WHERE a = 'x | token at 27
SELECT a FROM t,t,t,t,t,t,t,t,t,t,t | too many tables at 34
SELECT a FROM t WHERE a = 9223372036854775808 | token at 26
SELECT a FROM t WHERE a = -9223372036854775808 | token at 26
SELECT a FROM t WHERE a = 5x | token at 26
SELECT a\0 FROM t | token at 8
SELECT a FROM t;; | grammar at 16
SELECT a FROM t GROUP | grammar at 21
SELECT COUNT(*) FROM t WHERE | grammar at 28
SELECT a FROM t WHERE 5 = a | grammar at 22
SELECT a b FROM t | grammar at 9
SELECT a FROM t ORDER BY a, a, a, a, a, a, a, a, a | too many order keys at 49
SELECT a FROM t WHERE a LIKE 'x' | grammar at 24
SELECT a FROM t,t,t,t,t,t,t,t,t,t, | grammar at 34
SELECT a FROM t,t,t,t,t,t,t,t,t,t,5 | grammar at 34
SELECT a FROM count( | grammar at 14
SELECT a FROM count \x01( | token at 20
SELECT a FROM t -- x\x7f | token at 20
SELECT limit FROM t | grammar at 7
SELECT a FROM t WHERE a ! = b | token at 24
SELECT a FROM t WHERE a = 'it'' | token at 26
";

#[test]
fn refuses_with_the_first_fault(rt: HostRuntime) -> Result<(), Fail> {
    for line in REFUSED.lines() {
        let (text, want) = line.split_once(" | ").ok_or("a line has two parts")?;
        let told = said(rt.alloc(), text.as_bytes())?;
        assert_told(&rt, &told, want, text);
    }
    Ok(())
}

const NO_TEXTS: [(&[u8], &str); 3] = [
    (b"SELECT \xc3 FROM t", "not ASCII at 7"),
    (b"SELECT 'a\xff' FROM t", "grammar at 7"),
    (b"SELECT a FROM t WHERE a = 'x\xff", "token at 26"),
];

#[test]
fn bytes_that_are_no_text_are_refused_at_their_place(rt: HostRuntime) -> Result<(), Fail> {
    for (text, want) in &NO_TEXTS {
        let told = said(rt.alloc(), text)?;
        assert_told(&rt, &told, want, "bytes");
    }
    Ok(())
}

// What is said of a text of one part, others of one kind and an end.
fn said_of_parts(
    alloc: Global,
    first: &str,
    more: &str,
    count: usize,
    last: &str,
) -> Result<String, AllocError> {
    let others = more.repeat(alloc, count)?;
    let text = [first, &others, last].concat(alloc)?;
    said(alloc, text.as_bytes())
}

// The first part of a text, a further one, how many of these are the most, the end, and what is said where there is one
// more.
const EDGES: [(&str, &str, usize, &str, &str); 6] = [
    ("SELECT a", ",a", 59, " FROM t", "too many items at 127"),
    ("SELECT a FROM t", ",t", 9, "", "too many tables at 34"),
    (
        "SELECT a FROM t WHERE a=1",
        " AND a=1",
        39,
        "",
        "too many predicates at 342",
    ),
    (
        "SELECT a FROM t GROUP BY a",
        ",a",
        7,
        "",
        "too many group columns at 41",
    ),
    (
        "SELECT a FROM t ORDER BY a",
        ",a",
        7,
        "",
        "too many order keys at 41",
    ),
    ("SELECT a FROM t", " ", 65_521, "", "too long"),
];

#[test]
fn keeps_each_limit_to_its_edge(rt: HostRuntime) -> Result<(), Fail> {
    for (first, more, count, last, one_more) in &EDGES {
        let full = said_of_parts(rt.alloc(), first, more, *count, last)?;
        assert_told(&rt, &full, "read", first);
        let over = said_of_parts(rt.alloc(), first, more, count.saturating_add(1), last)?;
        assert_told(&rt, &over, one_more, first);
    }
    Ok(())
}
