use crate::catalog_tests::TWO_TABLES;
use crate::sql_tests::told_of_text;
use crate::texts::{assert_told, numbered, numbered_line, push_number};
use catalog_json::read_catalog;
use query_core::{Catalog, Item, Link, Operand, Options, OrderKey, OutItem, Pred, Query, RootDist};
use sql_bind::{BindFault, bind};
use sql_reader::read_sql;
use std::alloc::{AllocError, AllocGlobal, Global};
use std::process::Abort;
use std::test::Fail;

const PLAIN: Options = Options {
    root: RootDist::One,
    off: 0,
};

fn told(alloc: Global, fault: BindFault) -> Result<String, AllocError> {
    let (words, number) = match fault {
        BindFault::UnknownTable { at } => ("unknown table at ", at),
        BindFault::TwiceAlias { at } => ("name twice at ", at),
        BindFault::UnknownColumn { at } => ("unknown column at ", at),
        BindFault::Ambiguous { at } => ("ambiguous column at ", at),
        BindFault::NotGrouped { at } => ("not grouped at ", at),
        BindFault::TooManyItems { found } => ("too many columns: ", found),
        BindFault::Memory => return String::from_str(alloc, "memory"),
    };
    numbered_line(alloc, words, number as u64)
}

fn push_items(text: &mut String, items: &[Item]) -> Result<(), AllocError> {
    for item in items {
        push_number(text, item.table as u64, ".")?;
        text.push_str(item.name.as_str())?;
        text.push_str("/")?;
        push_number(text, item.ndv, " ")?;
    }
    Ok(())
}

fn push_operand(text: &mut String, operand: &Operand) -> Result<(), AllocError> {
    match operand {
        Operand::Item(item) => {
            text.push_str("i")?;
            push_number(text, *item as u64, " ")
        }
        Operand::Int(_) => text.push_str("n "),
        Operand::Str(_) => text.push_str("s "),
    }
}

fn push_preds(text: &mut String, preds: &[Pred]) -> Result<(), AllocError> {
    for pred in preds {
        push_number(text, pred.left as u64, ":")?;
        push_operand(text, &pred.right)?;
    }
    Ok(())
}

fn push_links(text: &mut String, links: &[Link]) -> Result<(), AllocError> {
    for link in links {
        push_number(text, link.a as u64, "-")?;
        push_number(text, link.b as u64, " ")?;
    }
    Ok(())
}

fn push_groups(text: &mut String, columns: &[u32]) -> Result<(), AllocError> {
    for column in columns {
        push_number(text, *column as u64, " ")?;
    }
    Ok(())
}

fn push_output(text: &mut String, output: &[OutItem]) -> Result<(), AllocError> {
    for item in output {
        push_number(text, item.item as u64, " ")?;
    }
    Ok(())
}

fn push_order(text: &mut String, order: &[OrderKey]) -> Result<(), AllocError> {
    for key in order {
        text.push_str(" ")?;
        push_number(text, key.item as u64, if key.desc { "-" } else { "+" })?;
    }
    Ok(())
}

// The items, predicates, links, groups and aggregates, output and order of a query.
fn push_query(text: &mut String, query: &Query) -> Result<(), AllocError> {
    push_items(text, query.items.as_slice())?;
    text.push_str("where ")?;
    push_preds(text, query.preds.as_slice())?;
    text.push_str("links ")?;
    push_links(text, query.links.as_slice())?;
    text.push_str("group ")?;
    push_groups(text, query.group_by.as_slice())?;
    text.push_str("output ")?;
    push_output(text, query.output.as_slice())?;
    text.push_str("order")?;
    push_order(text, query.order.as_slice())
}

fn shown(alloc: Global, query: &Query) -> Result<String, AllocError> {
    let mut text = String::new(alloc);
    push_query(&mut text, query)?;
    Ok(text)
}

fn said_over(alloc: Global, catalog: &Catalog, text: &str) -> Result<String, AllocError> {
    if !catalog.keeps_limits() {
        return String::from_str(alloc, "no catalogue");
    }
    match read_sql(alloc, text.as_bytes()) {
        Err(fault) => told_of_text(alloc, fault),
        Ok(select) => match bind(alloc, &select, catalog, PLAIN) {
            Ok(query) => shown(alloc, &query),
            Err(fault) => told(alloc, fault),
        },
    }
}

// What is said of the text of a query over the text of a catalogue.
fn said(alloc: Global, catalog: &str, text: &str) -> Result<String, AllocError> {
    match read_catalog(alloc, catalog.as_bytes()) {
        Err(_) => String::from_str(alloc, "no catalogue"),
        Ok(catalog) => said_over(alloc, &catalog, text),
    }
}

// In each line a query over the two tables, and what is said of it.
const REFUSED: &str = "SELECT T1.z FROM T1 | unknown column at 7
SELECT a FROM T1, T2 | ambiguous column at 7
SELECT T2.b FROM T2 GROUP BY T2.a | not grouped at 7
SELECT T1.a FROM T1, T2 AS T1 | name twice at 27
SELECT x FROM T9 | unknown table at 14
SELECT a FROM T1 WHERE a = 'x | token at 27
SELECT a FROM t,t,t,t,t,t,t,t,t,t,t | too many tables at 34
 | grammar at 0
; | grammar at 0
SELECT a FROM T1, T1 u, T2 u | name twice at 27
SELECT T3.a FROM T2 | unknown column at 7
SELECT T2.a FROM T2 WHERE b = c | unknown column at 30
SELECT a AS x, b AS x FROM T2 | name twice at 20
SELECT a, COUNT(*) FROM T2 | not grouped at 7
SELECT COUNT(*) AS n FROM T2 GROUP BY a ORDER BY b | not grouped at 49
";

// Asserts what is said of the query in each line.
fn assert_lines(rt: &(impl Abort + AllocGlobal), lines: &str) -> Result<(), Fail> {
    for line in lines.lines() {
        let (text, want) = line.split_once(" | ").ok_or("a line has two parts")?;
        let told = said(rt.alloc(), TWO_TABLES, text)?;
        assert_told(rt, &told, want, text);
    }
    Ok(())
}

#[test]
fn refused_queries_are_told_the_first_fault(rt: HostRuntime) -> Result<(), Fail> {
    assert_lines(&rt, REFUSED)
}

// The same of queries that are bound, each with what it is bound to.
const BOUND: &str =
    "SELECT T1.a FROM T1, T2 | 0.a/1000 1.a/1000 where links 0-1 group output 0 order
SELECT a AS b FROM T2 ORDER BY b | 0.a/1000 where links group output 0 order 0+
SELECT b AS x, COUNT(*), SUM(T2.a) AS s FROM T2, T1 AS u WHERE T2.b = 5 AND u.a = T2.a \
    GROUP BY b, b ORDER BY s DESC, x, b DESC | \
    0.a/1000 0.b/500 1.a/1000 where 1:n 2:i0 links 1-0 group 1 output 1 3 4 order 4- 1+
";

#[test]
fn queries_are_bound(rt: HostRuntime) -> Result<(), Fail> {
    assert_lines(&rt, BOUND)
}

// A catalogue of one table, t, of 61 columns, c0 and so on.
fn wide_catalog(alloc: Global) -> Result<String, AllocError> {
    let mut text = String::from_str(
        alloc,
        r#"{"version":1,"segments":1,"tables":[{"name":"t","rows":1000,"distribution":["c0"],"columns":["#,
    )?;
    text.push_str(&numbered(alloc, r#"{"name":"c"#, r#"","ndv":1}"#, 61)?)?;
    text.push_str("]}]}")?;
    Ok(text)
}

// What is said of a query of so many of these columns, with this end.
fn said_of_columns(alloc: Global, count: u64, end: &str) -> Result<String, AllocError> {
    let mut text = String::from_str(alloc, "SELECT ")?;
    text.push_str(&numbered(alloc, "c", "", count)?)?;
    text.push_str(" FROM t")?;
    text.push_str(end)?;
    said(alloc, &wide_catalog(alloc)?, &text)
}

#[test]
fn sixty_items_are_the_most(rt: HostRuntime) -> Result<(), Fail> {
    let bound = said_of_columns(rt.alloc(), 60, "")?;
    assert!(rt; bound.as_str().starts_with("0.c0/1 0.c1/1 "));
    let refused = said_of_columns(rt.alloc(), 60, " WHERE c60 = 1")?;
    assert!(rt; refused.as_str() == "too many columns: 61");
    Ok(())
}
