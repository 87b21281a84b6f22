//! Queries of one table, without aggregates.

use crate::worked::worked;
use query_core::Query;
use std::alloc::Global;
use std::test::Fail;

/// All values of a column of a table that has so many rows, from 1 to 10^12, at random places.
pub fn one_table(alloc: Global, rows: u64) -> Result<Query, Fail> {
    let tables = format!(in alloc;
        r#"[{{"name":"t","rows":{rows},"distribution":"random","columns":[{{"name":"a","ndv":1000}}]}}]"#
    )?;
    worked(alloc, &tables, "SELECT t.a FROM t")
}

/// The same of 1,000 rows, in order.
pub fn sorted_table(alloc: Global) -> Result<Query, Fail> {
    worked(
        alloc,
        r#"[{"name":"t","rows":1000,"distribution":"random","columns":[{"name":"a","ndv":1000}]}]"#,
        "SELECT t.a FROM t ORDER BY t.a",
    )
}

/// One value of a column by which the table is hashed and that has an index.
pub fn filtered_table(alloc: Global) -> Result<Query, Fail> {
    worked(
        alloc,
        r#"[{"name":"t","rows":1000,"distribution":["a"],"indexes":[["a"]],"columns":[{"name":"a","ndv":100}]}]"#,
        "SELECT t.a FROM t WHERE t.a = 5",
    )
}

/// A table with three indexes, filtered by columns of each.
pub fn three_indexes(alloc: Global) -> Result<Query, Fail> {
    worked(
        alloc,
        r#"[{"name":"t","rows":1000,"distribution":"random","indexes":[["a"],["b","a"],["b"]],
"columns":[{"name":"a","ndv":10},{"name":"b","ndv":10}]}]"#,
        "SELECT t.a FROM t WHERE t.a <> 1 AND t.b < 5",
    )
}

/// The rows that meet a condition, of a table of so many. Its column `a` has this histogram, in JSON, and its column
/// `b` has none.
pub fn ranged_table(
    alloc: Global,
    rows: u64,
    histogram: &str,
    condition: &str,
) -> Result<Query, Fail> {
    let tables = format!(in alloc;
        r#"[{{"name":"t","rows":{rows},"distribution":"random",
"columns":[{{"name":"a","ndv":100,"histogram":{histogram}}},{{"name":"b","ndv":10}}]}}]"#
    )?;
    let text = format!(in alloc; "SELECT a FROM t WHERE {condition}")?;
    worked(alloc, &tables, &text)
}
