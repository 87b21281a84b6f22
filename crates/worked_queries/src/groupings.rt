//! Queries by groups of the rows of one table.

use crate::worked::worked;
use query_core::Query;
use std::alloc::Global;
use std::test::Fail;

/// The rows of each group, in the order of the groups.
pub fn grouped(alloc: Global) -> Result<Query, Fail> {
    worked(
        alloc,
        r#"[{"name":"t","rows":1000,"distribution":"random","columns":[{"name":"b","ndv":10}]}]"#,
        "SELECT COUNT(*), t.b FROM t GROUP BY t.b ORDER BY t.b",
    )
}

/// The rows of each group, of a table that is hashed by another column, which has an index.
pub fn hashed_count(alloc: Global) -> Result<Query, Fail> {
    worked(
        alloc,
        r#"[{"name":"t","rows":1000,"distribution":["a"],"indexes":[["a"]],
"columns":[{"name":"a","ndv":100},{"name":"b","ndv":10}]}]"#,
        "SELECT COUNT(*) FROM t GROUP BY t.b",
    )
}

/// The rows of each group of a filtered table with two indexes.
pub fn filtered_count(alloc: Global) -> Result<Query, Fail> {
    worked(
        alloc,
        r#"[{"name":"t","rows":100000,"distribution":"random","indexes":[["a"],["b","a"]],
"columns":[{"name":"a","ndv":100},{"name":"b","ndv":10}]}]"#,
        "SELECT COUNT(*) FROM t WHERE t.a = 5 GROUP BY t.b",
    )
}

/// The rows and a sum of each group of a filtered table, in the descending order of the sums.
pub fn totals(alloc: Global) -> Result<Query, Fail> {
    worked(
        alloc,
        r#"[{"name":"t","rows":1000,"distribution":["a"],"indexes":[["a"]],
"columns":[{"name":"a","ndv":10},{"name":"b","ndv":10}]}]"#,
        "SELECT COUNT(*), SUM(t.a) AS total, t.b FROM t WHERE t.a = 5 GROUP BY t.b ORDER BY total DESC, t.b",
    )
}

/// The rows of each group by two columns, in the order of one of these, b or c.
pub fn per_group(alloc: Global, ordered_by: &str) -> Result<Query, Fail> {
    let text = format!(in alloc;
        "SELECT COUNT(*) FROM t WHERE b >= 5 GROUP BY b, c ORDER BY {ordered_by}"
    )?;
    worked(
        alloc,
        r#"[{"name":"t","rows":1000,"distribution":["a"],"indexes":[["b","c","a"]],
"columns":[{"name":"a","ndv":100},{"name":"b","ndv":10},{"name":"c","ndv":4}]}]"#,
        &text,
    )
}
