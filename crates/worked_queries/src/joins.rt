//! Queries of several tables, without aggregates.

ghost use Rattle.query_core.specs.Results.{AreOptions};

use crate::worked::{worked, worked_without};
use query_core::{CmpOp, Query, RootDist};
use std::alloc::Global;
use std::test::Fail;

const A_THOUSAND_EACH: &str =
    r#"[{"name":"T1","rows":1000,"distribution":"random","columns":[{"name":"a","ndv":1000}]},
{"name":"T2","rows":1000,"distribution":"random","columns":[{"name":"b","ndv":500}]}]"#;

const UNLINKED: &str =
    r#"[{"name":"t","rows":100,"distribution":"random","columns":[{"name":"a","ndv":10}]},
{"name":"u","rows":10,"distribution":"random","columns":[{"name":"b","ndv":10}]}]"#;

const FOUR: &str =
    r#"[{"name":"A","rows":100,"distribution":"random","columns":[{"name":"a","ndv":10}]},
{"name":"B","rows":100,"distribution":"random","columns":[{"name":"a","ndv":10}]},
{"name":"C","rows":100,"distribution":"random","columns":[{"name":"a","ndv":10}]},
{"name":"D","rows":100,"distribution":"random","columns":[{"name":"a","ndv":10}]}]"#;

const ONE_FILTERED: &str =
    r#"[{"name":"T","rows":10,"distribution":"random","columns":[{"name":"a","ndv":10}]},
{"name":"U","rows":10,"distribution":"random","columns":[{"name":"x","ndv":10}]},
{"name":"V","rows":10,"distribution":"random","columns":[{"name":"y","ndv":10}]}]"#;

/// The running example: two tables, each hashed on a, of which one is joined on b.
pub fn two_tables(alloc: Global) -> Result<Query, Fail> {
    worked(
        alloc,
        r#"[{"name":"T1","rows":1000,"distribution":["a"],"columns":[{"name":"a","ndv":1000}]},
{"name":"T2","rows":1000,"distribution":["a"],"columns":[{"name":"a","ndv":1000},{"name":"b","ndv":500}]}]"#,
        "SELECT T1.a FROM T1, T2 WHERE T1.a = T2.b ORDER BY T1.a",
    )
}

/// The same with an index on the column on which the second table is joined, in descending order.
pub fn two_tables_descending(alloc: Global) -> Result<Query, Fail> {
    worked(
        alloc,
        r#"[{"name":"T1","rows":1000,"distribution":["a"],"columns":[{"name":"a","ndv":1000}]},
{"name":"T2","rows":1000,"distribution":["a"],"indexes":[["b"]],
"columns":[{"name":"a","ndv":1000},{"name":"b","ndv":1000}]}]"#,
        "SELECT T1.a, T2.b AS c FROM T1, T2 WHERE T1.a = T2.b ORDER BY T1.a DESC",
    )
}

/// Two tables that are joined on the columns by which they are hashed.
pub fn hashed_alike(alloc: Global) -> Result<Query, Fail> {
    worked(
        alloc,
        r#"[{"name":"T1","rows":1000,"distribution":["a"],"columns":[{"name":"a","ndv":1000}]},
{"name":"T2","rows":1000,"distribution":["a"],"columns":[{"name":"a","ndv":1000}]}]"#,
        "SELECT T1.a FROM T1, T2 WHERE T1.a = T2.a",
    )
}

/// A large table and a small one.
pub fn large_and_small(alloc: Global) -> Result<Query, Fail> {
    worked(
        alloc,
        r#"[{"name":"b","rows":100000,"distribution":"random","columns":[{"name":"x","ndv":1000}]},
{"name":"s","rows":10,"distribution":"random","columns":[{"name":"y","ndv":10}]}]"#,
        "SELECT b.x FROM b, s WHERE b.x = s.y",
    )
}

/// Two tables with as many rows as there can be, all alike.
pub fn huge_tables(alloc: Global) -> Result<Query, Fail> {
    worked(
        alloc,
        r#"[{"name":"T1","rows":1000000000000,"distribution":"random","columns":[{"name":"a","ndv":1}]},
{"name":"T2","rows":1000000000000,"distribution":"random","columns":[{"name":"b","ndv":1}]}]"#,
        "SELECT T1.a FROM T1, T2 WHERE T1.a < T2.b",
    )
}

/// Two tables that are joined by this comparison of a and b, without the rules that are off.
pub fn compared_tables(alloc: Global, op: CmpOp, off: u32) -> Result<Query, Fail>
    requires { AreOptions (record { root = RootDist.One; off = off }) }
{
    let sign = sign_of(op);
    let text = format!(in alloc; "SELECT T1.a FROM T1, T2 WHERE T1.a {sign} T2.b")?;
    worked_without(alloc, A_THOUSAND_EACH, &text, off)
}

fn sign_of(op: CmpOp) -> &'static str {
    match op {
        CmpOp::Eq => "=",
        CmpOp::Ne => "<>",
        CmpOp::Lt => "<",
        CmpOp::Le => "<=",
        CmpOp::Gt => ">",
        CmpOp::Ge => ">=",
    }
}

/// Two tables that no predicate links.
pub fn cross_product(alloc: Global) -> Result<Query, Fail> {
    worked(alloc, UNLINKED, "SELECT t.a FROM t, u")
}

/// The same where no rule may join by a loop, so that there is no plan.
pub fn without_a_plan(alloc: Global) -> Result<Query, Fail> {
    worked_without(alloc, UNLINKED, "SELECT t.a FROM t, u", 2048)
}

/// Three tables of which a predicate links the last two, and another filters one of these.
pub fn one_linked_pair(alloc: Global) -> Result<Query, Fail> {
    one_linked_pair_without(alloc, 0)
}

/// The same without the rules that are off.
pub fn one_linked_pair_without(alloc: Global, off: u32) -> Result<Query, Fail>
    requires { AreOptions (record { root = RootDist.One; off = off }) }
{
    let text = "SELECT T.a FROM T, U, V WHERE U.x < 5 AND U.x = V.y";
    worked_without(alloc, ONE_FILTERED, text, off)
}

/// Two tables with an equality across them and one within the first, which is hashed and has an index on its columns.
pub fn two_equalities(alloc: Global) -> Result<Query, Fail> {
    worked(
        alloc,
        r#"[{"name":"A","rows":100,"distribution":["x","y"],"indexes":[["x","y"]],
"columns":[{"name":"x","ndv":10},{"name":"y","ndv":10}]},
{"name":"B","rows":100,"distribution":"random","columns":[{"name":"z","ndv":10},{"name":"w","ndv":10}]}]"#,
        "SELECT A.x FROM A, B WHERE A.x = B.z AND A.x = A.y AND A.y < B.w ORDER BY A.x DESC",
    )
}

/// Three tables, each joined with the next.
pub fn chain(alloc: Global) -> Result<Query, Fail> {
    worked(
        alloc,
        r#"[{"name":"a","rows":100,"distribution":"random","columns":[{"name":"x","ndv":10}]},
{"name":"b","rows":1000,"distribution":"random","columns":[{"name":"x","ndv":100}]},
{"name":"c","rows":10,"distribution":"random","columns":[{"name":"x","ndv":5}]}]"#,
        "SELECT a.x FROM a, b, c WHERE a.x = b.x AND b.x = c.x",
    )
}

/// Three tables, each joined with each other.
pub fn cycle(alloc: Global) -> Result<Query, Fail> {
    worked(
        alloc,
        r#"[{"name":"A","rows":100,"distribution":"random","columns":[{"name":"x","ndv":10}]},
{"name":"B","rows":100,"distribution":"random","columns":[{"name":"x","ndv":10}]},
{"name":"C","rows":100,"distribution":"random","columns":[{"name":"x","ndv":10}]}]"#,
        "SELECT A.x FROM A, B, C WHERE A.x = B.x AND B.x = C.x AND A.x = C.x",
    )
}

/// The same with two equalities of one pair.
pub fn cycle_of_four_predicates(alloc: Global) -> Result<Query, Fail> {
    worked(
        alloc,
        r#"[{"name":"A","rows":100,"distribution":"random",
"columns":[{"name":"x","ndv":10},{"name":"y","ndv":10},{"name":"w","ndv":10}]},
{"name":"B","rows":100,"distribution":"random",
"columns":[{"name":"x","ndv":10},{"name":"y","ndv":10},{"name":"z","ndv":10}]},
{"name":"C","rows":100,"distribution":"random","columns":[{"name":"z","ndv":10},{"name":"w","ndv":10}]}]"#,
        "SELECT A.x FROM A, B, C WHERE A.x = B.x AND A.y = B.y AND B.z = C.z AND A.w = C.w",
    )
}

/// Four tables, each joined with the next.
pub fn chain_of_four(alloc: Global) -> Result<Query, Fail> {
    chain_of_four_without(alloc, 0)
}

/// The same without the rules that are off.
pub fn chain_of_four_without(alloc: Global, off: u32) -> Result<Query, Fail>
    requires { AreOptions (record { root = RootDist.One; off = off }) }
{
    let text = "SELECT A.a FROM A, B, C, D WHERE A.a = B.a AND B.a = C.a AND C.a = D.a";
    worked_without(alloc, FOUR, text, off)
}

/// Four tables, of which the first is joined with each other.
pub fn star_of_four(alloc: Global) -> Result<Query, Fail> {
    star_of_four_without(alloc, 0)
}

/// The same without the rules that are off.
pub fn star_of_four_without(alloc: Global, off: u32) -> Result<Query, Fail>
    requires { AreOptions (record { root = RootDist.One; off = off }) }
{
    let text = "SELECT A.a FROM A, B, C, D WHERE A.a = B.a AND A.a = C.a AND A.a = D.a";
    worked_without(alloc, FOUR, text, off)
}
