//! The canonical text of a query.
use sql_print::print_sql;
use sql_reader::read_sql;
use std::alloc::Global;
use std::test::Fail;

// The canonical text of what the text reads as.
fn reprinted(alloc: Global, text: &[u8]) -> Result<Vec<u8>, Fail> {
    let select = read_sql(alloc, text).ok().ok_or("the text is a query")?;
    Ok(print_sql(alloc, &select)?)
}

// A text, and the canonical one.
const TEXTS: [(&[u8], &[u8]); 6] = [
    (
        b"select T1.a from T1,T2 where T1.a=T2.b order by T1.a asc;",
        b"SELECT T1.a FROM T1, T2 WHERE T1.a = T2.b ORDER BY T1.a",
    ),
    (
        b"Select count ( * ), Sum(t.a) as s -- sums\n From t as x, u y Where a!=-0 and b>='it''s'",
        b"SELECT COUNT(*), SUM(t.a) AS s FROM t AS x, u AS y WHERE a <> 0 AND b >= 'it''s'",
    ),
    (
        b"SELECT a FROM t WHERE a < 9223372036854775807 AND a > -9223372036854775807",
        b"SELECT a FROM t WHERE a < 9223372036854775807 AND a > -9223372036854775807",
    ),
    (
        b"select min(a),max(b) from count group by a,t.b order by a desc,b",
        b"SELECT MIN(a), MAX(b) FROM count GROUP BY a, t.b ORDER BY a DESC, b",
    ),
    (
        b"SELECT a FROM t WHERE a = ''''",
        b"SELECT a FROM t WHERE a = ''''",
    ),
    (b"SELECT a_1 FROM t-- the end", b"SELECT a_1 FROM t"),
];

#[test]
fn prints_the_canonical_text(rt: HostRuntime) -> Result<(), Fail> {
    for (text, expected) in &TEXTS {
        assert!(rt; reprinted(rt.alloc(), text)?.as_slice() == *expected);
    }
    Ok(())
}
