//! The catalogue and the query of a number, a count of tables and a shape.
use query_generator::{GenShape, generate};
use std::test::Fail;

const ONE_TABLE: &str = "{\"version\":1,\"segments\":4,\"tables\":[\
    {\"name\":\"t0\",\"rows\":14900,\"distribution\":[\"id\"],\
    \"columns\":[{\"name\":\"id\",\"ndv\":14900},{\"name\":\"f\",\"ndv\":250}]}]}";

const TWO_TABLES: &str = "{\"version\":1,\"segments\":4,\"tables\":[\
    {\"name\":\"t0\",\"rows\":14900,\"distribution\":[\"id\"],\
    \"columns\":[{\"name\":\"id\",\"ndv\":14900},{\"name\":\"f\",\"ndv\":250}]},\
    {\"name\":\"t1\",\"rows\":5730500,\"distribution\":\"random\",\
    \"columns\":[{\"name\":\"id\",\"ndv\":5730500},{\"name\":\"f\",\"ndv\":45}]}]}";

// A number, a count of tables, and the catalogue.
const CATALOGS: [(u64, u32, &str); 3] = [
    (1, 1, ONE_TABLE),
    (1, 2, TWO_TABLES),
    (65_538, 1, ONE_TABLE),
];

#[test]
fn texts_are_those_of_the_number(rt: HostRuntime) -> Result<(), Fail> {
    for (number, tables, want) in &CATALOGS {
        let (catalog, _) = generate(rt.alloc(), *number, *tables, GenShape::Chain)?;
        assert!(rt; catalog.as_slice() == want.as_bytes(), "{number} {tables}");
    }
    Ok(())
}

// A count of tables, a shape, and the query.
const QUERIES: [(u32, GenShape, &str); 4] = [
    (1, GenShape::Chain, "SELECT t0.id FROM t0 ORDER BY t0.id"),
    (
        3,
        GenShape::Chain,
        "SELECT t0.id FROM t0, t1, t2 WHERE t0.f = t1.id AND t1.f = t2.id ORDER BY t0.id",
    ),
    (
        3,
        GenShape::Star,
        "SELECT t0.id FROM t0, t1, t2 WHERE t0.f = t1.id AND t0.f = t2.id ORDER BY t0.id",
    ),
    (
        3,
        GenShape::Clique,
        "SELECT t0.id FROM t0, t1, t2 WHERE t0.f = t1.id AND t0.f = t2.id AND t1.f = t2.id ORDER BY t0.id",
    ),
];

#[test]
fn shapes_join_their_tables(rt: HostRuntime) -> Result<(), Fail> {
    for (tables, shape, want) in &QUERIES {
        let (_, query) = generate(rt.alloc(), 0, *tables, *shape)?;
        assert!(rt; query.as_slice() == want.as_bytes(), "{want}");
    }
    Ok(())
}
