//! What the program prints for grouped queries.
use crate::runs::{ONE_TABLE, assert_plans, assert_printed};
use orca_cli::Status;
use std::test::Fail;

const HASHED: &str = r#"{"version":1,"segments":4,"tables":[
{"name":"t","rows":1000,"distribution":["a"],"columns":[{"name":"a","ndv":100},{"name":"b","ndv":10}]}]}"#;

// Queries over the table at random places, each with its plan below it.
const OVER_ONE_TABLE: &str = "SELECT COUNT(*) FROM t
cost 771
output COUNT(*)
HashAgg(one) rows=1 cost=10
  Gather rows=4 cost=9
    PartialAgg rows=4 cost=501
      Scan(t) rows=1000 cost=251";

// The same over the hashed table.
const OVER_HASHED: &str = "SELECT a, COUNT(*) FROM t GROUP BY a
cost 978
output t.a, COUNT(*)
Gather rows=100 cost=201
  HashAgg(hashed t.a) rows=100 cost=526
    Scan(t) rows=1000 cost=251

SELECT b, COUNT(*) FROM t GROUP BY b, b
cost 838
output t.b, COUNT(*)
Gather rows=10 cost=21
  HashAgg(hashed t.b) rows=10 cost=24
    Redistribute(t.b) rows=40 cost=41
      PartialAgg rows=40 cost=501
        Scan(t) rows=1000 cost=251

SELECT a, SUM(b) AS s FROM t GROUP BY a ORDER BY s
cost 1204
output t.a, SUM(t.b) AS s
GatherMerge(s) rows=100 cost=301
  Sort(s) rows=100 cost=126
    HashAgg(hashed t.a) rows=100 cost=526
      Scan(t) rows=1000 cost=251";

#[test]
fn prints_the_least_plan_of_each_grouping(rt: HostRuntime) -> Result<(), Fail> {
    assert_plans(&rt, ONE_TABLE, OVER_ONE_TABLE)?;
    assert_plans(&rt, HASHED, OVER_HASHED)
}

#[test]
fn the_one_row_of_an_aggregate_is_never_spread(rt: HostRuntime) -> Result<(), Fail> {
    assert_printed(
        &rt,
        "plan c.json q.sql --root spread",
        ONE_TABLE.as_bytes(),
        b"SELECT COUNT(*) FROM t",
        Status::NoPlan,
        "no plan\n",
    )
}
