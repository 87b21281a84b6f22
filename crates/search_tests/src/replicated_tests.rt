//! Least plans over tables that have all their rows on each segment, worked by hand.

ghost use Rattle.std.specs.Prelude.{◌<◌};
ghost use Rattle.query_core.specs.Results.{AreOptions};

use crate::nodes::native;
use crate::texts::assert_text;
use plan_check::{PlanFault, check_plan};
use plan_report::plan_text;
use plan_search::plain_least;
use plan_space::{Enforcer, NodeKind};
use plan_tree::{Node, Plan};
use query_core::{KeyParts, Options, Physical, RootDist};
use request_props::{Dist, Request};
use std::alloc::{AllocError, Global};
use std::process::Abort;
use std::test::Fail;
use worked_queries::{implied, query_over};

// ---- tables

const THOUSAND: &str =
    r#"[{"name":"t","rows":1000,"distribution":"replicated","columns":[{"name":"a","ndv":100}]}]"#;

const INDEXED: &str =
    r#"[{"name":"t","rows":1000,"distribution":"replicated","indexes":[["a"]],"columns":[{"name":"a","ndv":100}]}]"#;

const ONE_ROW: &str =
    r#"[{"name":"t","rows":1,"distribution":"replicated","columns":[{"name":"a","ndv":100}]}]"#;

const EMPTY: &str =
    r#"[{"name":"t","rows":0,"distribution":"replicated","indexes":[["a"]],"columns":[{"name":"a","ndv":100}]}]"#;

const AT_RANDOM: &str =
    r#"[{"name":"t","rows":1000,"distribution":"random","columns":[{"name":"a","ndv":100}]}]"#;

// ---- plans

const ROOT_ONE: Options = Options {
    root: RootDist::One,
    off: 0,
};

const ROOT_SPREAD: Options = Options {
    root: RootDist::Spread,
    off: 0,
};

// Asserts that this is printed of the least plan on so many segments.
fn assert_plan(
    rt: &(impl Abort + AllocGlobal),
    segments: u32,
    tables: &str,
    text: &str,
    options: Options,
    wanted: &str,
) -> Result<(), Fail>
    requires { AreOptions options }
{
    let query = query_over(rt.alloc(), segments, tables, text, options)?;
    let (query, props) = implied(rt.alloc(), query)?;
    let found = plain_least(rt.alloc(), &query, &props)?;
    let text = plan_text(rt.alloc(), &query, &props, &found)?;
    assert_text(rt, text.as_slice(), wanted);
    Ok(())
}

#[test]
fn the_rows_are_read_where_they_are_wanted(rt: HostRuntime) -> Result<(), Fail> {
    let all = "SELECT a FROM t";
    let one = "cost 1001\noutput t.a\nScan(t one) rows=1000 cost=1001\n";
    assert_plan(&rt, 4, THOUSAND, all, ROOT_ONE, one)?;
    let own = "cost 251\noutput t.a\nScan(t own) rows=1000 cost=251\n";
    assert_plan(&rt, 4, THOUSAND, all, ROOT_SPREAD, own)?;
    let alone = "cost 1001\noutput t.a\nScan(t own) rows=1000 cost=1001\n";
    assert_plan(&rt, 1, THOUSAND, all, ROOT_SPREAD, alone)
}

#[test]
fn a_table_without_rows_is_read_as_any_other(rt: HostRuntime) -> Result<(), Fail> {
    let all = "SELECT a FROM t";
    let one = "cost 1\noutput t.a\nScan(t one) rows=0 cost=1\n";
    assert_plan(&rt, 4, EMPTY, all, ROOT_ONE, one)?;
    let own = "cost 1\noutput t.a\nScan(t own) rows=0 cost=1\n";
    assert_plan(&rt, 4, EMPTY, all, ROOT_SPREAD, own)?;
    let sorted = "cost 1\noutput t.a\nIndexScan(t, i0 one) rows=0 cost=1\n";
    let in_order = "SELECT a FROM t ORDER BY a";
    assert_plan(&rt, 4, EMPTY, in_order, ROOT_ONE, sorted)
}

const SORTED_SHARES: &str = "cost 5253
output t.a
GatherMerge(t.a) rows=1000 cost=3001
  Sort(t.a) rows=1000 cost=2001
    Scan(t own) rows=1000 cost=251
";

const SORTED_AT_ONE_PLACE: &str = "cost 11002
output t.a
Sort(t.a) rows=1000 cost=10001
  Scan(t one) rows=1000 cost=1001
";

#[test]
fn shares_are_sorted_and_merged_and_an_index_is_read_at_one_place(
    rt: HostRuntime,
) -> Result<(), Fail> {
    let sorted = "SELECT a FROM t ORDER BY a";
    assert_plan(&rt, 4, THOUSAND, sorted, ROOT_ONE, SORTED_SHARES)?;
    assert_plan(&rt, 1, THOUSAND, sorted, ROOT_ONE, SORTED_AT_ONE_PLACE)?;
    let one = "cost 2001\noutput t.a\nIndexScan(t, i0 one) rows=1000 cost=2001\n";
    assert_plan(&rt, 4, INDEXED, sorted, ROOT_ONE, one)?;
    let own = "cost 501\noutput t.a\nIndexScan(t, i0 own) rows=1000 cost=501\n";
    assert_plan(&rt, 4, INDEXED, sorted, ROOT_SPREAD, own)
}

const FILTERED_SHARES: &str = "cost 523
output t.a
Gather rows=10 cost=21
  Filter(t) rows=10 cost=251
    Scan(t own) rows=1000 cost=251
";

const SOUGHT_SHARES: &str = "cost 31
output t.a
Gather rows=10 cost=21
  IndexSeek(t, i0 own) rows=10 cost=10
";

#[test]
fn few_rows_are_found_in_shares(rt: HostRuntime) -> Result<(), Fail> {
    let few = "SELECT a FROM t WHERE a = 5";
    assert_plan(&rt, 4, THOUSAND, few, ROOT_ONE, FILTERED_SHARES)?;
    assert_plan(&rt, 4, INDEXED, few, ROOT_ONE, SOUGHT_SHARES)?;
    let own = "cost 10\noutput t.a\nIndexSeek(t, i0 own) rows=10 cost=10\n";
    assert_plan(&rt, 4, INDEXED, few, ROOT_SPREAD, own)
}

const COUNTED_IN_SHARES: &str = "cost 771
output COUNT(*)
HashAgg(one) rows=1 cost=10
  Gather rows=4 cost=9
    PartialAgg rows=4 cost=501
      Scan(t own) rows=1000 cost=251
";

const COUNTED_AT_ONE_PLACE: &str = "cost 6
output COUNT(*)
HashAgg(one) rows=1 cost=4
  Scan(t one) rows=1 cost=2
";

#[test]
fn each_row_is_counted_once(rt: HostRuntime) -> Result<(), Fail> {
    let count = "SELECT COUNT(*) FROM t";
    assert_plan(&rt, 4, THOUSAND, count, ROOT_ONE, COUNTED_IN_SHARES)?;
    assert_plan(&rt, 4, ONE_ROW, count, ROOT_ONE, COUNTED_AT_ONE_PLACE)?;
    assert_plan(&rt, 4, THOUSAND, count, ROOT_SPREAD, "no plan\n")
}

#[test]
fn there_is_no_plan_where_no_rule_reads_the_table(rt: HostRuntime) -> Result<(), Fail> {
    let without_scans = Options {
        root: RootDist::One,
        off: 32,
    };
    assert_plan(
        &rt,
        4,
        THOUSAND,
        "SELECT a FROM t",
        without_scans,
        "no plan\n",
    )
}

// ---- joins

const JOINED: &str = "SELECT b.x FROM b, s WHERE b.x = s.y";

const LARGE_AND_SMALL: &str =
    r#"[{"name":"b","rows":100000,"distribution":"random","columns":[{"name":"x","ndv":1000}]},
{"name":"s","rows":10,"distribution":"replicated","columns":[{"name":"y","ndv":10}]}]"#;

const BOTH_REPLICATED: &str =
    r#"[{"name":"b","rows":100000,"distribution":"replicated","columns":[{"name":"x","ndv":1000}]},
{"name":"s","rows":10,"distribution":"replicated","columns":[{"name":"y","ndv":10}]}]"#;

const HASHED_AND_INDEXED: &str =
    r#"[{"name":"b","rows":1000,"distribution":["x"],"columns":[{"name":"x","ndv":1000}]},
{"name":"s","rows":1000,"distribution":"replicated","indexes":[["y"]],"columns":[{"name":"y","ndv":1000}]}]"#;

const FILTERED_SIDE: &str =
    r#"[{"name":"b","rows":100000,"distribution":"random","columns":[{"name":"x","ndv":1000}]},
{"name":"s","rows":1000,"distribution":"replicated","columns":[{"name":"y","ndv":1000},{"name":"z","ndv":10}]}]"#;

const SOUGHT_SIDE: &str =
    r#"[{"name":"b","rows":100000,"distribution":"random","columns":[{"name":"x","ndv":1000}]},
{"name":"s","rows":1000,"distribution":"replicated","indexes":[["z"]],
"columns":[{"name":"y","ndv":1000},{"name":"z","ndv":10}]}]"#;

const THREE_EACH: &str =
    r#"[{"name":"b","rows":3,"distribution":"replicated","columns":[{"name":"x","ndv":3}]},
{"name":"s","rows":3,"distribution":"replicated","columns":[{"name":"y","ndv":3}]}]"#;

const COPIES_OF_THE_SMALL_TABLE: &str = "cost 50283
output b.x
HashJoin(copied) rows=1000 cost=25271
  Scan(b) rows=100000 cost=25001
  Scan(s copies) rows=10 cost=11
";

const COPIES_BESIDE_SHARES: &str = "cost 50283
output b.x
HashJoin(copied) rows=1000 cost=25271
  Scan(b own) rows=100000 cost=25001
  Scan(s copies) rows=10 cost=11
";

#[test]
fn copies_are_joined_without_a_broadcast(rt: HostRuntime) -> Result<(), Fail> {
    let spread = ROOT_SPREAD;
    assert_plan(
        &rt,
        4,
        LARGE_AND_SMALL,
        JOINED,
        spread,
        COPIES_OF_THE_SMALL_TABLE,
    )?;
    assert_plan(
        &rt,
        4,
        BOTH_REPLICATED,
        JOINED,
        spread,
        COPIES_BESIDE_SHARES,
    )
}

const HASH_JOIN: &str = "cost 2504
output b.x
HashJoin(colocated p0) rows=1000 cost=1001
  Scan(b) rows=1000 cost=251
  Redistribute(s.y) rows=1000 cost=1001
    Scan(s own) rows=1000 cost=251
";

const MERGE_JOIN: &str = "cost 5754
output b.x
MergeJoin(copied p0) rows=1000 cost=1501
  Sort(b.x) rows=1000 cost=2001
    Scan(b) rows=1000 cost=251
  IndexScan(s, i0 copies) rows=1000 cost=2001
";

const LOOP_JOIN: &str = "cost 251253
output b.x
LoopJoin(copied) rows=1000 cost=250001
  Scan(b) rows=1000 cost=251
  Scan(s copies) rows=1000 cost=1001
";

// Asserts that this is printed of the least plan on the segments, without these rules.
fn assert_without(rt: &(impl Abort + AllocGlobal), off: u32, wanted: &str) -> Result<(), Fail>
    requires { AreOptions (record { root = RootDist.Spread; off = off }) }
{
    let options = Options {
        root: RootDist::Spread,
        off,
    };
    assert_plan(rt, 4, HASHED_AND_INDEXED, JOINED, options, wanted)
}

// One rule of three that make joins is left: by a hash, by a merge, by a loop.
#[test]
fn each_join_takes_a_share_or_copies(rt: HostRuntime) -> Result<(), Fail> {
    assert_without(&rt, 3072, HASH_JOIN)?;
    assert_without(&rt, 2560, MERGE_JOIN)?;
    assert_without(&rt, 1536, LOOP_JOIN)
}

const FILTERED: &str = "SELECT b.x FROM b, s WHERE b.x = s.y AND s.z = 3";

const BROADCAST_OF_FEW: &str = "cost 53605
output b.x
HashJoin(copied) rows=10000 cost=27701
  Scan(b) rows=100000 cost=25001
  Broadcast rows=100 cost=401
    Filter(s) rows=100 cost=251
      Scan(s own) rows=1000 cost=251
";

const SOUGHT_COPIES: &str = "cost 53003
output b.x
HashJoin(copied) rows=10000 cost=27701
  Scan(b) rows=100000 cost=25001
  IndexSeek(s, i0 copies) rows=100 cost=301
";

const FILTERED_COPIES: &str = "cost 79004
output b.x
HashJoin(copied) rows=100000 cost=52001
  Scan(b) rows=100000 cost=25001
  Filter(s) rows=1000 cost=1001
    Scan(s copies) rows=1000 cost=1001
";

#[test]
fn copies_are_filtered_where_that_costs_less_than_a_broadcast(rt: HostRuntime) -> Result<(), Fail> {
    let spread = ROOT_SPREAD;
    assert_plan(&rt, 4, FILTERED_SIDE, FILTERED, spread, BROADCAST_OF_FEW)?;
    assert_plan(&rt, 4, SOUGHT_SIDE, FILTERED, spread, SOUGHT_COPIES)?;
    let most = "SELECT b.x FROM b, s WHERE b.x = s.y AND s.z <> 3";
    assert_plan(&rt, 4, FILTERED_SIDE, most, spread, FILTERED_COPIES)
}

const LOOP_AT_ONE_PLACE: &str = "cost 18
output b.x
LoopJoin(one) rows=3 cost=10
  Scan(b one) rows=3 cost=4
  Scan(s one) rows=3 cost=4
";

#[test]
fn two_replicated_tables_are_joined_at_one_place(rt: HostRuntime) -> Result<(), Fail> {
    assert_plan(&rt, 1, THREE_EACH, JOINED, ROOT_ONE, LOOP_AT_ONE_PLACE)
}

// ---- plans that are checked

// A scan of the only table in this mode.
fn scan(mode: u32) -> Plan
    requires { mode < 256 }
{
    Plan::Leaf(native(KeyParts::Get(0), Physical::Scan, mode))
}

fn gathered(alloc: Global, kid: Plan) -> Result<Plan, AllocError> {
    let gather = Node::make(NodeKind::Enforcer(Enforcer::Gather));
    Ok(Plan::Over(gather, Box::new(alloc, kid)?))
}

// Asserts what a check says of a plan of the only table for this distribution.
fn assert_check(
    rt: &(impl Abort + AllocGlobal),
    tables: &str,
    plan: &Plan,
    dist: Dist,
    says: Result<u64, PlanFault>,
) -> Result<(), Fail> {
    let query = query_over(rt.alloc(), 4, tables, "SELECT a FROM t", ROOT_ONE)?;
    let (query, props) = implied(rt.alloc(), query)?;
    let told = check_plan(&query, &props, plan, Request { dist, order: 0 });
    assert!(rt; told == says, "{told:?}");
    Ok(())
}

#[test]
fn copies_cost_as_much_as_all_rows(rt: HostRuntime) -> Result<(), Fail> {
    assert_check(&rt, THOUSAND, &scan(0), Dist::Spread, Ok(251))?;
    assert_check(&rt, THOUSAND, &scan(1), Dist::One, Ok(1001))?;
    assert_check(&rt, THOUSAND, &scan(2), Dist::Copies, Ok(1001))
}

#[test]
fn a_read_in_a_mode_without_a_line_is_no_node(rt: HostRuntime) -> Result<(), Fail> {
    let unknown = Err(PlanFault::Shape { node: 0 });
    assert_check(&rt, THOUSAND, &scan(3), Dist::Copies, unknown)?;
    assert_check(&rt, AT_RANDOM, &scan(1), Dist::One, unknown)
}

#[test]
fn only_shares_are_gathered(rt: HostRuntime) -> Result<(), Fail> {
    let alloc = rt.alloc();
    let shares = gathered(alloc, scan(0))?;
    assert_check(&rt, THOUSAND, &shares, Dist::One, Ok(2252))?;
    let lacks = Err(PlanFault::Needs { node: 0 });
    let at_one_place = gathered(alloc, scan(1))?;
    assert_check(&rt, THOUSAND, &at_one_place, Dist::One, lacks)?;
    let copies = gathered(alloc, scan(2))?;
    assert_check(&rt, THOUSAND, &copies, Dist::One, lacks)
}
