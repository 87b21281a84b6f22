//! The memos of queries, as the program prints them.

ghost use Rattle.std.specs.Prelude.{◌≤◌};

use crate::runs::{PLAN, printed, run_over, shelf_of, text_at};
use orca_cli::Status;
use orca_io::{MemSink, NoGate};
use query_generator::{GenShape, generate};
use std::alloc::{AllocError, AllocGlobal, Global};
use std::sync::Wait;
use std::test::Fail;
use std::thread::Threads;

// The memo of a query over a catalogue, without its first word.
fn memo_of<R: Threads + Wait + Sync + AllocGlobal>(
    rt: &R,
    catalog: &[u8],
    query: &[u8],
) -> Result<String, Fail> {
    let words = "plan c.json q.sql --memo";
    let told = printed(rt, words, catalog, query, Status::Planned)?;
    let (_, memo) = told.split_once("\nmemo ").ok_or("a memo is printed")?;
    Ok(String::from_str(rt.alloc(), memo)?)
}

#[test]
fn three_tables_with_two_equalities_on_a_link(rt: HostRuntime) -> Result<(), Fail> {
    let columns =
        r#""columns":[{"name":"x","ndv":10},{"name":"y","ndv":10},{"name":"z","ndv":10},{"name":"w","ndv":10}]"#;
    let parts = [
        r#"{"version":1,"segments":4,"tables":[{"name":"A","rows":100,"distribution":"random","#,
        columns,
        r#"},{"name":"B","rows":100,"distribution":"random","#,
        columns,
        r#"},{"name":"C","rows":100,"distribution":"random","#,
        columns,
        "}]}",
    ];
    let catalog = parts.concat(rt.alloc())?;
    let query =
        b"SELECT A.x FROM A, B, C WHERE A.x = B.x AND A.y = B.y AND B.z = C.z AND A.w = C.w";
    let memo = memo_of(&rt, catalog.as_bytes(), query)?;
    assert!(rt; memo.starts_with("groups=7 members=58\n"));
    for want in [
        "\ngroup Join(A, B) rows=100\n",
        "\ngroup Join(A, C) rows=1000\n",
        "\ngroup Join(B, C) rows=1000\n",
        "\ngroup Join(A, B, C) rows=100\n",
    ] {
        assert!(rt; memo.contains(want), "{want}");
    }
    Ok(())
}

// The catalogue of a star: sales, and seven tables around it.
fn star_catalog(alloc: Global) -> Result<String, AllocError> {
    let mut columns = String::new(alloc);
    let mut tables = String::new(alloc);
    for i in 1..8u32 {
        write!(columns, ",{{\"name\":\"f{i}\",\"ndv\":1000}}")?;
        write!(
            tables,
            r#",
{{"name":"d{i}","rows":1000,"distribution":["id"],"columns":[{{"name":"id","ndv":1000}},{{"name":"a","ndv":100}}]}}"#
        )?;
    }
    let sales = r#"{"version":1,"segments":4,"tables":[
{"name":"sales","rows":10000000,"distribution":["id"],"columns":[{"name":"id","ndv":10000000}"#;
    [sales, &columns, "]}", &tables, "]}"].concat(alloc)
}

// What so many workers print of the plan, the memo and the trace of a query over the star: five million bytes.
fn star_printed_by<R: Threads + Wait + Sync + AllocGlobal>(
    rt: &R,
    workers: &str,
    query: &[u8],
) -> Result<String, Fail> {
    let catalog = star_catalog(rt.alloc())?;
    let words = [PLAN, " --memo --trace --workers ", workers].concat(rt.alloc())?;
    let mut shelf = shelf_of(rt.alloc(), catalog.as_bytes(), query)?;
    let mut sink = MemSink::with_room(rt.alloc(), 1 << 23)?;
    let (status, _) = run_over(rt, &words, &mut shelf, &mut sink, &NoGate)?;
    text_at(rt.alloc(), status, Status::Planned, &sink)
}

// The counts are worked out by hand: those of the star without groups, as `gen_tests` has them, and what is added here.
// Groups: one for each of the two conditions, one of the partial groups, one of the groups: 135 + 4 = 139.
// Logical members: two Selects, one Partial, an Agg over the join and one over the Partial: 1031 + 5 = 1036.
// Physical members: two Filters, one PartialAgg, two for each Agg: 2696 + 7. With the logical ones they are 3739.
// Rules: one that splits the Agg over the join, one for each of these seven members: 4160 + 8 = 4168.
#[test]
fn a_star_of_eight_tables_with_grouping(rt: HostRuntime) -> Result<(), Fail> {
    let query = b"SELECT d1.a, COUNT(*) AS n FROM sales, d1, d2, d3, d4, d5, d6, d7
WHERE sales.f1 = d1.id AND sales.f2 = d2.id AND sales.f3 = d3.id AND sales.f4 = d4.id
AND sales.f5 = d5.id AND sales.f6 = d6.id AND sales.f7 = d7.id AND d2.a = 5 AND d3.a < 10
GROUP BY d1.a ORDER BY n DESC, d1.a";
    let alone = star_printed_by(&rt, "1", query)?;
    assert!(rt; alone.contains("\nmemo groups=139 members=3739\n"));
    assert!(rt; alone.contains(" exp=139 expe=1036 xf=4168 imp=139 impe=1036 opt="));
    let crew = star_printed_by(&rt, "8", query)?;
    assert!(rt; alone.as_str() == crew.as_str());
    Ok(())
}

// ---- the joins of each group, counted without rules

// Two tables that a link joins, each as the set of that table alone.
#[derive(Clone, Copy)]
struct Pair {
    a: u32,
    b: u32,
}

// Whether the shape links the table at one place to that at a later one.
fn is_linked(shape: GenShape, first: u32, later: u32) -> bool {
    match shape {
        GenShape::Chain => first.saturating_add(1) == later,
        GenShape::Star => first == 0,
        GenShape::Clique => true,
    }
}

// Whether the tables of a set reach each other in it.
fn is_whole(pairs: &[Pair], set: u32) -> bool {
    let mut reached = set & set.wrapping_neg();
    for _ in 0..6u32 {
        for pair in pairs {
            let both = pair.a | pair.b;
            if both & set == both && both & reached != 0 {
                reached |= both;
            }
        }
    }
    set != 0 && reached == set
}

// In how many ways a set falls into a left and a right side, both of them whole.
fn count_of_splits(pairs: &[Pair], set: u32) -> u32 {
    let mut count = 0u32;
    for left in 1..set {
        if left & set == left && is_whole(pairs, left) && is_whole(pairs, set ^ left) {
            count = count.saturating_add(1);
        }
    }
    count
}

// How many joins each set of tables below the limit has, where it is whole and has any.
fn splits_of_sets(alloc: Global, pairs: &[Pair], limit: u32) -> Result<Vec<u32>, AllocError> {
    let mut counts = Vec::new(alloc);
    for set in 3..limit {
        let count = count_of_splits(pairs, set);
        if is_whole(pairs, set) && count != 0 {
            counts.push(count)?;
        }
    }
    Ok(counts)
}

// How many logical joins each group has, in the order of the groups.
fn joins_of_groups(alloc: Global, memo: &str) -> Result<Vec<u32>, AllocError> {
    let mut counts = Vec::new(alloc);
    let mut count = 0u32;
    for line in memo.lines() {
        if line.starts_with("  Join(") {
            count = count.saturating_add(1);
        } else if line.starts_with("  HashJoin(") && count != 0 {
            counts.push(count)?;
            count = 0;
        }
    }
    Ok(counts)
}

// The pairs of tables that the shape links.
fn linked(alloc: Global, shape: GenShape, tables: u32) -> Result<Vec<Pair>, AllocError>
    requires { tables ≤ 8 }
{
    let mut pairs = Vec::new(alloc);
    for j in 0..tables {
        for i in 0..j {
            if is_linked(shape, i, j) {
                pairs.push(Pair {
                    a: 1 << i,
                    b: 1 << j,
                })?;
            }
        }
    }
    Ok(pairs)
}

// The joins of each group of the memo of a generated query, and those that there should be.
fn counts<R: Threads + Wait + Sync + AllocGlobal>(
    rt: &R,
    shape: GenShape,
    tables: u32,
) -> Result<(Vec<u32>, Vec<u32>), Fail>
    requires { (1 ≤ tables) × (tables ≤ 8) }
{
    let alloc = rt.alloc();
    let (catalog, query) = generate(alloc, 1, tables, shape)?;
    let memo = memo_of(rt, &catalog, &query)?;
    let pairs = linked(alloc, shape, tables)?;
    Ok((
        joins_of_groups(alloc, &memo)?,
        splits_of_sets(alloc, &pairs, 1 << tables)?,
    ))
}

#[test]
fn a_group_has_a_join_for_each_split_of_its_tables(rt: HostRuntime) -> Result<(), Fail> {
    for shape in [GenShape::Chain, GenShape::Star, GenShape::Clique] {
        for tables in 2..7u32 {
            let (found, wanted) = counts(&rt, shape, tables)?;
            assert!(rt; found.as_slice() == wanted.as_slice());
        }
    }
    Ok(())
}

#[test]
fn chains_and_stars_of_four_tables(rt: HostRuntime) -> Result<(), Fail> {
    let chain = printed(&rt, "gen 1 4 chain", b"", b"", Status::Planned)?;
    assert!(rt; chain.contains("\nmemo groups=10 members=94\n"));
    let star = printed(&rt, "gen 1 4 star", b"", b"", Status::Planned)?;
    assert!(rt; star.contains("\nmemo groups=11 members=111\n"));
    Ok(())
}
