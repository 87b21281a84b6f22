//! What the program prints for queries that it makes itself.
use crate::runs::{assert_printed, noted, printed};
use orca_cli::Status;
use std::test::Fail;

#[test]
fn a_generated_query_is_planned(rt: HostRuntime) -> Result<(), Fail> {
    let words = "gen 1 1 chain";
    let text = "gen number=1 tables=1 shape=chain
cost 93128
memo groups=1 members=2
trace goals=10 exp=1 expe=1 xf=1 imp=1 impe=1 opt=4 opte=1
";
    assert_printed(&rt, words, b"", b"", Status::Planned, text)?;
    let (_, note) = noted(&rt, words, b"", b"")?;
    assert!(rt; note == Some((131_072, 1, 10)));
    Ok(())
}

#[test]
fn a_generated_query_takes_workers_and_a_capacity(rt: HostRuntime) -> Result<(), Fail> {
    let alone = printed(&rt, "gen 7 3 star", b"", b"", Status::Planned)?;
    let words = "gen --workers 2 7 3 star --capacity 8192";
    assert_printed(&rt, words, b"", b"", Status::Planned, alone.as_str())?;
    let words = "gen 7 3 star --capacity 64";
    let full = "too many entries: capacity 64\n";
    assert_printed(&rt, words, b"", b"", Status::TooManyEntries, full)
}

// The counts are worked out by hand. Each nonempty set of the seven outer tables is joined with the first table.
// A set of k has k cuts, each of which takes one outer table off: together 448, of which 7 are those of sets of one.
// Groups: 8 tables + 127 sets = 135.
// Logical members: a Get for each table, an NJoin for each set, two Joins for each cut: 8 + 127 + 896 = 1031.
// Physical members: a Scan for each table, three for each Join: 8 + 2688. With the logical ones they are 3727.
// Rules: one for each NJoin, one that swaps each Join, one for each of the 448 - 7 Joins whose left side is itself a
// join, one for each physical member: 127 + 896 + 441 + 2696 = 4160.
#[test]
fn a_generated_star_of_eight_tables(rt: HostRuntime) -> Result<(), Fail> {
    let alone = printed(&rt, "gen 1 8 star", b"", b"", Status::Planned)?;
    assert!(rt; alone.starts_with("gen number=1 tables=8 shape=star\n"));
    assert!(rt; alone.contains("\nmemo groups=135 members=3727\n"));
    assert!(rt; alone.contains(" exp=135 expe=1031 xf=4160 imp=135 impe=1031 opt="));
    let words = "gen 1 8 star --workers 8";
    assert_printed(&rt, words, b"", b"", Status::Planned, alone.as_str())
}
