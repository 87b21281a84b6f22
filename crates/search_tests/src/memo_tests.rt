//! The memo of three queries: the running example, one grouped table, and a join of three.

ghost use Rattle.std.specs.Prelude.{All, IsTrue};
ghost use Rattle.std.specs.List.Sorted.{IsStrictlyIncreasing};
ghost use Rattle.query_core.specs.Expressions.{IsCandidateWord};

use crate::texts::assert_text;
use job_trace::memo_text;
use query_core::{Expr, Query};
use std::alloc::{AllocError, Global};
use std::process::Abort;
use std::test::Fail;
use worked_queries::{JOIN_MEMO, cycle, filtered_count, two_tables};

fn are_candidates(query: &Query, words: &[u64]) -> bool
    ensures { IsTrue result → All (IsCandidateWord query.now) words.now }
{
    for word in words {
        if !query.is_candidate(Expr(*word)) {
            return false;
        }
    }
    true
}

fn ascend(words: &[u64]) -> bool
    ensures { IsTrue result → IsStrictlyIncreasing words.now }
{
    for place in 1..words.len() {
        if words[place] <= words[place - 1] {
            return false;
        }
    }
    true
}

// The text of the memo; nothing for words that no memo has.
fn text_of_memo(alloc: Global, query: &Query, words: &[u64]) -> Result<Vec<u8>, AllocError> {
    if are_candidates(query, words) && ascend(words) {
        return memo_text(alloc, query, words);
    }
    Ok(Vec::new(alloc))
}

fn memo_of(alloc: Global, query: Result<Query, Fail>, words: &[u64]) -> Result<Vec<u8>, Fail> {
    let query = Box::new(alloc, query?)?;
    Ok(text_of_memo(alloc, &query, words)?)
}

// Asserts that the memo of these words is shown so.
fn assert_memo(
    rt: &impl Abort,
    alloc: Global,
    query: Result<Query, Fail>,
    words: &[u64],
    wanted: &str,
) -> Result<(), Fail> {
    let text = memo_of(alloc, query, words)?;
    assert_text(rt, text.as_slice(), wanted);
    Ok(())
}

// A word has the key from bit 36 on, the operator from bit 31, the index from bit 26, the children.
const JOINED: [u64; 13] = [
    0x80000000,
    0x100000000,
    0x1080000000,
    0x1100000000,
    0x403380000000,
    0x403400002002,
    0x403400004001,
    0x403480002002,
    0x403480004001,
    0x403500002002,
    0x403500004001,
    0x403580002002,
    0x403580004001,
];

#[test]
fn a_memo_is_shown_group_by_group(rt: HostRuntime) -> Result<(), Fail> {
    assert_memo(&rt, rt.alloc(), two_tables(rt.alloc()), &JOINED, JOIN_MEMO)
}

const COUNTED: [u64; 16] = [
    0x80000000,
    0x100000000,
    0x180000000,
    0x184000000,
    0x10200002000,
    0x10280002000,
    0x10300000000,
    0x10304000000,
    0x800780022000,
    0x800800022000,
    0x801600022000,
    0x801601002000,
    0x801680022000,
    0x801681002000,
    0x801700022000,
    0x801701002000,
];

const COUNT_MEMO: &str = "memo groups=4 members=16
group Get(t) rows=100000
  Get(t)
  Scan(t)
  IndexScan(t, i0)
  IndexScan(t, i1)
group Filter(t) rows=1000
  Select(t)
  Filter(t)
  IndexSeek(t, i0)
  IndexSeek(t, i1)
group Partial rows=40
  Partial(input)
  PartialAgg(input)
group Agg rows=10
  Agg(input)
  Agg(partial)
  HashAgg(input)
  HashAgg(partial)
  StreamAgg(input)
  StreamAgg(partial)
";

#[test]
fn indexes_and_aggregations_are_shown(rt: HostRuntime) -> Result<(), Fail> {
    assert_memo(
        &rt,
        rt.alloc(),
        filtered_count(rt.alloc()),
        &COUNTED,
        COUNT_MEMO,
    )
}

const OF_A_CYCLE: [u64; 4] = [
    0x407380000000,
    0x407400006404,
    0x407400808003,
    0x407500004406,
];

const CYCLE_MEMO: &str = "memo groups=1 members=4
group Join(A, B, C) rows=1000
  NJoin(A, B, C)
  Join(C | A, B)
  Join(A, B | C)
  MergeJoin(B | A, C)
";

#[test]
fn sides_of_several_tables_are_shown_in_order(rt: HostRuntime) -> Result<(), Fail> {
    assert_memo(&rt, rt.alloc(), cycle(rt.alloc()), &OF_A_CYCLE, CYCLE_MEMO)
}
