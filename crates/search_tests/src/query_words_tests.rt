//! Groups of two tables, of three, and of one with indexes; expressions and goals by their words.

ghost use Rattle.query_core.specs.Keys.{IsKey};
ghost use Rattle.query_core.specs.Expressions.{IsPacked};
ghost use Rattle.query_core.specs.Goals.{FitsGoal};

use query_core::*;
use std::alloc::Global;
use std::process::Abort;
use std::test::Fail;
use worked_queries::{compared_tables, one_linked_pair, three_indexes};

// Two tables that are joined by an equality.
fn compared(alloc: Global) -> Result<Box<Query>, Fail> {
    Ok(Box::new(alloc, compared_tables(alloc, CmpOp::Eq, 0)?)?)
}

// Three tables, of which a predicate links two.
fn linked_pair(alloc: Global) -> Result<Box<Query>, Fail> {
    Ok(Box::new(alloc, one_linked_pair(alloc)?)?)
}

// Asserts that all these numbers are keys, or none is.
fn assert_keys(rt: &impl Abort, query: &Query, numbers: &[u32], are: bool) {
    for number in numbers {
        assert!(rt; query.is_key(Key(*number)) == are, "{number}");
    }
}

const OTHER_NUMBERS: [u32; 13] = [
    2,
    9,
    10,
    16,
    17,
    1024,
    1025,
    1026,
    1028,
    2047,
    2048,
    2049,
    4_000_000_000,
];

fn has_one_link(query: &Query) -> bool {
    query.links.len() == 1 && query.root() == Key(1027)
}

#[test]
fn two_tables_have_their_groups(rt: HostRuntime) -> Result<(), Fail> {
    let query = compared(rt.alloc())?;
    assert!(rt; has_one_link(&query));
    assert_keys(&rt, &query, &[0, 1, 1027], true);
    assert_keys(&rt, &query, &OTHER_NUMBERS, false);
    Ok(())
}

// Whether the second and the third table are linked by a predicate, and the first and the second by a TRUE link.
fn has_its_links(query: &Query) -> bool {
    query.links.len() == 2
        && query.linked(1, 2)
        && query.linked(2, 4)
        && !query.linked(1, 4)
        && query.connected(0)
        && query.connected(7)
        && !query.connected(5)
}

// Whether the second table alone is filtered, and has the second item alone.
fn has_its_filter(query: &Query) -> bool {
    let filtered = Key(17);
    !query.is_key(Key(18))
        && query.is_key(filtered)
        && query.has_item(filtered, 1)
        && !query.has_item(filtered, 2)
        && !query.has_item(filtered, 3)
}

#[test]
fn a_true_link_joins_what_no_predicate_does(rt: HostRuntime) -> Result<(), Fail> {
    let query = linked_pair(rt.alloc())?;
    assert!(rt; has_its_links(&query));
    assert!(rt; has_its_filter(&query));
    Ok(())
}

// Whether this is the word of the expression, a way to join the first two tables.
fn is_word_of_join(word: Expr, parts: ExprParts) -> bool
    requires { IsPacked parts }
{
    Expr::make(parts) == word
        && word.parts() == Some(parts)
        && word.key() == Key(1027)
        && !word.logical()
        && word.children() == (Some(Key(0)), Some(Key(1)))
}

#[test]
fn an_expression_is_one_word(rt: HostRuntime) {
    let operator = Physical::HashJoin(KeyParts::Get(0), KeyParts::Get(1));
    let parts = ExprParts::physical(KeyParts::Join(3), operator);
    assert!(rt; is_word_of_join(Expr(70_594_229_968_898), parts));
    assert!(rt; Expr(3).parts().is_none());
}

// Whether these are the words of the expressions that the group can hold, in their order.
fn has_words(query: &Query, key: Key, words: &[u64]) -> bool
    requires { IsKey query.now key }
{
    let mut after = None;
    for word in words {
        let next = query.next_candidate(key, after);
        if next != Some(Expr(*word)) {
            return false;
        }
        after = next;
    }
    query.next_candidate(key, after).is_none()
}

fn assert_words(rt: &impl Abort, query: &Query, number: u32, words: &[u64]) {
    let key = Key(number);
    assert!(rt;
        query.is_key(key) && has_words(query, key, words),
        "{number}"
    );
}

// A word has the key from bit 36 on, the operator from bit 31, the index from bit 26, and the children.
const JOINS: [u64; 9] = [
    0x403380000000,
    0x403400002002,
    0x403400004001,
    0x403480002002,
    0x403480004001,
    0x403500002002,
    0x403500004001,
    0x403580002002,
    0x403580004001,
];

fn begins_with(query: &Query, word: u64) -> bool {
    query.root() == Key(1027) && query.origin(query.root()) == Expr(word)
}

#[test]
fn a_group_holds_its_candidates(rt: HostRuntime) -> Result<(), Fail> {
    let query = compared(rt.alloc())?;
    assert!(rt; begins_with(&query, 0x403380000000));
    assert_words(&rt, &query, 1027, &JOINS);
    assert_words(&rt, &query, 1, &[0x1080000000, 0x1100000000]);
    Ok(())
}

const READS: [u64; 5] = [
    0x80000000,
    0x100000000,
    0x180000000,
    0x184000000,
    0x188000000,
];

#[test]
fn a_table_with_indexes_holds_its_candidates(rt: HostRuntime) -> Result<(), Fail> {
    let query = Box::new(rt.alloc(), three_indexes(rt.alloc())?)?;
    assert_words(&rt, &query, 0, &READS);
    Ok(())
}

// Asserts that all these words are candidates, or none is.
fn assert_candidates(rt: &impl Abort, query: &Query, words: &[u64], are: bool) {
    for word in words {
        assert!(rt; query.is_candidate(Expr(*word)) == are, "{word}");
    }
}

const CANDIDATES: [u64; 4] = [0x80000000, 0x1100000000, 0x403380000000, 0x403580004001];

// An index that isn't there, a join of a table with itself, a group that isn't there, and no word.
const OTHER_WORDS: [u64; 4] = [0x180000000, 0x403400002001, 0x202100000, 0x403400002000];

#[test]
fn candidates_are_told_by_their_words(rt: HostRuntime) -> Result<(), Fail> {
    let query = compared(rt.alloc())?;
    assert_candidates(&rt, &query, &CANDIDATES, true);
    assert_candidates(&rt, &query, &OTHER_WORDS, false);
    assert!(rt; Key(1027).first_word() == 0x403000000000);
    Ok(())
}

// What the first predicate compares across two groups; nothing where one is no group.
fn crossed(query: &Query, left: u32, right: u32) -> Option<Option<(u32, u32)>> {
    let (left, right) = (Key(left), Key(right));
    if query.is_key(left) && query.is_key(right) {
        Some(query.crossing(left, right, 0))
    } else {
        None
    }
}

fn assert_crossed(
    rt: &impl Abort,
    query: &Query,
    left: u32,
    right: u32,
    sides: Option<(u32, u32)>,
) {
    assert!(rt;
        crossed(query, left, right) == Some(sides),
        "{left} {right}"
    );
}

#[test]
fn equalities_cross_groups_both_ways(rt: HostRuntime) -> Result<(), Fail> {
    let query = compared(rt.alloc())?;
    assert_crossed(&rt, &query, 0, 1, Some((0, 1)));
    assert_crossed(&rt, &query, 1, 0, Some((1, 0)));
    assert_crossed(&rt, &query, 0, 0, None);
    Ok(())
}

// Whether the second predicate alone crosses the filtered second table and the third one.
fn cross_once(query: &Query) -> bool {
    let (filtered, last) = (KeyParts::Filter(1), KeyParts::Get(2));
    query.crossing_groups(filtered, last, 0).is_none()
        && query.crossing_groups(filtered, last, 1) == Some((1, 2))
        && query.crossing_groups(filtered, last, 2).is_none()
}

#[test]
fn an_equality_crosses_a_filtered_table_and_another(rt: HostRuntime) -> Result<(), Fail> {
    let query = linked_pair(rt.alloc())?;
    assert!(rt; cross_once(&query));
    Ok(())
}

fn assert_goal(rt: &impl Abort, parts: GoalParts, word: u64)
    requires { FitsGoal parts }
{
    let goal = Goal(word);
    assert!(rt;
        Goal::make(parts) == goal && goal.parts() == Some(parts),
        "{word}"
    );
}

fn assert_no_goal(rt: &impl Abort, word: u64) {
    assert!(rt; Goal(word).parts().is_none(), "{word}");
}

// The kind from bit 60 on, the subject from bit 12 on, then the rule's number or the request's code.
#[test]
fn goals_are_told_by_their_words(rt: HostRuntime) {
    assert_goal(&rt, GoalParts::Opt(Key(1027), 1), 0xd000000000403001);
    assert_goal(
        &rt,
        GoalParts::Xf(Expr(0x403400002002), 2),
        0xa403400002002002,
    );
    let no_request = GoalParts::Opt(Key(1027), 61);
    assert!(rt; Goal(0xd00000000040303d).parts() == Some(no_request));
    // A rule 15 and a rule 0, a kind 7, a subject that is no key, a detail where none belongs, and no goal's first bit.
    assert_no_goal(&rt, 0xa40340000200200f);
    assert_no_goal(&rt, 0xa403400002002000);
    assert_no_goal(&rt, 0xf000000000000000);
    assert_no_goal(&rt, 0x8000000001000000);
    assert_no_goal(&rt, 0x8000000000001001);
    assert_no_goal(&rt, 1);
}
