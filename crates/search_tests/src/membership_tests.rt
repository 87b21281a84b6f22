//! Membership without a memo against the closure that is made, with each choice of the two rules off that turn joins
//! into joins.

ghost use Rattle.query_core.specs.declared.words.KeyParts.{KeyParts};
ghost use Rattle.request_props.specs.Candidates.{AreCandidatesOf};

use plan_search::plain_closure;
use query_core::{Expr, KEYS, Key, KeyParts, Query};
use std::alloc::Global;
use std::process::Abort;
use std::test::Fail;
use worked_queries::{
    chain_of_four_without, implied, one_linked_pair_without, star_of_four_without,
};
use xform_rules::in_closure;

// JoinCommute and JoinAssociate are rules 2 and 3.
const COMMUTE: u32 = 1 << 2;

const ASSOCIATE: u32 = 1 << 3;

// How many of the expressions that a group can hold are members. Asserts that the two agree on each.
fn members_among(
    rt: &impl Abort,
    query: &Query,
    group: KeyParts,
    words: &[u64],
    members: &[u64],
) -> usize
    requires { AreCandidatesOf query.now group words.now }
{
    let mut met: usize = 0;
    for word in words {
        let is_member = in_closure(query, Expr(*word));
        assert!(rt;
            is_member == members.binary_search(word).is_ok(),
            "{group:?} {word}"
        );
        if is_member {
            met = met.saturating_add(1);
        }
    }
    met
}

// Asserts that the two agree on each expression that a group of the query can hold, and that no other is a member.
fn assert_agree(rt: &impl Abort, alloc: Global, query: Result<Query, Fail>) -> Result<(), Fail> {
    let (query, props) = implied(alloc, query?)?;
    let members = plain_closure(alloc, &query)?;
    let mut met: usize = 0;
    for number in 0..KEYS {
        if query.is_key(Key(number)) {
            let group = query.group(Key(number));
            let words = props.candidates_of(&query, group);
            let more = members_among(rt, &query, group, words, members.as_slice());
            met = met.saturating_add(more);
        }
    }
    assert!(rt; met == members.len(), "{met}");
    Ok(())
}

#[test]
fn members_of_a_chain_are_told_without_a_memo(rt: HostRuntime) -> Result<(), Fail> {
    let alloc = rt.alloc();
    assert_agree(&rt, alloc, chain_of_four_without(alloc, 0))?;
    assert_agree(&rt, alloc, chain_of_four_without(alloc, COMMUTE))?;
    assert_agree(&rt, alloc, chain_of_four_without(alloc, ASSOCIATE))?;
    assert_agree(
        &rt,
        alloc,
        chain_of_four_without(alloc, COMMUTE | ASSOCIATE),
    )
}

#[test]
fn members_of_a_star_are_told_without_a_memo(rt: HostRuntime) -> Result<(), Fail> {
    let alloc = rt.alloc();
    assert_agree(&rt, alloc, star_of_four_without(alloc, 0))?;
    assert_agree(&rt, alloc, star_of_four_without(alloc, COMMUTE))?;
    assert_agree(&rt, alloc, star_of_four_without(alloc, ASSOCIATE))?;
    assert_agree(&rt, alloc, star_of_four_without(alloc, COMMUTE | ASSOCIATE))
}

// One of its tables is filtered, and one joined without a predicate.
#[test]
fn members_of_a_linked_pair_are_told_without_a_memo(rt: HostRuntime) -> Result<(), Fail> {
    let alloc = rt.alloc();
    assert_agree(&rt, alloc, one_linked_pair_without(alloc, 0))?;
    assert_agree(&rt, alloc, one_linked_pair_without(alloc, COMMUTE))?;
    assert_agree(&rt, alloc, one_linked_pair_without(alloc, ASSOCIATE))?;
    assert_agree(
        &rt,
        alloc,
        one_linked_pair_without(alloc, COMMUTE | ASSOCIATE),
    )
}
