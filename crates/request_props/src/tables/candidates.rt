//! The words of all expressions that the groups of a query can hold, found once.
#![tactic(auto)]

ghost use Rattle.std.specs.Prelude.{◌<◌, IfOk};
ghost use Rattle.query_core.specs.Keys.{IsGroup, NamesGroup};
ghost use Rattle.query_core.specs.declared.words.KeyParts.{KeyParts as AnyKeyParts};
ghost use Rattle.request_props.specs.Groups.{AreKeys, key_of};
ghost use Rattle.request_props.specs.Candidates.{AreCandidates, AreCandidatesOf};

mod joins;
mod sides;

use joins::words_of_joins;
use orca_base::List;
use query_core::{KEYS, Key, KeyParts, Query, groups_are_known};
use std::alloc::{AllocError, Global};

/// Of each number the words of the expressions that the group of this key can hold; none where there is no such group.
pub fn group_candidates(
    alloc: Global,
    query: &Query,
    keys: &[bool],
) -> Result<Vec<List<u64>>, AllocError>
    requires { AreKeys query.now keys.now }
    ensures { IfOk result (λ lists. AreCandidates query.now lists.items) }
{
    let mut lists = Vec::with_capacity(alloc, KEYS as usize)?;
    for number in 0..KEYS {
        lists.push(candidates_at(alloc, query, keys, number)?)?;
    }
    Ok(lists)
}

// The words of the group whose key has this number, if there is one.
#[inline(always)]
fn candidates_at(
    alloc: Global,
    query: &Query,
    keys: &[bool],
    number: u32,
) -> Result<List<u64>, AllocError>
    requires keys { AreKeys query.now keys.now }
    requires few { number < KEYS }
    ensures { IfOk result (λ words. (g : AnyKeyParts) → NamesGroup query.now (key_of number) g →
        AreCandidatesOf query.now g words) }
{
    if keys[number as usize] {
        candidates_of(alloc, query, keys, query.group(Key(number)))
    } else {
        Ok(List::new(alloc))
    }
}

// The words of the group, by look-ups where it joins tables.
fn candidates_of(
    alloc: Global,
    query: &Query,
    keys: &[bool],
    group: KeyParts,
) -> Result<List<u64>, AllocError>
    requires keys { AreKeys query.now keys.now }
    requires known { IsGroup query.now group }
    ensures { IfOk result (AreCandidatesOf query.now group) }
{
    match group {
        KeyParts::Join(set) => words_of_joins(alloc, query, keys, set),
        _ => words_of_few(alloc, query, group),
    }
}

// The words of the group, one after the other.
fn words_of_few(alloc: Global, query: &Query, group: KeyParts) -> Result<List<u64>, AllocError>
    requires { IsGroup query.now group }
    ensures { IfOk result (AreCandidatesOf query.now group) }
{
    // For the proof: a group of the query has a key.
    groups_are_known();
    let mut words = List::new(alloc);
    let mut before = None;
    'words: while let Some(next) = query.next_candidate(Key::make(group), before) {
        words.push(next.0)?;
        before = Some(next);
    }
    Ok(words)
}
