//! The physical expressions that the groups of a query can hold, each with its word, found once.
#![tactic(auto)]

ghost use Rattle.std.specs.Prelude.{◌<◌, IfOk, OnOk};
ghost use Rattle.query_core.specs.Expressions.{IsWord};
ghost use Rattle.query_core.specs.Keys.{IsGroup, NamesGroup};
ghost use Rattle.query_core.specs.declared.words.KeyParts.{KeyParts as AnyKeyParts};
ghost use Rattle.request_props.specs.Groups.{AreKeys, key_of};
ghost use Rattle.request_props.specs.Candidates.{AreCandidates, AreCandidatesOf, ArePhysical, ArePhysicalOf};
ghost use Rattle.request_props.specs.Filling.{AddsPhysical};

use orca_base::List;
use query_core::{
    Expr, KEYS, Key, KeyParts, PhysicalExpr, Query, candidates_are_known, expressions_are_one,
    groups_are_known,
};
use std::alloc::{AllocError, Global};

/// A physical expression that a group can hold, with its word.
#[derive(Clone, Copy)]
pub struct PhysicalCandidate {
    pub word: u64,
    pub expr: PhysicalExpr,
}

/// Of each number the physical expressions that the group of this key can hold; none where there is no such group.
pub fn group_physical(
    alloc: Global,
    query: &Query,
    keys: &[bool],
    candidates: &[List<u64>],
) -> Result<Vec<List<PhysicalCandidate>>, AllocError>
    requires keys { AreKeys query.now keys.now }
    requires candidates { AreCandidates query.now candidates.now }
    ensures { IfOk result (λ lists. ArePhysical query.now lists.items) }
{
    let mut lists = Vec::with_capacity(alloc, KEYS as usize)?;
    for number in 0..KEYS {
        lists.push(physical_at(alloc, query, keys, candidates, number)?)?;
    }
    Ok(lists)
}

// Those of the group whose key has this number, if there is one.
#[inline(always)]
fn physical_at(
    alloc: Global,
    query: &Query,
    keys: &[bool],
    candidates: &[List<u64>],
    number: u32,
) -> Result<List<PhysicalCandidate>, AllocError>
    requires keys { AreKeys query.now keys.now }
    requires candidates { AreCandidates query.now candidates.now }
    requires few { number < KEYS }
    ensures { IfOk result (λ found. (g : AnyKeyParts) → NamesGroup query.now (key_of number) g →
        ArePhysicalOf query.now g found) }
{
    if keys[number as usize] {
        let words = candidates[number as usize].as_slice();
        physical_among(alloc, query, query.group(Key(number)), words)
    } else {
        Ok(List::new(alloc))
    }
}

// Those of the group, by all its words.
fn physical_among(
    alloc: Global,
    query: &Query,
    group: KeyParts,
    words: &[u64],
) -> Result<List<PhysicalCandidate>, AllocError>
    requires { AreCandidatesOf query.now group words.now }
    ensures { IfOk result (ArePhysicalOf query.now group) }
{
    // For the proof: a candidate has a word, which is that of no other.
    candidates_are_known();
    expressions_are_one();
    let mut found = List::of(Vec::with_capacity(alloc, words.len())?);
    for place in 0..words.len() {
        push_physical(&mut found, words[place])?;
    }
    Ok(found)
}

// Adds the word's expression, if it is a physical one.
fn push_physical(found: &mut List<PhysicalCandidate>, word: u64) -> Result<(), AllocError>
    requires { IsWord word }
    ensures { OnOk result (AddsPhysical word found.old found.new) }
{
    match Expr(word).known_parts().as_physical() {
        Some(expr) => found.push(PhysicalCandidate { word, expr }),
        None => Ok(()),
    }
}
