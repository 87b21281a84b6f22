//! The groups of a query by the numbers of their keys.
#![tactic(auto)]

ghost use Rattle.std.specs.Prelude.{◌≡◌, ◌<◌, ◌≤◌, ◌↔◌, IfOk, IsTrue};
ghost use Rattle.query_core.specs.Keys.{IsKey, NamesGroup};
ghost use Rattle.query_core.specs.declared.words.KeyParts.{KeyParts};
ghost use Rattle.cardinality.specs.Rows.{rows_of};
ghost use Rattle.request_props.specs.Groups.{AreKeys, AreGroupRows, key_of};

use cardinality::rows;
use query_core::{KEYS, Key, Query, groups_are_known};
use std::alloc::{AllocError, Global};

/// Whether each number is that of a key of the query.
pub fn query_keys(alloc: Global, query: &Query) -> Result<Vec<bool>, AllocError>
    ensures { IfOk result (λ keys. AreKeys query.now keys.items) }
{
    let mut keys = Vec::with_capacity(alloc, KEYS as usize)?;
    for number in 0..KEYS {
        keys.push(query.is_key(Key(number)))?;
    }
    Ok(keys)
}

/// Whether the key is one of the query's, by the list of these.
pub fn is_key(query: &Query, keys: &[bool], key: Key) -> bool
    requires { AreKeys query.now keys.now }
    ensures { IsTrue result ↔ IsKey query.now key }
{
    // For the proof: no key of a query has a number from the limit on.
    groups_are_known();
    key.0 < KEYS && keys[key.0 as usize]
}

/// The estimated rows of each group, by the key's number.
pub fn group_rows(alloc: Global, query: &Query, keys: &[bool]) -> Result<Vec<u64>, AllocError>
    requires { AreKeys query.now keys.now }
    ensures { IfOk result (λ found. AreGroupRows query.now found.items) }
{
    let mut found = Vec::with_capacity(alloc, KEYS as usize)?;
    for number in 0..KEYS {
        found.push(rows_at(query, keys, number))?;
    }
    Ok(found)
}

// The rows of the group whose key has this number, if there is one.
#[inline(always)]
fn rows_at(query: &Query, keys: &[bool], number: u32) -> u64
    requires keys { AreKeys query.now keys.now }
    requires few { number < KEYS }
    ensures value { (g : KeyParts) → NamesGroup query.now (key_of number) g →
        result ≡ rows_of query.now g }
    ensures most { result ≤ 1000000000000 }
{
    if keys[number as usize] {
        rows(query, Key(number))
    } else {
        0
    }
}
