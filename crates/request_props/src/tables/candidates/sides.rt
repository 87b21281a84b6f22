//! The pairs of sides into which a set of tables falls, by look-ups, found once for each set.
#![tactic(auto)]

ghost use Rattle.std.specs.Prelude.{ℕ, ◌≡◌, ◌<◌, ◌≤◌, ◌+◌, ◌^◌, length, MatchOption, IfOk, OnOk};
ghost use Rattle.query_core.specs.Connected.{IsConnected};
ghost use Rattle.query_core.specs.Keys.{group_of_table, top_of, IsGroup};
ghost use Rattle.request_props.specs.Groups.{AreKeys};
ghost use Rattle.request_props.specs.Joins.{IsSide, HasSides, AreSidesAt, AreSidesBelow, AreAllSides};

use crate::tables::groups::is_key;
use orca_base::List;
use query_core::{FIRST_SET_KEY, Key, KeyParts, ONE_TABLE_KEYS, Query, groups_are_known, sets};
use std::alloc::{AllocError, Global};

/// The groups of the two sides of a join.
#[derive(Clone, Copy)]
pub struct Sides {
    pub left: KeyParts,
    pub right: KeyParts,
}

/// All sides into which the set falls, by the key of the left one.
pub(crate) fn all_sides(
    alloc: Global,
    query: &Query,
    keys: &[bool],
    set: u32,
) -> Result<List<Sides>, AllocError>
    requires keys { AreKeys query.now keys.now }
    requires known { IsGroup query.now (KeyParts.Join set) }
    ensures { IfOk result (AreAllSides query.now set) }
{
    let mut found = List::new(alloc);
    push_of_one(&mut found, query, keys, set)?;
    push_of_several(&mut found, query, keys, set)?;
    Ok(found)
}

// Adds those whose left side is one table.
fn push_of_one(
    found: &mut List<Sides>,
    query: &Query,
    keys: &[bool],
    set: u32,
) -> Result<(), AllocError>
    requires keys { AreKeys query.now keys.now }
    requires known { IsGroup query.now (KeyParts.Join set) }
    requires none { AreSidesBelow query.now set 0 found.old }
    ensures { OnOk result (AreSidesBelow query.now set ONE_TABLE_KEYS found.new) }
{
    for left in 0..ONE_TABLE_KEYS {
        push_at(found, query, keys, set, left)?;
    }
    Ok(())
}

// Adds those whose left side is several tables: no key between is that of tables.
fn push_of_several(
    found: &mut List<Sides>,
    query: &Query,
    keys: &[bool],
    set: u32,
) -> Result<(), AllocError>
    requires keys { AreKeys query.now keys.now }
    requires known { IsGroup query.now (KeyParts.Join set) }
    requires of_one { AreSidesBelow query.now set ONE_TABLE_KEYS found.old }
    ensures { OnOk result (AreAllSides query.now set found.new) }
{
    for tables in 0..set {
        // Most numbers have other tables too, so this is looked at first.
        if sets::union(tables, set) == set {
            push_at(found, query, keys, set, FIRST_SET_KEY + tables)?;
        }
    }
    Ok(())
}

// Adds the sides whose left group has this key, if the set falls into such.
fn push_at(
    found: &mut List<Sides>,
    query: &Query,
    keys: &[bool],
    set: u32,
    left: u32,
) -> Result<(), AllocError>
    requires keys { AreKeys query.now keys.now }
    requires known { IsGroup query.now (KeyParts.Join set) }
    requires before { AreSidesBelow query.now set left found.old }
    ensures { OnOk result (AreSidesBelow query.now set (left + 1) found.new) }
{
    match sides_at(query, keys, set, Key(left)) {
        Some(sides) => found.push(sides),
        None => Ok(()),
    }
}

// The sides whose left group has this key.
fn sides_at(query: &Query, keys: &[bool], set: u32, key: Key) -> Option<Sides>
    requires keys { AreKeys query.now keys.now }
    requires known { IsGroup query.now (KeyParts.Join set) }
    ensures { MatchOption result (HasSides query.now set key.0 → ⊥)
        (AreSidesAt query.now set key.0) }
{
    if !is_key(query, keys, key) {
        return None;
    }
    let group = query.group(key);
    let tables = group.tables();
    let others = sets::difference(set, tables);
    if sets::union(tables, others) != set {
        return None;
    }
    let left = side(query, keys, tables)?;
    if left != group {
        return None;
    }
    let right = side(query, keys, others)?;
    Some(Sides { left, right })
}

// The group that joins the tables, if these are connected and not none.
fn side(query: &Query, keys: &[bool], tables: u32) -> Option<KeyParts>
    requires keys { AreKeys query.now keys.now }
    requires of_tables { tables < 2 ^ length query.now.tables }
    ensures { MatchOption result (IsSide query.now tables → ⊥)
        (λ group. (group ≡ top_of query.now tables) × IsSide query.now tables) }
{
    if tables == 0 {
        return None;
    }
    match sets::only(tables) {
        Some(table) => Some(table_group(query, keys, table)),
        None => several(query, keys, tables),
    }
}

// The group of one table: where it has own predicates these are applied.
fn table_group(query: &Query, keys: &[bool], table: u32) -> KeyParts
    requires keys { AreKeys query.now keys.now }
    requires of_tables { table < length query.now.tables }
    ensures { result ≡ group_of_table query.now table }
{
    // For the proof: a key has one group.
    groups_are_known();
    let filter = KeyParts::Filter(table);
    if is_key(query, keys, Key::make(filter)) {
        filter
    } else {
        KeyParts::Get(table)
    }
}

// The group that joins several tables, if these are connected.
fn several(query: &Query, keys: &[bool], tables: u32) -> Option<KeyParts>
    requires keys { AreKeys query.now keys.now }
    requires of_tables { tables < 2 ^ length query.now.tables }
    ensures { MatchOption result (IsGroup query.now (KeyParts.Join tables) → ⊥)
        (λ group. (group ≡ KeyParts.Join tables) × IsGroup query.now group) }
{
    // For the proof: a key has one group.
    groups_are_known();
    let group = KeyParts::Join(tables);
    if is_key(query, keys, Key::make(group)) {
        Some(group)
    } else {
        None
    }
}
