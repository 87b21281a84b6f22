//! In which tables the columns of lists and orders lie.
#![tactic(auto)]

ghost use Rattle.std.specs.Prelude.{ℕ, ◌≡◌, ◌↔◌, IfOk, IsTrue, map};
ghost use Rattle.query_core.specs.Keys.{is_column_in};
ghost use Rattle.request_props.specs.Lying.{items_of as the_items_of, AreTablesOf, HasTables, IsOver};

use orca_base::List;
use query_core::{Query, sets};
use std::alloc::{AllocError, Global};

/// The tables of each list's columns; none for a list with an item that is no column.
pub fn tables_of_lists(
    alloc: Global,
    query: &Query,
    lists: &[List<u32>],
) -> Result<Vec<Option<u32>>, AllocError>
    ensures { IfOk result (λ found. AreTablesOf query.now lists.now found.items) }
{
    let mut found = Vec::new(alloc);
    for list in lists {
        found.push(tables_of(query, list.as_slice()))?;
    }
    Ok(found)
}

/// The same of each order, which is given by its elements.
pub fn tables_of_orders(
    alloc: Global,
    query: &Query,
    orders: &[List<u32>],
) -> Result<Vec<Option<u32>>, AllocError>
    ensures { IfOk result (λ found.
        AreTablesOf query.now (map the_items_of orders.now) found.items) }
{
    let items = items_of_orders(alloc, orders)?;
    tables_of_lists(alloc, query, items.as_slice())
}

// The items of each order.
fn items_of_orders(alloc: Global, orders: &[List<u32>]) -> Result<Vec<List<u32>>, AllocError>
    ensures { IfOk result (λ lists. lists.items ≡ map the_items_of orders.now) }
{
    let mut lists = Vec::new(alloc);
    for order in orders {
        lists.push(List::of(items_of(alloc, order.as_slice())?))?;
    }
    Ok(lists)
}

/// Whether the set has each of the tables, where these are there.
pub fn covers(set: u32, tables: Option<u32>) -> bool
    ensures { IsTrue result ↔ HasTables set tables }
{
    match tables {
        Some(tables) => sets::least(sets::difference(tables, set)).is_none(),
        None => false,
    }
}

fn items_of(alloc: Global, order: &[u32]) -> Result<Vec<u32>, AllocError>
    ensures { IfOk result (λ items. items.items ≡ the_items_of order.now) }
{
    order.iter().map(|element| *element / 2).collect(alloc)
}

fn tables_of(query: &Query, list: &[u32]) -> Option<u32>
    ensures { IsOver query.now list.now result }
{
    match list {
        [] => Some(0),
        [item, others @ ..] => with_item(query, tables_of(query, others), *item),
    }
}

// These tables and the item's, where it is a column.
fn with_item(query: &Query, tables: Option<u32>, item: u32) -> Option<u32>
    ensures { (set : ℕ) → HasTables set result ↔
        (IsTrue (is_column_in query.now.items set item) × HasTables set tables) }
{
    match (tables, query.items.as_slice().get(item as usize)) {
        (Some(tables), Some(column)) => Some(sets::with(tables, column.table)),
        _ => None,
    }
}
