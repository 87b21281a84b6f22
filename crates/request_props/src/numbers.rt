//! The numbers of a query's hashed lists and orders, found by comparing lists.
#![tactic(auto)]

ghost use Rattle.std.specs.Prelude.{◌≡◌, ◌≤◌, ◌<◌, ◌&&◌, IfOk, IsTrue, bytes_eq, length, map, nat_lt};
ghost use Rattle.std.specs.List.{position_or_len};
ghost use Rattle.query_core.specs.Conditions.{is_operand};
ghost use Rattle.request_props.specs.Numbered.{lists_of, orders_of, list_number as the_list_number};
ghost use Rattle.request_props.specs.Numbered.{order_number as the_order_number};
ghost use Rattle.request_props.specs.Numbered.{side_of, equality_of as the_equality_of};
ghost use Rattle.request_props.specs.Numbered.{dist_by as the_dist_by, are_grouped as the_are_grouped};
ghost use Rattle.request_props.specs.Numbered.{group_order as the_group_order};

use crate::found::ascending;
use crate::given::GivenDist;
use crate::sides::{Equality, Side};
use orca_base::List;
use query_core::{CmpOp, KeyParts, Operand, Pred, Query};
use std::alloc::{AllocError, Global};

/// For each predicate both its sides, where it is an equality of two items.
pub fn equalities(
    alloc: Global,
    query: &Query,
    lists: &[List<u32>],
    orders: &[List<u32>],
) -> Result<Vec<Option<Equality>>, AllocError>
    requires lists { lists.now ≡ lists_of query.now }
    requires few_lists { length lists.now ≤ 60 }
    requires orders { orders.now ≡ orders_of query.now }
    requires few_orders { length orders.now ≤ 60 }
    ensures { IfOk result (λ found. found.items ≡ map (the_equality_of query.now) query.now.preds) }
{
    let mut found = Vec::new(alloc);
    for pred in query.preds.as_slice() {
        found.push(equality(query, lists, orders, pred))?;
    }
    Ok(found)
}

/// Where the rows of each table lie.
pub fn placings(
    alloc: Global,
    query: &Query,
    lists: &[List<u32>],
) -> Result<Vec<GivenDist>, AllocError>
    requires lists { lists.now ≡ lists_of query.now }
    requires few_lists { length lists.now ≤ 60 }
    ensures { IfOk result (λ found.
        found.items ≡ map (λ table. the_dist_by query.now table.hashed) query.now.tables) }
{
    let mut found = Vec::new(alloc);
    for table in query.tables.as_slice() {
        found.push(placing(query, lists, &table.hashed))?;
    }
    Ok(found)
}

/// Of each hashed list whether all of it is in GROUP BY.
pub fn grouped(alloc: Global, query: &Query, lists: &[List<u32>]) -> Result<Vec<bool>, AllocError>
    ensures { IfOk result (λ found. found.items ≡ map (the_are_grouped query.now) lists.now) }
{
    let mut found = Vec::new(alloc);
    for list in lists {
        found.push(are_grouped(query, list.as_slice()))?;
    }
    Ok(found)
}

/// The number of the order of the GROUP BY columns, each ascending; 0 where there is none.
pub fn group_order(alloc: Global, query: &Query, orders: &[List<u32>]) -> Result<u32, AllocError>
    requires orders { orders.now ≡ orders_of query.now }
    requires few_orders { length orders.now ≤ 60 }
    ensures { IfOk result (λ number. number ≡ the_group_order query.now) }
{
    let order = ascending(alloc, query.group_by.as_slice())?;
    Ok(order_number(query, orders, order.as_slice()))
}

fn equality(
    query: &Query,
    lists: &[List<u32>],
    orders: &[List<u32>],
    pred: &Pred,
) -> Option<Equality>
    requires lists { lists.now ≡ lists_of query.now }
    requires few_lists { length lists.now ≤ 60 }
    requires orders { orders.now ≡ orders_of query.now }
    requires few_orders { length orders.now ≤ 60 }
    requires over { IsTrue (nat_lt pred.now.left (length query.now.items) &&
        is_operand query.now.items pred.now.right) }
    ensures { result ≡ the_equality_of query.now pred.now }
{
    match (pred.op, &pred.right) {
        (CmpOp::Eq, Operand::Item(right)) => Some(Equality {
            left: side(query, lists, orders, pred.left),
            right: side(query, lists, orders, *right),
        }),
        _ => None,
    }
}

fn side(query: &Query, lists: &[List<u32>], orders: &[List<u32>], column: u32) -> Side
    requires lists { lists.now ≡ lists_of query.now }
    requires few_lists { length lists.now ≤ 60 }
    requires orders { orders.now ≡ orders_of query.now }
    requires few_orders { length orders.now ≤ 60 }
    requires item { column < length query.now.items }
    ensures { result ≡ side_of query.now column }
{
    Side {
        column,
        list: list_number(query, lists, &[column]),
        order: order_number(query, orders, &[2 * column]),
    }
}

fn placing(query: &Query, lists: &[List<u32>], hashed: &Option<List<u32>>) -> GivenDist
    requires lists { lists.now ≡ lists_of query.now }
    requires few_lists { length lists.now ≤ 60 }
    ensures { result ≡ the_dist_by query.now hashed.now }
{
    match hashed {
        Some(list) => GivenDist::Hashed(list_number(query, lists, list.as_slice())),
        None => GivenDist::Random,
    }
}

fn are_grouped(query: &Query, columns: &[u32]) -> bool
    ensures { result ≡ the_are_grouped query.now columns.now }
{
    // The items of partial groups are the GROUP BY columns.
    columns
        .iter()
        .all(|column| query.group_has_item(KeyParts::Partial, *column))
}

fn list_number(query: &Query, lists: &[List<u32>], list: &[u32]) -> u32
    requires lists { lists.now ≡ lists_of query.now }
    requires few_lists { length lists.now ≤ 60 }
    ensures { result ≡ the_list_number query.now list.now }
{
    place_of(lists, list) as u32
}

/// The number of the order; the empty one has 0.
pub fn order_number(query: &Query, orders: &[List<u32>], order: &[u32]) -> u32
    requires orders { orders.now ≡ orders_of query.now }
    requires few_orders { length orders.now ≤ 60 }
    ensures { result ≡ the_order_number query.now order.now }
{
    match order {
        [] => 0,
        [_, ..] => place_of(orders, order) as u32 + 1,
    }
}

// The first place of the list, or the length where it has none.
fn place_of(lists: &[List<u32>], list: &[u32]) -> usize
    ensures value { result ≡ position_or_len (bytes_eq list.now) lists.now }
    ensures most { result ≤ length lists.now }
{
    for place in 0..lists.len() {
        if list == lists[place].as_slice() {
            return place;
        }
    }
    lists.len()
}
