//! The lists and orders that a query has, each as often as it has them.
#![tactic(auto)]

ghost use Rattle.std.specs.Prelude.{◌≡◌, ◌<◌, ◌++◌, IfOk, OnOk};
ghost use Rattle.std.specs.List.{All};
ghost use Rattle.request_props.specs.Found.{one_each, ascending as the_ascending, elements_of};
ghost use Rattle.request_props.specs.Found.{found_lists as the_found_lists};
ghost use Rattle.request_props.specs.Found.{found_orders as the_found_orders};
ghost use Rattle.request_props.specs.Found.{joined_columns as the_joined_columns};
ghost use Rattle.request_props.specs.Found.{is_across, sides_of};
ghost use Rattle.request_props.specs.Found.{sides_across as the_sides_across, sides_between as the_sides_between};
ghost use Rattle.request_props.specs.Found.{table_lists as the_table_lists};
ghost use Rattle.request_props.specs.Found.{unless_empty, grouped_order, wanted_order as the_wanted_order};

use orca_base::List;
use query_core::{CmpOp, Item, Operand, OrderKey, Pred, Query};
use std::alloc::{AllocError, Global};

/// The lists by whose hash rows may be placed.
pub fn found_lists(alloc: Global, query: &Query) -> Result<Vec<List<u32>>, AllocError>
    ensures value { IfOk result (λ found. found.items ≡ the_found_lists query.now) }
{
    let mut found = Vec::new(alloc);
    push_lists(alloc, &mut found, query)?;
    Ok(found)
}

fn push_lists(alloc: Global, found: &mut Vec<List<u32>>, query: &Query) -> Result<(), AllocError>
    ensures { OnOk result (found.new.items ≡ found.old.items ++ the_found_lists query.now) }
{
    push_table_lists(alloc, found, query)?;
    push_joined(alloc, found, query)?;
    push_unless_empty(alloc, found, query.group_by.as_slice())
}

/// The orders that may be asked for, but for the empty one, as lists of elements.
pub fn found_orders(alloc: Global, query: &Query) -> Result<Vec<List<u32>>, AllocError>
    ensures value { IfOk result (λ found. found.items ≡ the_found_orders query.now) }
{
    let mut found = Vec::new(alloc);
    push_orders(alloc, &mut found, query)?;
    Ok(found)
}

fn push_orders(alloc: Global, found: &mut Vec<List<u32>>, query: &Query) -> Result<(), AllocError>
    ensures { OnOk result (found.new.items ≡ found.old.items ++ the_found_orders query.now) }
{
    push_wanted(alloc, found, query)?;
    push_joined_orders(alloc, found, query)?;
    push_grouped(alloc, found, query)
}

/// The elements of the ORDER BY list.
pub fn wanted_order(alloc: Global, query: &Query) -> Result<Vec<u32>, AllocError>
    ensures value { IfOk result (λ elements. elements.items ≡ the_wanted_order query.now) }
{
    elements(alloc, query.order.as_slice())
}

fn push_wanted(alloc: Global, found: &mut Vec<List<u32>>, query: &Query) -> Result<(), AllocError>
    ensures { OnOk result (found.new.items ≡ found.old.items ++ unless_empty (the_wanted_order query.now)) }
{
    let order = wanted_order(alloc, query)?;
    push_unless_empty(alloc, found, order.as_slice())
}

fn push_grouped(alloc: Global, found: &mut Vec<List<u32>>, query: &Query) -> Result<(), AllocError>
    ensures { OnOk result (found.new.items ≡ found.old.items ++ unless_empty (grouped_order query.now)) }
{
    let order = ascending(alloc, query.group_by.as_slice())?;
    push_unless_empty(alloc, found, order.as_slice())
}

fn push_joined(alloc: Global, found: &mut Vec<List<u32>>, query: &Query) -> Result<(), AllocError>
    ensures { OnOk result (found.new.items ≡ found.old.items ++ one_each (the_joined_columns query.now)) }
{
    let columns = joined_columns(alloc, query)?;
    push_one_each(alloc, found, columns.as_slice())
}

fn push_joined_orders(
    alloc: Global,
    found: &mut Vec<List<u32>>,
    query: &Query,
) -> Result<(), AllocError>
    ensures { OnOk result (found.new.items ≡
        found.old.items ++ one_each (the_ascending (the_joined_columns query.now))) }
{
    let columns = joined_columns(alloc, query)?;
    push_ascending(alloc, found, columns.as_slice())
}

// Adds each of the columns, ascending, as an order of its own.
fn push_ascending(
    alloc: Global,
    found: &mut Vec<List<u32>>,
    columns: &[u32],
) -> Result<(), AllocError>
    requires { All (λ column. column < 60) columns.now }
    ensures { OnOk result (found.new.items ≡ found.old.items ++ one_each (the_ascending columns.now)) }
{
    let orders = ascending(alloc, columns)?;
    push_one_each(alloc, found, orders.as_slice())
}

fn push_table_lists(
    alloc: Global,
    found: &mut Vec<List<u32>>,
    query: &Query,
) -> Result<(), AllocError>
    ensures { OnOk result (found.new.items ≡ found.old.items ++ the_table_lists query.now) }
{
    for table in query.tables.as_slice() {
        if let Some(list) = &table.hashed {
            found.push(list.copy(alloc)?)?;
        }
    }
    Ok(())
}

fn joined_columns(alloc: Global, query: &Query) -> Result<Vec<u32>, AllocError>
    ensures value { IfOk result (λ columns. columns.items ≡ the_joined_columns query.now) }
{
    let mut columns = Vec::new(alloc);
    for pred in query.preds.as_slice() {
        push_sides(&mut columns, query.items.as_slice(), pred)?;
    }
    Ok(columns)
}

fn push_sides(into: &mut Vec<u32>, items: &[Item], pred: &Pred) -> Result<(), AllocError>
    ensures { OnOk result (into.new.items ≡ into.old.items ++ sides_of items.now pred.now) }
{
    match pred.op {
        CmpOp::Eq => push_sides_across(into, items, pred.left, &pred.right),
        CmpOp::Ne => Ok(()),
        CmpOp::Lt => Ok(()),
        CmpOp::Le => Ok(()),
        CmpOp::Gt => Ok(()),
        CmpOp::Ge => Ok(()),
    }
}

fn push_sides_across(
    into: &mut Vec<u32>,
    items: &[Item],
    left: u32,
    right: &Operand,
) -> Result<(), AllocError>
    ensures { OnOk result (into.new.items ≡ into.old.items ++ the_sides_across items.now left right.now) }
{
    match right {
        Operand::Item(right) => push_columns(into, items, left, *right),
        Operand::Int(_) => Ok(()),
        Operand::Str(_) => Ok(()),
    }
}

fn push_columns(
    into: &mut Vec<u32>,
    items: &[Item],
    left: u32,
    right: u32,
) -> Result<(), AllocError>
    ensures { OnOk result (into.new.items ≡ into.old.items ++ the_sides_between items.now left right) }
{
    if are_apart(items, left, right) {
        into.push(left)?;
        into.push(right)?;
    }
    Ok(())
}

// Whether the items are columns of different tables.
fn are_apart(items: &[Item], left: u32, right: u32) -> bool
    ensures { result ≡ is_across items.now left right }
{
    match (items.get(left as usize), items.get(right as usize)) {
        (Some(item), Some(other)) => item.table != other.table,
        _ => false,
    }
}

// Adds each of the numbers as a list of its own.
fn push_one_each(
    alloc: Global,
    found: &mut Vec<List<u32>>,
    numbers: &[u32],
) -> Result<(), AllocError>
    ensures { OnOk result (found.new.items ≡ found.old.items ++ one_each numbers.now) }
{
    for number in numbers {
        found.push(List::of(vec![in alloc; *number]?))?;
    }
    Ok(())
}

fn push_unless_empty(
    alloc: Global,
    found: &mut Vec<List<u32>>,
    list: &[u32],
) -> Result<(), AllocError>
    ensures { OnOk result (found.new.items ≡ found.old.items ++ unless_empty list.now) }
{
    if !list.is_empty() {
        found.push(List::of(Vec::from_slice(alloc, list)?))?;
    }
    Ok(())
}

/// Columns, each ascending, as an order.
pub fn ascending(alloc: Global, columns: &[u32]) -> Result<Vec<u32>, AllocError>
    requires { All (λ column. column < 60) columns.now }
    ensures { IfOk result (λ elements. elements.items ≡ the_ascending columns.now) }
{
    let mut elements = Vec::new(alloc);
    for column in columns {
        elements.push(2 * *column)?;
    }
    Ok(elements)
}

fn elements(alloc: Global, keys: &[OrderKey]) -> Result<Vec<u32>, AllocError>
    requires { All (λ key. key.item < 60) keys.now }
    ensures { IfOk result (λ elements. elements.items ≡ elements_of keys.now) }
{
    let mut elements = Vec::new(alloc);
    for key in keys {
        elements.push(2 * key.item + if key.desc { 1 } else { 0 })?;
    }
    Ok(elements)
}
