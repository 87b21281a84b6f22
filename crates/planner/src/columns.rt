//! The columns by which a node works, by name.
#![tactic(auto)]

ghost use Rattle.std.specs.Prelude.{◌≡◌, IfOk, map};
ghost use Rattle.request_props.specs.Found.{element_of, elements_of};
ghost use Rattle.request_props.specs.Numbered.{IsProps};
ghost use Rattle.request_props.specs.Satisfied.{index_columns as the_index_columns};
ghost use Rattle.query_text.specs.Columns.{computed_text as the_computed_text};
ghost use Rattle.planner.specs.Columns.{columns_of as the_columns_of, native_columns as the_native_columns};
ghost use Rattle.planner.specs.Columns.{enforcer_columns as the_enforcer_columns, column_at, column_by};
ghost use Rattle.planner.specs.Columns.{join_columns as the_join_columns, logical_columns as the_logical_columns};

use crate::node::PlanColumn;
use orca_base::{List, Text};
use plan_space::{Enforcer, NodeKind};
use query_core::{Access, KeyParts, Logical, OrderKey, PhysicalExpr, Query, table_in};
use query_text::{computed_text, list_columns, order_keys};
use request_props::Props;
use std::alloc::{AllocError, Global};

/// The columns of a node.
pub fn columns_of(
    alloc: Global,
    query: &Query,
    props: &Props,
    kind: NodeKind,
) -> Result<List<PlanColumn>, AllocError>
    requires { IsProps query.now props.now }
    ensures { IfOk result (λ columns. columns ≡ the_columns_of query.now kind) }
{
    match kind {
        NodeKind::Native(expr, _) => operator_columns(alloc, query, expr),
        NodeKind::Enforcer(enforcer) => enforcer_columns(alloc, query, props, enforcer),
    }
}

fn operator_columns(
    alloc: Global,
    query: &Query,
    expr: PhysicalExpr,
) -> Result<List<PlanColumn>, AllocError>
    ensures { IfOk result (λ columns. columns ≡ the_native_columns query.now expr) }
{
    let implemented = expr.operator.implements(expr.group);
    match expr.operator.access() {
        Access::Direct => logical_columns(alloc, query, implemented),
        Access::Index(index) => {
            named(
                alloc,
                query,
                index_columns(query, table_in(expr.group), index),
            )
        }
    }
}

fn logical_columns(
    alloc: Global,
    query: &Query,
    operator: Logical,
) -> Result<List<PlanColumn>, AllocError>
    ensures { IfOk result (λ columns.
        columns ≡ map (column_at query.now) (the_logical_columns query.now operator)) }
{
    match operator {
        Logical::Get => Ok(List::new(alloc)),
        Logical::Select(_) => Ok(List::new(alloc)),
        Logical::NJoin => Ok(List::new(alloc)),
        Logical::Join(left, right) => join_columns(alloc, query, left, right),
        Logical::Agg(_) => named(alloc, query, query.group_by.as_slice()),
        Logical::Partial(_) => named(alloc, query, query.group_by.as_slice()),
    }
}

fn enforcer_columns(
    alloc: Global,
    query: &Query,
    props: &Props,
    enforcer: Enforcer,
) -> Result<List<PlanColumn>, AllocError>
    requires { IsProps query.now props.now }
    ensures { IfOk result (λ columns. columns ≡ the_enforcer_columns query.now enforcer) }
{
    match enforcer {
        Enforcer::Gather => Ok(List::new(alloc)),
        Enforcer::Broadcast => Ok(List::new(alloc)),
        Enforcer::Sort(order) => sorted(alloc, query, order_keys(query, props, order)),
        Enforcer::GatherMerge(order) => sorted(alloc, query, order_keys(query, props, order)),
        Enforcer::Redistribute(list) => named(alloc, query, list_columns(query, props, list)),
    }
}

// The columns of an index of a table; none where there is no such index.
fn index_columns(query: &Query, table: u32, index: u32) -> &[u32]
    ensures { result.now ≡ the_index_columns query.now table index }
{
    let Some(table) = query.tables.as_slice().get(table as usize) else {
        return &[];
    };
    match table.indexes.as_slice().get(index as usize) {
        Some(columns) => columns.as_slice(),
        None => &[],
    }
}

// The two columns of each equality between the groups.
fn join_columns(
    alloc: Global,
    query: &Query,
    left: KeyParts,
    right: KeyParts,
) -> Result<List<PlanColumn>, AllocError>
    ensures { IfOk result (λ columns.
        columns ≡ map (column_at query.now) (the_join_columns query.now left right)) }
{
    let mut numbers = Vec::new(alloc);
    for pred in 0..query.preds.len() as u32 {
        if let Some((a, b)) = query.crossing_groups(left, right, pred) {
            numbers.push(a)?;
            numbers.push(b)?;
        }
    }
    named(alloc, query, numbers.as_slice())
}

// The columns of an order, by name.
fn sorted(alloc: Global, query: &Query, keys: &[OrderKey]) -> Result<List<PlanColumn>, AllocError>
    ensures { IfOk result (λ columns.
        columns ≡ map (column_by query.now) (elements_of keys.now)) }
{
    let mut columns = List::new(alloc);
    for key in keys {
        columns.push(column(alloc, query, *key)?)?;
    }
    Ok(columns)
}

fn column(alloc: Global, query: &Query, key: OrderKey) -> Result<PlanColumn, AllocError>
    ensures { IfOk result (λ column. column ≡ column_by query.now (element_of key)) }
{
    Ok(PlanColumn {
        name: name(alloc, query, key.item)?,
        descending: key.desc,
    })
}

// The name of a column, or what an aggregate computes.
fn name(alloc: Global, query: &Query, number: u32) -> Result<Text, AllocError>
    ensures { IfOk result (λ name. name ≡ the_computed_text query.now number) }
{
    Ok(Text::of(computed_text(alloc, query, number)?))
}

// The columns of these numbers, by name, each ascending.
fn named(alloc: Global, query: &Query, numbers: &[u32]) -> Result<List<PlanColumn>, AllocError>
    ensures { IfOk result (λ columns. columns ≡ map (column_at query.now) numbers.now) }
{
    let mut columns = List::new(alloc);
    for number in numbers {
        columns.push(PlanColumn {
            name: name(alloc, query, *number)?,
            descending: false,
        })?;
    }
    Ok(columns)
}
