//! The texts of tables, columns and aggregates. Each call adds to a text.
#![tactic(auto)]

ghost use Rattle.std.specs.Prelude.{◌≡◌, IfOk, OnOk, string_bytes};
ghost use Rattle.query_text.specs.Columns as texts;
ghost use Rattle.query_text.specs.Added.{AddsText};

use query_core::{Agg, AggFunc, Item, Query};
use std::alloc::{AllocError, Global};

/// A column or an aggregate as the output has it. Aggregates are numbered after the columns.
pub fn computed_text(alloc: Global, query: &Query, number: u32) -> Result<String, AllocError>
    ensures { IfOk result (λ s. string_bytes s ≡ texts.computed_text query.now number) }
{
    let mut text = String::new(alloc);
    push_computed(query, number, &mut text)?;
    Ok(text)
}

/// Adds a column or an aggregate as the output has it.
pub fn push_computed(query: &Query, number: u32, text: &mut String) -> Result<(), AllocError>
    ensures ok { OnOk result (AddsText (string_bytes text.old)
        (texts.computed_text query.now number) (string_bytes text.new)) }
{
    match query.items.as_slice().get(number as usize) {
        Some(item) => push_item(query, item, text),
        None => push_aggregate_at(query, number as usize - query.items.len(), text),
    }
}

/// Adds a column, or the output name of an aggregate, as an order has it.
pub fn push_sorted(query: &Query, number: u32, text: &mut String) -> Result<(), AllocError>
    ensures ok { OnOk result (AddsText (string_bytes text.old)
        (texts.sorted_text query.now number) (string_bytes text.new)) }
{
    match query.items.as_slice().get(number as usize) {
        Some(item) => push_item(query, item, text),
        None => text.push_str(aggregate_name_at(query, number as usize - query.items.len())),
    }
}

/// Adds the column of this number.
pub fn push_column(query: &Query, number: u32, text: &mut String) -> Result<(), AllocError>
    ensures ok { OnOk result (AddsText (string_bytes text.old)
        (texts.column_text query.now number) (string_bytes text.new)) }
{
    match query.items.as_slice().get(number as usize) {
        Some(item) => push_item(query, item, text),
        None => Ok(()),
    }
}

/// The alias of the table at this place.
pub fn table_text(query: &Query, table: u32) -> &str
    ensures { result.now ≡ texts.table_text query.now table }
{
    match query.tables.as_slice().get(table as usize) {
        Some(found) => found.alias.as_str(),
        None => "",
    }
}

fn push_item(query: &Query, item: &Item, text: &mut String) -> Result<(), AllocError>
    ensures ok { OnOk result (AddsText (string_bytes text.old)
        (texts.item_text query.now item.now) (string_bytes text.new)) }
{
    text.push_str(table_text(query, item.table))?;
    text.push_str(".")?;
    text.push_str(item.name.as_str())
}

fn push_aggregate_at(query: &Query, place: usize, text: &mut String) -> Result<(), AllocError>
    ensures ok { OnOk result (AddsText (string_bytes text.old)
        (texts.aggregate_text_at query.now place) (string_bytes text.new)) }
{
    match query.aggs.as_slice().get(place) {
        Some(agg) => push_aggregate(query, agg, text),
        None => Ok(()),
    }
}

fn push_aggregate(query: &Query, agg: &Agg, text: &mut String) -> Result<(), AllocError>
    ensures ok { OnOk result (AddsText (string_bytes text.old)
        (texts.aggregate_text query.now agg.now) (string_bytes text.new)) }
{
    text.push_str(function_text(agg.func))?;
    text.push_str("(")?;
    push_argument(query, agg.arg, text)?;
    text.push_str(")")
}

fn function_text(function: AggFunc) -> &'static str
    ensures { result.now ≡ texts.function_text function }
{
    match function {
        AggFunc::CountAll => "COUNT",
        AggFunc::Count => "COUNT",
        AggFunc::Sum => "SUM",
        AggFunc::Min => "MIN",
        AggFunc::Max => "MAX",
    }
}

// The column that an aggregate goes over, or a star.
fn push_argument(query: &Query, argument: Option<u32>, text: &mut String) -> Result<(), AllocError>
    ensures ok { OnOk result (AddsText (string_bytes text.old)
        (texts.argument_text query.now argument) (string_bytes text.new)) }
{
    match argument {
        Some(column) => push_column(query, column, text),
        None => text.push_str("*"),
    }
}

fn aggregate_name_at(query: &Query, place: usize) -> &str
    ensures { result.now ≡ texts.aggregate_name_at query.now place }
{
    match query.aggs.as_slice().get(place) {
        Some(agg) => name_text(agg),
        None => "",
    }
}

// The output name of an aggregate, where it has one.
fn name_text(agg: &Agg) -> &str
    ensures { result.now ≡ texts.name_text agg.now.name }
{
    match &agg.name {
        Some(name) => name.as_str(),
        None => "",
    }
}
