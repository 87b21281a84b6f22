//! The texts of orders and hashed lists, by their numbers.
#![tactic(auto)]

ghost use Rattle.std.specs.Prelude.{◌≡◌, IfOk, OnOk, string_bytes};
ghost use Rattle.request_props.specs.Found.{element_of, elements_of};
ghost use Rattle.request_props.specs.Numbered.{IsProps, list_of, order_of};
ghost use Rattle.query_text.specs.Added.{AddsText};
ghost use Rattle.query_text.specs.Lists as texts;

use crate::columns::{push_column, push_sorted};
use query_core::{OrderKey, Query};
use request_props::Props;
use std::alloc::{AllocError, Global};

/// The elements of the order of this number, with a comma and a space between each two.
pub fn order_text(
    alloc: Global,
    query: &Query,
    props: &Props,
    number: u32,
) -> Result<String, AllocError>
    requires { IsProps query.now props.now }
    ensures { IfOk result (λ s.
        string_bytes s ≡ texts.order_text query.now (order_of query.now number)) }
{
    let mut text = String::new(alloc);
    push_order(query, props, number, &mut text)?;
    Ok(text)
}

/// The columns of the hashed list of this number, with a comma and a space between each two.
pub fn list_text(
    alloc: Global,
    query: &Query,
    props: &Props,
    number: u32,
) -> Result<String, AllocError>
    requires { IsProps query.now props.now }
    ensures { IfOk result (λ s.
        string_bytes s ≡ texts.list_text query.now (list_of query.now number)) }
{
    let mut text = String::new(alloc);
    push_list(query, props, number, &mut text)?;
    Ok(text)
}

/// Adds the text of the order of this number.
pub fn push_order(
    query: &Query,
    props: &Props,
    number: u32,
    text: &mut String,
) -> Result<(), AllocError>
    requires { IsProps query.now props.now }
    ensures ok { OnOk result (AddsText (string_bytes text.old)
        (texts.order_text query.now (order_of query.now number)) (string_bytes text.new)) }
{
    push_keys(query, order_keys(query, props, number), text)
}

/// Adds the text of the hashed list of this number.
pub fn push_list(
    query: &Query,
    props: &Props,
    number: u32,
    text: &mut String,
) -> Result<(), AllocError>
    requires { IsProps query.now props.now }
    ensures ok { OnOk result (AddsText (string_bytes text.old)
        (texts.list_text query.now (list_of query.now number)) (string_bytes text.new)) }
{
    push_columns(query, list_columns(query, props, number), text)
}

/// What the order of this number sorts by; nothing where there is none.
pub fn order_keys<'a>(query: &Query, props: &'a Props, number: u32) -> &'a [OrderKey]
    requires { IsProps query.now props.now }
    ensures { elements_of result.now ≡ order_of query.now number }
{
    if props.has_order(query, number) {
        props.order(number)
    } else {
        &[]
    }
}

/// The columns of the hashed list of this number; none where there is no list.
pub fn list_columns<'a>(query: &Query, props: &'a Props, number: u32) -> &'a [u32]
    requires { IsProps query.now props.now }
    ensures { result.now ≡ list_of query.now number }
{
    match props.hashed.as_slice().get(number as usize) {
        Some(list) => list.as_slice(),
        None => &[],
    }
}

fn push_keys(query: &Query, keys: &[OrderKey], text: &mut String) -> Result<(), AllocError>
    ensures ok { OnOk result (AddsText (string_bytes text.old)
        (texts.order_text query.now (elements_of keys.now)) (string_bytes text.new)) }
{
    match keys.split_first() {
        Some((first, others)) => {
            push_key(query, *first, text)?;
            push_other_keys(query, others, text)
        }
        None => Ok(()),
    }
}

// The elements that are not the first, each with a comma and a space in front.
fn push_other_keys(query: &Query, keys: &[OrderKey], text: &mut String) -> Result<(), AllocError>
    ensures ok { OnOk result (AddsText (string_bytes text.old)
        (texts.other_elements_text query.now (elements_of keys.now)) (string_bytes text.new)) }
{
    for key in keys {
        text.push_str(", ")?;
        push_key(query, *key, text)?;
    }
    Ok(())
}

// An element, with DESC where it descends.
fn push_key(query: &Query, key: OrderKey, text: &mut String) -> Result<(), AllocError>
    ensures ok { OnOk result (AddsText (string_bytes text.old)
        (texts.element_text query.now (element_of key)) (string_bytes text.new)) }
{
    push_sorted(query, key.item, text)?;
    text.push_str(if key.desc { " DESC" } else { "" })
}

fn push_columns(query: &Query, columns: &[u32], text: &mut String) -> Result<(), AllocError>
    ensures ok { OnOk result (AddsText (string_bytes text.old)
        (texts.list_text query.now columns.now) (string_bytes text.new)) }
{
    match columns.split_first() {
        Some((first, others)) => {
            push_column(query, *first, text)?;
            push_other_columns(query, others, text)
        }
        None => Ok(()),
    }
}

// The columns that are not the first, each with a comma and a space in front.
fn push_other_columns(query: &Query, columns: &[u32], text: &mut String) -> Result<(), AllocError>
    ensures ok { OnOk result (AddsText (string_bytes text.old)
        (texts.other_columns_text query.now columns.now) (string_bytes text.new)) }
{
    for column in columns {
        text.push_str(", ")?;
        push_column(query, *column, text)?;
    }
    Ok(())
}
