//! The estimated rows of a group. No call here takes memory.
#![tactic(auto)]

ghost use Rattle.std.specs.Prelude.{ℕ, ◌≡◌, ◌≤◌, ◌<◌, ◌*◌};
ghost use Rattle.query_core.specs.declared.words.KeyParts.{KeyParts};
ghost use Rattle.query_core.specs.declared.words.KeyParts.TheVariants.{Filter};
ghost use Rattle.query_core.specs.Keys.{IsKey, NamesGroup, IsGroup};
ghost use Rattle.cardinality.specs.Rows.{own_rows, rows_of as the_rows_of, capped as the_capped};
ghost use Rattle.cardinality.specs.Rows.{table_rows as the_table_rows, joined_rows as the_joined_rows};
ghost use Rattle.cardinality.specs.Rows.{rows_next as the_rows_next, rows_with as the_rows_with};
ghost use Rattle.cardinality.specs.Rows.{rows_after as the_rows_after, rows_by as the_rows_by, applies as the_applies};
ghost use Rattle.cardinality.specs.Rows.{is_over as the_is_over, is_right_of as the_is_right_of};
ghost use Rattle.cardinality.specs.Rows.{is_column_so_far as the_is_column_so_far};
ghost use Rattle.cardinality.specs.Rows.{is_right_so_far as the_is_right_so_far};
ghost use Rattle.cardinality.specs.Rows.{input_rows as the_input_rows, grouped_rows as the_grouped_rows};
ghost use Rattle.cardinality.specs.Rows.{partial_rows as the_partial_rows, combinations as the_combinations};

use crate::factor::{Factor, factor_of, values_of};
use query_core::{Item, Key, KeyParts, Operand, Pred, Query, sets};

/// The most rows of any estimate.
const CAP: u64 = 1_000_000_000_000;

/// The estimated rows of a group, at most 10^12.
pub fn rows(query: &Query, key: Key) -> u64
    requires { IsKey query.now key }
    ensures value { (g : KeyParts) → NamesGroup query.now key g → result ≡ the_rows_of query.now g }
    ensures most { result ≤ 1000000000000 }
    ensures own { (t : ℕ) → NamesGroup query.now key (Filter t) → result ≡ own_rows query.now t }
{
    rows_of(query, query.group(key))
}

fn rows_of(query: &Query, group: KeyParts) -> u64
    requires { IsGroup query.now group }
    ensures value { result ≡ the_rows_of query.now group }
    ensures most { result ≤ 1000000000000 }
{
    match group {
        KeyParts::Get(table) => table_rows(query, table),
        KeyParts::Filter(table) => joined_rows(query, sets::of_one(table)),
        KeyParts::Join(set) => joined_rows(query, set),
        KeyParts::Partial => partial_rows(query),
        KeyParts::Agg => grouped_rows(query),
    }
}

fn grouped_rows(query: &Query) -> u64
    ensures value { result ≡ the_grouped_rows query.now }
    ensures most { result ≤ 1000000000000 }
{
    if query.group_by.is_empty() {
        return 1;
    }
    input_rows(query).min(combinations(query.items.as_slice(), query.group_by.as_slice()))
}

fn partial_rows(query: &Query) -> u64
    ensures value { result ≡ the_partial_rows query.now }
    ensures most { result ≤ 1000000000000 }
{
    if query.group_by.is_empty() {
        return query.segments;
    }
    input_rows(query).min(capped_product(query.segments, grouped_rows(query)))
}

/// The rows that are grouped.
fn input_rows(query: &Query) -> u64
    ensures value { result ≡ the_input_rows query.now }
    ensures most { result ≤ 1000000000000 }
{
    match query.input() {
        KeyParts::Get(table) => table_rows(query, table),
        KeyParts::Filter(table) => joined_rows(query, sets::of_one(table)),
        KeyParts::Join(set) => joined_rows(query, set),
        KeyParts::Partial => 0,
        KeyParts::Agg => 0,
    }
}

/// The combinations of values of some columns.
fn combinations(items: &[Item], columns: &[u32]) -> u64
    ensures value { result ≡ the_combinations items.now columns.now }
    ensures most { result ≤ 1000000000000 }
{
    let mut count = 1;
    for column in columns {
        count = capped_product(count, values_of(items, *column));
    }
    count
}

/// The rows of the join of a set of tables.
fn joined_rows(query: &Query, set: u32) -> u64
    ensures value { result ≡ the_joined_rows query.now set }
    ensures most { result ≤ 1000000000000 }
{
    let mut rows = 1;
    for table in 0..query.tables.len() as u32 {
        rows = rows_next(query, set, table, rows);
    }
    rows
}

fn rows_next(query: &Query, set: u32, table: u32, rows: u64) -> u64
    requires { rows ≤ 1000000000000 }
    ensures value { result ≡ the_rows_next query.now set table rows }
    ensures most { result ≤ 1000000000000 }
{
    if sets::has(set, table) {
        rows_with(query, set, table, rows)
    } else {
        rows
    }
}

/// The rows once the table has joined those before it.
fn rows_with(query: &Query, set: u32, table: u32, rows: u64) -> u64
    ensures value { result ≡ the_rows_with query.now set table rows }
    ensures most { result ≤ 1000000000000 }
{
    let mut left = capped_product(rows, table_rows(query, table));
    for pred in query.preds.as_slice() {
        left = rows_after(query, set, table, left, pred);
    }
    left
}

/// The rows that a predicate leaves, if it applies here.
fn rows_after(query: &Query, set: u32, table: u32, rows: u64, pred: &Pred) -> u64
    ensures value { result ≡ the_rows_after query.now.items set table rows pred.now }
    ensures fewer { result ≤ rows }
{
    if applies(query, set, table, pred) {
        rows_by(rows, factor_of(query.items.as_slice(), pred))
    } else {
        rows
    }
}

/// The rows that a factor leaves, rounded up.
fn rows_by(rows: u64, factor: Factor) -> u64
    requires some { 1 ≤ factor.den }
    requires share { factor.num ≤ factor.den }
    ensures value { result ≡ the_rows_by rows factor }
    ensures fewer { result ≤ rows }
{
    (rows as u128 * factor.num as u128).div_ceil(factor.den as u128) as u64
}

fn applies(query: &Query, set: u32, table: u32, pred: &Pred) -> bool
    ensures { result ≡ the_applies query.now.items set table pred.now }
{
    is_over(query, table, pred)
        && is_column_so_far(query, set, table, pred.left)
        && is_right_so_far(query, set, table, &pred.right)
}

fn is_over(query: &Query, table: u32, pred: &Pred) -> bool
    ensures { result ≡ the_is_over query.now.items table pred.now }
{
    query.is_column_of(table, pred.left) || is_right_of(query, table, &pred.right)
}

fn is_right_of(query: &Query, table: u32, right: &Operand) -> bool
    ensures { result ≡ the_is_right_of query.now.items table right.now }
{
    match right {
        Operand::Item(number) => query.is_column_of(table, *number),
        Operand::Int(_) => false,
        Operand::Str(_) => false,
    }
}

fn is_right_so_far(query: &Query, set: u32, table: u32, right: &Operand) -> bool
    ensures { result ≡ the_is_right_so_far query.now.items set table right.now }
{
    match right {
        Operand::Item(number) => is_column_so_far(query, set, table, *number),
        Operand::Int(_) => true,
        Operand::Str(_) => true,
    }
}

fn is_column_so_far(query: &Query, set: u32, table: u32, number: u32) -> bool
    ensures { result ≡ the_is_column_so_far query.now.items set table number }
{
    match query.items.as_slice().get(number as usize) {
        Some(item) => sets::has(set, item.table) && item.table <= table,
        None => false,
    }
}

fn table_rows(query: &Query, table: u32) -> u64
    ensures value { result ≡ the_table_rows query.now table }
    ensures most { result ≤ 1000000000000 }
{
    match query.tables.as_slice().get(table as usize) {
        Some(table) => table.rows,
        None => 0,
    }
}

/// The product, or 10^12 where it is more.
fn capped_product(a: u64, b: u64) -> u64
    ensures value { result ≡ the_capped (a * b) }
    ensures most { result ≤ 1000000000000 }
{
    (a as u128 * b as u128).min(CAP as u128) as u64
}
