//! The texts of all nodes that a query can name.
#![tactic(auto)]

ghost use Rattle.std.specs.Prelude.{◌≡◌, IfOk, OnOk, length};
ghost use Rattle.request_props.specs.Numbered.{IsProps};
ghost use Rattle.plan_reading.specs.Texts.{IsNodeTexts, AddsNodeTexts, IsOfKind, IsOfAny, IsOfEnforcer, IsOfNumbers};
ghost use Rattle.plan_reading.specs.Texts.{IsOfOperator, IsOfIndexes, IsOfTables, index_numbers};
ghost use Rattle.plan_reading.specs.Texts.{moves as the_moves, enforcers_by as the_enforcers_by};

use crate::named::{Named, has_form};
use crate::operators::{direct_operators, index_operators};
use orca_base::Text;
use plan_lines::node_text;
use plan_space::{Enforcer, MODES_END, NodeKind};
use query_core::{KeyParts, Physical, PhysicalExpr, Query, candidates_are_known};
use request_props::Props;
use std::alloc::{AllocError, Global};

/// A node that a query can name, and its text.
#[derive(Drop)]
pub struct NodeText {
    pub text: Text,
    pub node: Named,
}

/// The numbers of orders, from 0 on, and of hashed lists are less.
const NUMBERS: u32 = 61;

/// The numbers of indexes are less.
const INDEXES: u32 = 32;

/// The texts of all nodes that the query can name.
pub fn node_texts(alloc: Global, query: &Query, props: &Props) -> Result<Vec<NodeText>, AllocError>
    requires { IsProps query.now props.now }
    ensures { IfOk result (λ texts. IsNodeTexts query.now texts.items) }
{
    // For the proof: the number of an index fits the word of an expression.
    candidates_are_known();
    let mut texts = Vec::new(alloc);
    push_enforcers(alloc, query, props, &moves(), &mut texts)?;
    push_numbers(alloc, query, props, &mut texts)?;
    push_tables(alloc, query, props, &mut texts)?;
    Ok(texts)
}

// ---- enforcers

// Those without a number.
fn moves() -> [Enforcer; 2]
    ensures { result ≡ the_moves }
{
    [Enforcer::Gather, Enforcer::Broadcast]
}

// Those by the order or the list of this number.
fn enforcers_by(number: u32) -> [Enforcer; 3]
    ensures { result ≡ the_enforcers_by number }
{
    [
        Enforcer::Sort(number),
        Enforcer::GatherMerge(number),
        Enforcer::Redistribute(number),
    ]
}

fn push_numbers(
    alloc: Global,
    query: &Query,
    props: &Props,
    texts: &mut Vec<NodeText>,
) -> Result<(), AllocError>
    requires { IsProps query.now props.now }
    ensures { OnOk result (AddsNodeTexts query.now (IsOfNumbers 61) texts.old.items texts.new.items) }
{
    for number in 0..NUMBERS {
        push_enforcers(alloc, query, props, &enforcers_by(number), texts)?;
    }
    Ok(())
}

fn push_enforcers(
    alloc: Global,
    query: &Query,
    props: &Props,
    enforcers: &[Enforcer],
    texts: &mut Vec<NodeText>,
) -> Result<(), AllocError>
    requires { IsProps query.now props.now }
    ensures { OnOk result (AddsNodeTexts query.now (IsOfAny IsOfEnforcer enforcers.now)
        texts.old.items texts.new.items) }
{
    for enforcer in enforcers {
        push_kind(alloc, query, props, NodeKind::Enforcer(*enforcer), texts)?;
    }
    Ok(())
}

// ---- operators

fn push_tables(
    alloc: Global,
    query: &Query,
    props: &Props,
    texts: &mut Vec<NodeText>,
) -> Result<(), AllocError>
    requires { IsProps query.now props.now }
    ensures { OnOk result
        (AddsNodeTexts query.now (IsOfTables (length query.now.tables)) texts.old.items texts.new.items) }
{
    let count = query.tables.len() as u32;
    for table in 0..count {
        push_operators(alloc, query, props, table, &direct_operators(), texts)?;
        push_indexes(alloc, query, props, table, texts)?;
    }
    Ok(())
}

fn push_indexes(
    alloc: Global,
    query: &Query,
    props: &Props,
    table: u32,
    texts: &mut Vec<NodeText>,
) -> Result<(), AllocError>
    requires { IsProps query.now props.now }
    ensures { OnOk result
        (AddsNodeTexts query.now (IsOfIndexes table index_numbers) texts.old.items texts.new.items) }
{
    for index in 0..INDEXES {
        push_operators(alloc, query, props, table, &index_operators(index), texts)?;
    }
    Ok(())
}

// Operators over a table, which counts only where the line names it.
fn push_operators(
    alloc: Global,
    query: &Query,
    props: &Props,
    table: u32,
    operators: &[Physical],
    texts: &mut Vec<NodeText>,
) -> Result<(), AllocError>
    requires { IsProps query.now props.now }
    ensures { OnOk result (AddsNodeTexts query.now (IsOfAny (IsOfOperator table) operators.now)
        texts.old.items texts.new.items) }
{
    for operator in operators {
        push_operator(alloc, query, props, table, *operator, texts)?;
    }
    Ok(())
}

// An operator over the table in each mode.
fn push_operator(
    alloc: Global,
    query: &Query,
    props: &Props,
    table: u32,
    operator: Physical,
    texts: &mut Vec<NodeText>,
) -> Result<(), AllocError>
    requires { IsProps query.now props.now }
    ensures { OnOk result
        (AddsNodeTexts query.now (IsOfOperator table operator) texts.old.items texts.new.items) }
{
    let expr = PhysicalExpr {
        group: KeyParts::Get(table),
        operator,
    };
    for mode in 0..MODES_END {
        push_kind(alloc, query, props, NodeKind::Native(expr, mode), texts)?;
    }
    Ok(())
}

// A node, if the query can name it.
fn push_kind(
    alloc: Global,
    query: &Query,
    props: &Props,
    kind: NodeKind,
    texts: &mut Vec<NodeText>,
) -> Result<(), AllocError>
    requires { IsProps query.now props.now }
    ensures { OnOk result (AddsNodeTexts query.now (IsOfKind kind) texts.old.items texts.new.items) }
{
    let node = Named::of(kind);
    if has_form(query, props, node) {
        let text = Text::of(node_text(alloc, query, props, kind)?);
        texts.push(NodeText { text, node })?;
    }
    Ok(())
}
