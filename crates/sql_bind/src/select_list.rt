//! The select list: plain columns, and aggregates, which are numbered from 0 in text order.
ghost use Rattle.std.specs.Prelude.{◌≡◌, ◌<◌, ◌≤◌, ◌++◌, List, [], length, IfOk, option_to_list};
ghost use Rattle.sql_bind.specs.declared.select_list.Chosen.{Chosen};
ghost use Rattle.sql_bind.specs.Steps.{Yields};
ghost use Rattle.sql_bind.specs.SelectList.{function_of as the_function_of, is_aggregate as the_is_aggregate};
ghost use Rattle.sql_bind.specs.SelectList.{aggregates as the_aggregates, call_in as the_call_in};
ghost use Rattle.sql_bind.specs.SelectList.{what_in as the_what_in, is_called as the_is_called, output_names};
ghost use Rattle.sql_bind.specs.SelectList.{named_as as the_named_as, chosen_in as the_chosen_in};
ghost use Rattle.sql_bind.specs.SelectList.{chosen_of as the_chosen_of};

use crate::columns::{Column, column_of};
use crate::fault::BindFault;
use crate::names::DistinctNames;
use crate::scope::ScopeTable;
use crate::written::Written;
use orca_base::{List, Text};
use query_core::AggFunc;
use sql_reader::{ColRef, SelExpr, SelFunc, SelItem};
use std::alloc::Global;

/// What an element of the select list is.
#[derive(Clone, Copy)]
pub enum What {
    /// A column, which is written at this place.
    Column {
        at: u32,
        column: Column,
    },
    /// The aggregate of this number.
    Aggregate {
        number: u8,
        func: AggFunc,
        arg: Option<Column>,
    },
}

/// An element of the select list.
#[derive(Drop)]
pub struct Chosen<'a> {
    pub what: What,
    /// The output name, where one is given.
    pub name: Option<Written<'a>>,
}

fn function_of(func: SelFunc) -> AggFunc
    ensures { result ≡ the_function_of func }
{
    match func {
        SelFunc::CountAll => AggFunc::CountAll,
        SelFunc::Count => AggFunc::Count,
        SelFunc::Sum => AggFunc::Sum,
        SelFunc::Min => AggFunc::Min,
        SelFunc::Max => AggFunc::Max,
    }
}

pub fn is_aggregate(what: What) -> bool
    ensures { result ≡ the_is_aggregate what }
{
    match what {
        What::Column { .. } => false,
        What::Aggregate { .. } => true,
    }
}

/// How many aggregates there are.
pub fn aggregates(chosen: &[Chosen<'_>]) -> usize
    ensures count { result ≡ the_aggregates chosen.now }
    ensures few { result ≤ length chosen.now }
{
    let mut count = 0;
    for item in chosen {
        if is_aggregate(item.what) {
            count += 1;
        }
    }
    count
}

fn call_in(
    alloc: Global,
    sources: &[ScopeTable<'_>],
    number: u8,
    func: AggFunc,
    arg: &Option<ColRef>,
) -> Result<What, BindFault>
    ensures { Yields (the_call_in sources.now number func arg.now) result }
{
    match arg {
        None => Ok(What::Aggregate {
            number,
            func,
            arg: None,
        }),
        Some(reference) => {
            let column = column_of(alloc, sources, reference)?;
            Ok(What::Aggregate {
                number,
                func,
                arg: Some(column),
            })
        }
    }
}

fn what_in(
    alloc: Global,
    sources: &[ScopeTable<'_>],
    number: u8,
    expr: &SelExpr,
) -> Result<What, BindFault>
    ensures { Yields (the_what_in sources.now number expr.now) result }
{
    match expr {
        SelExpr::Column(reference) => {
            let column = column_of(alloc, sources, reference)?;
            Ok(What::Column {
                at: reference.at,
                column,
            })
        }
        SelExpr::Agg { func, arg } => call_in(alloc, sources, number, function_of(*func), arg),
    }
}

pub fn is_called(name: &Text, chosen: &Chosen<'_>) -> bool
    ensures { result ≡ the_is_called name.now chosen.now }
{
    match &chosen.name {
        Some(other) => other.is(name),
        None => false,
    }
}

/// An element under its output name, which is added.
#[tactic(auto, unfolding(crate::specs::SelectList::any_called))]
fn named_as<'a>(
    names: &mut DistinctNames<'a>,
    item: &'a SelItem,
    what: What,
) -> Result<Chosen<'a>, BindFault>
    ensures bound { (before : List Chosen) → names.old ≡ output_names before
        → Yields (the_named_as before item.now.name_at item.now.name what) result }
    ensures added { IfOk result (λ c. names.new ≡ names.old ++ option_to_list c.name) }
{
    let Some(name) = &item.name else {
        return Ok(Chosen { what, name: None });
    };
    if names.has(name) {
        return Err(BindFault::TwiceAlias { at: item.name_at });
    }
    names.add(name)?;
    Ok(Chosen {
        what,
        name: Some(Written::of(name)),
    })
}

#[tactic(auto, unfolding(crate::specs::SelectList::chosen_in))]
fn chosen_in<'a>(
    alloc: Global,
    sources: &[ScopeTable<'_>],
    before: &[Chosen<'_>],
    names: &mut DistinctNames<'a>,
    item: &'a SelItem,
) -> Result<Chosen<'a>, BindFault>
    requires few { length before.now ≤ 60 }
    requires names { names.old ≡ output_names before.now }
    ensures bound { Yields (the_chosen_in sources.now before.now item.now) result }
    ensures added { IfOk result (λ c. names.new ≡ names.old ++ option_to_list c.name) }
{
    let number = aggregates(before) as u8;
    let what = what_in(alloc, sources, number, &item.expr)?;
    named_as(names, item, what)
}

/// The select list in text order.
pub fn chosen_of<'a>(
    alloc: Global,
    sources: &[ScopeTable<'_>],
    items: &'a [SelItem],
) -> Result<List<Chosen<'a>>, BindFault>
    requires { length items.now ≤ 60 }
    ensures { Yields (the_chosen_of sources.now items.now) result }
{
    let mut names = DistinctNames::with_capacity(alloc, items.len())?;
    elements_of(alloc, sources, items, &mut names)
}

/// The elements of the select list, whose output names are added.
fn elements_of<'a>(
    alloc: Global,
    sources: &[ScopeTable<'_>],
    items: &'a [SelItem],
    names: &mut DistinctNames<'a>,
) -> Result<List<Chosen<'a>>, BindFault>
    requires few { length items.now ≤ 60 }
    requires empty { names.old ≡ [] }
    ensures { Yields (the_chosen_of sources.now items.now) result }
{
    let mut chosen = List::new(alloc);
    for item in items {
        let element = chosen_in(alloc, sources, chosen.as_slice(), names, item)?;
        chosen.push(element)?;
    }
    Ok(chosen)
}
