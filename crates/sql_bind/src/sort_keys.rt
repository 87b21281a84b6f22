//! The keys of ORDER BY: columns, and elements of the select list by their output names.
ghost use Rattle.std.specs.Prelude.{◌≡◌, option_map, option_copied};
ghost use Rattle.sql_bind.specs.Steps.{Yields};
ghost use Rattle.sql_bind.specs.SortKeys.{target_of as the_target_of, first_called, named_target as the_named_target};
ghost use Rattle.sql_bind.specs.SortKeys.{meant_output as the_meant_output, target_in as the_target_in};
ghost use Rattle.sql_bind.specs.SortKeys.{key_in as the_key_in, keys_of as the_keys_of};

use crate::columns::{Column, column_of};
use crate::fault::BindFault;
use crate::scope::ScopeTable;
use crate::select_list::{Chosen, What, is_called};
use orca_base::{List, Text};
use sql_reader::{ColRef, SelKey};
use std::alloc::Global;

/// What is sorted by: a column, or the aggregate of this number.
#[derive(Clone, Copy)]
pub enum Target {
    Column(Column),
    Aggregate(u8),
}

/// A key of ORDER BY.
#[derive(Clone, Copy)]
pub struct SortKey {
    /// Where it is written.
    pub at: u32,
    pub target: Target,
    pub desc: bool,
}

/// What an element of the select list stands for.
pub fn target_of(what: What) -> Target
    ensures { result ≡ the_target_of what }
{
    match what {
        What::Column { at: _, column } => Target::Column(column),
        What::Aggregate {
            number,
            func: _,
            arg: _,
        } => Target::Aggregate(number),
    }
}

#[tactic(auto, unfolding(crate::specs::SortKeys::first_called))]
fn first_called<'c, 'a>(chosen: &'c [Chosen<'a>], name: &Text) -> Option<&'c Chosen<'a>>
    ensures { option_copied result ≡ first_called name.now chosen.now }
{
    chosen.iter().find(|element| is_called(name, element))
}

fn named_target(found: Option<&Chosen<'_>>) -> Option<Target>
    ensures { result ≡ the_named_target (option_copied found.entry) }
{
    match found {
        Some(element) => Some(target_of(element.what)),
        None => None,
    }
}

/// The output that a bare name means, where there is one of this name.
fn meant_output(chosen: &[Chosen<'_>], reference: &ColRef) -> Option<Target>
    ensures { result ≡ the_meant_output chosen.now reference.now.table reference.now.name }
{
    match &reference.table {
        Some(_) => None,
        None => named_target(first_called(chosen, &reference.name)),
    }
}

fn target_in(
    alloc: Global,
    sources: &[ScopeTable<'_>],
    meant: Option<Target>,
    reference: &ColRef,
) -> Result<Target, BindFault>
    ensures { Yields (the_target_in sources.now meant reference.now) result }
{
    match meant {
        Some(target) => Ok(target),
        None => {
            let column = column_of(alloc, sources, reference)?;
            Ok(Target::Column(column))
        }
    }
}

fn key_in(
    alloc: Global,
    sources: &[ScopeTable<'_>],
    chosen: &[Chosen<'_>],
    key: &SelKey,
) -> Result<SortKey, BindFault>
    ensures { Yields (the_key_in sources.now chosen.now key.now) result }
{
    let meant = meant_output(chosen, &key.col);
    let target = target_in(alloc, sources, meant, &key.col)?;
    Ok(SortKey {
        at: key.col.at,
        target,
        desc: key.desc,
    })
}

/// The keys in text order.
pub fn keys_of(
    alloc: Global,
    sources: &[ScopeTable<'_>],
    chosen: &[Chosen<'_>],
    order_by: &[SelKey],
) -> Result<List<SortKey>, BindFault>
    ensures { Yields (the_keys_of sources.now chosen.now order_by.now) result }
{
    let mut keys = List::new(alloc);
    for key in order_by {
        let bound = key_in(alloc, sources, chosen, key)?;
        keys.push(bound)?;
    }
    Ok(keys)
}
