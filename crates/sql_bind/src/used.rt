//! The columns that a query uses, by table and then by place in the catalogue.
ghost use Rattle.std.specs.Prelude.{◌≡◌, ◌++◌, IfOk, OnOk};
ghost use Rattle.sql_bind.specs.declared.columns.Column.{Column};
ghost use Rattle.sql_bind.specs.Columns.{is_among as the_is_among};
ghost use Rattle.sql_bind.specs.Used.{named_by_chosen, named_by_compared, named_by_keys, in_what, in_compared};
ghost use Rattle.sql_bind.specs.Used.{in_target, listed_from, places_of, placed_by, indexed_by};
ghost use Rattle.sql_bind.specs.Used.{wanted_by as the_wanted_by, used_in as the_used_in, used_from as the_used_from};
ghost use Rattle.sql_bind.specs.Used.{used_by as the_used_by};

use crate::columns::Column;
use crate::conditions::{Compared, Side};
use crate::numbers::UsedColumns;
use crate::parts::Parts;
use crate::scope::ScopeTable;
use crate::select_list::{Chosen, What};
use crate::sort_keys::{SortKey, Target};
use indexmap::IndexSet;
use orca_base::List;
use query_core::{ColumnInfo, Placing};
use std::alloc::{AllocError, Global};
use std::marker::Model;

/// A column, and what the catalogue says of it.
#[derive(Drop)]
pub struct Used<'a> {
    which: Column,
    info: &'a ColumnInfo,
}

impl<'a> Model for Used<'a> {
    ghost use Rattle.sql_bind.specs.Used.{UsedColumn};

    ghost Value = { UsedColumn };

    ghost view = { λ u. record { which = u.which; info = u.info.now } };
}

impl<'a> Used<'a> {
    fn new(column: Column, info: &'a ColumnInfo) -> Used<'a>
        ensures { result ≡ record { which = column; info = info.now } }
    {
        Used {
            which: column,
            info,
        }
    }

    pub fn column(&self) -> Column
        ensures { result ≡ self.now.which }
    {
        self.which
    }

    pub fn info(&self) -> &'a ColumnInfo
        ensures { result.now ≡ self.now.info }
    {
        self.info
    }
}

fn add_what(what: What, wanted: &mut Vec<Column>) -> Result<(), AllocError>
    ensures { OnOk result (wanted.new.items ≡ wanted.old.items ++ in_what what) }
{
    match what {
        What::Column { at: _, column } => wanted.push(column)?,
        What::Aggregate {
            number: _,
            func: _,
            arg: Some(column),
        } => wanted.push(column)?,
        What::Aggregate {
            number: _,
            func: _,
            arg: None,
        } => {}
    }
    Ok(())
}

fn add_chosen(chosen: &[Chosen<'_>], wanted: &mut Vec<Column>) -> Result<(), AllocError>
    ensures { OnOk result (wanted.new.items ≡ wanted.old.items ++ named_by_chosen chosen.now) }
{
    for element in chosen {
        add_what(element.what, wanted)?;
    }
    Ok(())
}

fn add_comparison(comparison: &Compared<'_>, wanted: &mut Vec<Column>) -> Result<(), AllocError>
    ensures { OnOk result (wanted.new.items ≡ wanted.old.items ++ in_compared comparison.now) }
{
    wanted.push(comparison.left)?;
    match comparison.right {
        Side::Column(column) => wanted.push(column)?,
        Side::Int(_) => {}
        Side::Str(_) => {}
    }
    Ok(())
}

fn add_compared(compared: &[Compared<'_>], wanted: &mut Vec<Column>) -> Result<(), AllocError>
    ensures { OnOk result (wanted.new.items ≡ wanted.old.items ++ named_by_compared compared.now) }
{
    for comparison in compared {
        add_comparison(comparison, wanted)?;
    }
    Ok(())
}

fn add_target(target: Target, wanted: &mut Vec<Column>) -> Result<(), AllocError>
    ensures { OnOk result (wanted.new.items ≡ wanted.old.items ++ in_target target) }
{
    match target {
        Target::Column(column) => wanted.push(column)?,
        Target::Aggregate(_) => {}
    }
    Ok(())
}

fn add_keys(keys: &[SortKey], wanted: &mut Vec<Column>) -> Result<(), AllocError>
    ensures { OnOk result (wanted.new.items ≡ wanted.old.items ++ named_by_keys keys.now) }
{
    for key in keys {
        add_target(key.target, wanted)?;
    }
    Ok(())
}

fn add_places(table: usize, places: &[u32], wanted: &mut Vec<Column>) -> Result<(), AllocError>
    ensures { OnOk result (wanted.new.items ≡ wanted.old.items ++ places_of table places.now) }
{
    for place in places {
        wanted.push(Column {
            table,
            place: *place as usize,
        })?;
    }
    Ok(())
}

fn add_placing(table: usize, placing: &Placing, wanted: &mut Vec<Column>) -> Result<(), AllocError>
    ensures { OnOk result (wanted.new.items ≡ wanted.old.items ++ placed_by table placing.now) }
{
    match placing {
        Placing::Hashed(places) => add_places(table, places.as_slice(), wanted),
        Placing::Random => Ok(()),
        Placing::Replicated => Ok(()),
    }
}

fn add_indexes(
    table: usize,
    indexes: &[List<u32>],
    wanted: &mut Vec<Column>,
) -> Result<(), AllocError>
    ensures { OnOk result (wanted.new.items ≡ wanted.old.items ++ indexed_by table indexes.now) }
{
    for index in indexes {
        add_places(table, index.as_slice(), wanted)?;
    }
    Ok(())
}

fn add_listed(sources: &[ScopeTable<'_>], wanted: &mut Vec<Column>) -> Result<(), AllocError>
    ensures { OnOk result (wanted.new.items ≡ wanted.old.items ++ listed_from 0 sources.now) }
{
    let mut table = 0;
    for source in sources {
        add_placing(table, &source.info().placing, wanted)?;
        add_indexes(table, source.info().indexes.as_slice(), wanted)?;
        table += 1;
    }
    Ok(())
}

/// The columns that the query names, and those in the lists of its tables. Some may come twice.
fn wanted_by(alloc: Global, parts: &Parts<'_>) -> Result<Vec<Column>, AllocError>
    ensures { IfOk result (λ wanted. wanted.items ≡ the_wanted_by parts.now) }
{
    let mut wanted = Vec::new(alloc);
    add_chosen(parts.chosen.as_slice(), &mut wanted)?;
    add_compared(parts.compared.as_slice(), &mut wanted)?;
    wanted.extend_from_slice(parts.group.as_slice())?;
    add_keys(parts.keys.as_slice(), &mut wanted)?;
    add_listed(parts.scope.as_slice(), &mut wanted)?;
    Ok(wanted)
}

/// The columns as a set.
fn set_of(alloc: Global, columns: &[Column]) -> Result<IndexSet<Column>, AllocError>
    ensures { IfOk result (λ set. (c : Column) → the_is_among set.keys c ≡ the_is_among columns.now c) }
{
    let mut set = IndexSet::with_capacity(alloc, columns.len())?;
    for column in columns {
        set.insert(*column)?;
    }
    Ok(set)
}

fn is_wanted(wanted: &IndexSet<Column>, column: Column) -> bool
    ensures { result ≡ the_is_among wanted.now.keys column }
{
    wanted.contains(&column)
}

fn add_used<'a>(
    wanted: &IndexSet<Column>,
    table: usize,
    columns: &'a [ColumnInfo],
    used: &mut List<Used<'a>>,
) -> Result<(), AllocError>
    ensures { OnOk result (used.new ≡ used.old ++ the_used_in wanted.now.keys table 0 columns.now) }
{
    let mut place = 0;
    for info in columns {
        let column = Column { table, place };
        if is_wanted(wanted, column) {
            used.push(Used::new(column, info))?;
        }
        place += 1;
    }
    Ok(())
}

fn used_from<'a>(
    alloc: Global,
    wanted: &IndexSet<Column>,
    sources: &[ScopeTable<'a>],
) -> Result<List<Used<'a>>, AllocError>
    ensures { IfOk result (λ used. used ≡ the_used_from wanted.now.keys 0 sources.now) }
{
    let mut used = List::new(alloc);
    let mut table = 0;
    for source in sources {
        add_used(wanted, table, source.info().columns.as_slice(), &mut used)?;
        table += 1;
    }
    Ok(used)
}

/// The used columns in their order.
#[tactic(auto, unfolding(crate::specs::Used::used_by))]
pub fn used_by<'a>(alloc: Global, parts: &Parts<'a>) -> Result<UsedColumns<'a>, AllocError>
    ensures { IfOk result (λ used. used ≡ the_used_by parts.now) }
{
    let named = wanted_by(alloc, parts)?;
    let wanted = set_of(alloc, &named)?;
    let used = used_from(alloc, &wanted, parts.scope.as_slice())?;
    UsedColumns::of(alloc, used)
}
