//! Which column of which table a reference means.
ghost use Rattle.std.specs.Prelude.{◌≡◌, Option, ◌<◌, ◌^◌, ◌+◌, ◌≤◌, length, position, IfSome, IfOk};
ghost use Rattle.std.specs.List.{list_any, AllByRecursion};
ghost use Rattle.std.specs.Str.{bytes_eq};
ghost use Rattle.sql_bind.specs.Steps.{Yields};
ghost use Rattle.sql_bind.specs.Scope.{FromTable};
ghost use Rattle.sql_bind.specs.Columns.{belongs_to as the_belongs_to, place_in as the_place_in};
ghost use Rattle.sql_bind.specs.Columns.{candidates as the_candidates, only_one as the_only_one};
ghost use Rattle.sql_bind.specs.Columns.{column_of as the_column_of, columns_of as the_columns_of};
ghost use Rattle.sql_bind.specs.Columns.{is_among as the_is_among};

use crate::fault::BindFault;
use crate::scope::ScopeTable;
use orca_base::{List, Text};
use sql_reader::ColRef;
use std::alloc::{AllocError, Global};

/// A column of the catalogue, of one of the tables of FROM.
#[derive(Clone, Copy, PartialEq, Eq, Hash)]
pub struct Column {
    /// The place of its table in FROM.
    pub table: usize,
    /// Its place among the table's columns.
    pub place: usize,
}

pub fn is_among(columns: &[Column], column: Column) -> bool
    ensures { result ≡ the_is_among columns.now column }
{
    columns.contains(&column)
}

/// Whether the part before the point, if any, is the alias.
fn belongs_to(table: &Option<Text>, alias: &Text) -> bool
    ensures { result ≡ the_belongs_to table.now alias.now }
{
    match table {
        Some(name) => name.as_str() == alias.as_str(),
        None => true,
    }
}

/// The place of the column that the reference names in the table.
fn place_in(reference: &ColRef, source: &ScopeTable<'_>) -> Option<usize>
    ensures place { result ≡ the_place_in reference.now source.now }
    ensures within { IfSome result (λ i. i < length source.now.info.columns) }
{
    if belongs_to(&reference.table, source.alias()) {
        source.place_of(&reference.name)
    } else {
        None
    }
}

/// Each column that the reference can mean.
fn candidates(
    alloc: Global,
    sources: &[ScopeTable<'_>],
    reference: &ColRef,
) -> Result<Vec<Column>, AllocError>
    ensures { IfOk result (λ found. found.items ≡ the_candidates reference.now 0 sources.now) }
{
    let mut found = Vec::new(alloc);
    let mut table = 0;
    for source in sources {
        if let Some(place) = place_in(reference, source) {
            found.push(Column { table, place })?;
        }
        table += 1;
    }
    Ok(found)
}

fn only_one(at: u32, found: &[Column]) -> Result<Column, BindFault>
    ensures { result ≡ the_only_one at found.now }
{
    match found {
        [] => Err(BindFault::UnknownColumn { at }),
        [column] => Ok(*column),
        _ => Err(BindFault::Ambiguous { at }),
    }
}

/// The column that a reference means.
pub fn column_of(
    alloc: Global,
    sources: &[ScopeTable<'_>],
    reference: &ColRef,
) -> Result<Column, BindFault>
    ensures { Yields (the_column_of sources.now reference.now) result }
{
    let found = candidates(alloc, sources, reference)?;
    only_one(reference.at, &found)
}

/// The columns that references mean, in the order of the text.
pub fn columns_of(
    alloc: Global,
    sources: &[ScopeTable<'_>],
    references: &[ColRef],
) -> Result<List<Column>, BindFault>
    ensures { Yields (the_columns_of sources.now references.now) result }
{
    let mut columns = List::new(alloc);
    for reference in references {
        let column = column_of(alloc, sources, reference)?;
        columns.push(column)?;
    }
    Ok(columns)
}
