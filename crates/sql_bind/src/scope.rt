//! The tables of FROM under their aliases.
ghost use Rattle.std.specs.Prelude.{◌≡◌, ◌<◌, List, ◌∷◌, [], ◌++◌, true, length, map, position, option_copied, IfOk};
ghost use Rattle.std.specs.Prelude.{IfSome, IsTrue};
ghost use Rattle.std.specs.Option.{ForSome};
ghost use Rattle.std.specs.Str.{bytes_eq};
ghost use Rattle.query_core.specs.Catalog.{IsCatalog, IsTable};
ghost use Rattle.query_core.specs.Differ.{texts_differ};
ghost use Rattle.sql_bind.specs.Steps.{Yields};
ghost use Rattle.sql_bind.specs.Scope.{alias_of as the_alias_of, alias_at as the_alias_at, aliased as the_aliased};
ghost use Rattle.sql_bind.specs.Scope.{from_table as the_from_table, info_of as the_info_of, scope_of as the_scope_of};
ghost use Rattle.sql_bind.specs.Scope.{aliases, FromTable};

use crate::fault::BindFault;
use crate::names::DistinctNames;
use orca_base::{List, Text};
use query_core::{Catalog, ColumnInfo, TableInfo};
use sql_reader::FromItem;
use std::alloc::{AllocError, Global};
use std::marker::Model;

/// A table of FROM: its alias, what the catalogue says of it, and its columns by their names.
#[derive(Drop)]
pub struct ScopeTable<'a> {
    name: &'a Text,
    info: &'a TableInfo,
    columns: DistinctNames<'a>,
}

impl<'a> Model for ScopeTable<'a> {
    ghost use Rattle.std.specs.Prelude.{◌≡◌, map};
    ghost use Rattle.sql_bind.specs.Scope.{FromTable};

    ghost Value = { FromTable };

    ghost view = { λ s. record { alias = s.name.now; info = s.info.now } };

    ghost invariant = { λ s. s.columns ≡ map (λ c. c.name) s.info.now.columns };
}

impl<'a> ScopeTable<'a> {
    fn new(
        alloc: Global,
        alias: &'a Text,
        info: &'a TableInfo,
    ) -> Result<ScopeTable<'a>, AllocError>
        requires { IsTable info.now }
        ensures { IfOk result (λ s. s ≡ record { alias = alias.now; info = info.now }) }
    {
        Ok(ScopeTable {
            name: alias,
            info,
            columns: column_names(alloc, info.columns.as_slice())?,
        })
    }

    pub fn alias(&self) -> &'a Text
        ensures { result.now ≡ self.now.alias }
    {
        self.name
    }

    pub fn info(&self) -> &'a TableInfo
        ensures { result.now ≡ self.now.info }
    {
        self.info
    }

    /// The place of the column of this name.
    pub fn place_of(&self, name: &Text) -> Option<usize>
        ensures place { result ≡ position (bytes_eq name.now) (map (λ c. c.name) self.now.info.columns) }
        ensures within { IfSome result (λ i. i < length self.now.info.columns) }
    {
        self.columns.position_of(name)
    }
}

/// The names of a table's columns.
fn column_names<'a>(
    alloc: Global,
    columns: &'a [ColumnInfo],
) -> Result<DistinctNames<'a>, AllocError>
    requires { IsTrue (texts_differ (map (λ c. c.name) columns.now)) }
    ensures { IfOk result (λ names. names ≡ map (λ c. c.name) columns.now) }
{
    let mut names = DistinctNames::with_capacity(alloc, columns.len())?;
    for column in columns {
        names.add(&column.name)?;
    }
    Ok(names)
}

fn alias_of(item: &FromItem) -> &Text
    ensures { result.now ≡ the_alias_of item.now }
{
    match &item.alias {
        Some(alias) => alias,
        None => &item.table,
    }
}

fn alias_at(item: &FromItem) -> u32
    ensures { result ≡ the_alias_at item.now }
{
    match &item.alias {
        Some(_) => item.alias_at,
        None => item.at,
    }
}

#[tactic(auto, unfolding(crate::specs::Scope::info_of))]
fn info_of<'a>(tables: &'a [TableInfo], name: &Text) -> Option<&'a TableInfo>
    ensures { option_copied result ≡ the_info_of tables.now name.now }
{
    tables
        .iter()
        .find(|table| table.name.as_str() == name.as_str())
}

/// A table under its alias, which is added.
#[tactic(auto, unfolding(crate::specs::Scope::has_alias))]
fn aliased<'a>(
    alloc: Global,
    before: &mut DistinctNames<'a>,
    item: &'a FromItem,
    found: Option<&'a TableInfo>,
) -> Result<ScopeTable<'a>, BindFault>
    requires { ForSome (option_copied found) IsTable }
    ensures bound { (scope : List FromTable) → before.old ≡ aliases scope
        → Yields (the_aliased scope item.now (option_copied found.entry)) result }
    ensures added { IfOk result (λ t. before.new ≡ before.old ++ t.alias ∷ []) }
{
    let Some(info) = found else {
        return Err(BindFault::UnknownTable { at: item.at });
    };
    let alias = alias_of(item);
    if before.has(alias) {
        return Err(BindFault::TwiceAlias { at: alias_at(item) });
    }
    before.add(alias)?;
    Ok(ScopeTable::new(alloc, alias, info)?)
}

fn from_table<'a>(
    alloc: Global,
    catalog: &'a Catalog,
    before: &[ScopeTable<'a>],
    names: &mut DistinctNames<'a>,
    item: &'a FromItem,
) -> Result<ScopeTable<'a>, BindFault>
    requires catalogue { IsCatalog catalog.now }
    requires names { names.old ≡ aliases before.now }
    ensures bound { Yields (the_from_table catalog.now before.now item.now) result }
    ensures added { IfOk result (λ t. names.new ≡ names.old ++ t.alias ∷ []) }
{
    let found = info_of(catalog.tables.as_slice(), &item.table);
    aliased(alloc, names, item, found)
}

/// The tables of FROM in text order.
pub fn scope_of<'a>(
    alloc: Global,
    catalog: &'a Catalog,
    from: &'a [FromItem],
) -> Result<List<ScopeTable<'a>>, BindFault>
    requires { IsCatalog catalog.now }
    ensures { Yields (the_scope_of catalog.now from.now) result }
{
    let mut names = DistinctNames::with_capacity(alloc, from.len())?;
    sources_of(alloc, catalog, from, &mut names)
}

/// The tables of FROM, whose aliases are added.
fn sources_of<'a>(
    alloc: Global,
    catalog: &'a Catalog,
    from: &'a [FromItem],
    names: &mut DistinctNames<'a>,
) -> Result<List<ScopeTable<'a>>, BindFault>
    requires catalogue { IsCatalog catalog.now }
    requires empty { names.old ≡ [] }
    ensures { Yields (the_scope_of catalog.now from.now) result }
{
    let mut scope = List::new(alloc);
    for item in from {
        let source = from_table(alloc, catalog, scope.as_slice(), names, item)?;
        scope.push(source)?;
    }
    Ok(scope)
}
