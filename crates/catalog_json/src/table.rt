//! Tables: where their rows lie, their indexes, and the whole.
ghost use Rattle.std.specs.Prelude.{◌≡◌, ◌≤◌, [], ◌∷◌, ◌++◌, length, map, option_map, IfOk};
ghost use Rattle.serde_json.specs.View.{view};
ghost use Rattle.catalog_json.specs.Columns.{names_of};
ghost use Rattle.catalog_json.specs.Object.{data_of};
ghost use Rattle.catalog_json.specs.Walk.{Yields, each, index_at, indexes_at, lists_at, named_table_at, named_placing};
ghost use Rattle.catalog_json.specs.Walk.{placing_at, replicated_at, table_at, tables_at};

use crate::column::{Columns, read_columns};
use crate::fault::Fault;
use crate::listed::read_places;
use crate::member::{TRILLION, list_at, number_at, take_list};
use crate::names::TableNames;
use crate::object::Object;
use crate::place::{NameList, Place};
use crate::version::CatalogVersion;
use orca_base::{List, Text};
use query_core::{Placing, TableInfo};
use serde_json::Value;
use std::alloc::Global;

const MOST_INDEXES: usize = 16;

const MOST_TABLES: usize = 1_000;

fn replicated_at(version: CatalogVersion, place: Place, text: &str) -> Result<Placing, Fault>
    ensures { result ≡ replicated_at version place text.now }
{
    match version {
        CatalogVersion::One => Err(Fault::Shape(place)),
        CatalogVersion::Two if text == "replicated" => Ok(Placing::Replicated),
        CatalogVersion::Two => Err(Fault::Shape(place)),
    }
}

fn named_placing(version: CatalogVersion, place: Place, text: &str) -> Result<Placing, Fault>
    ensures { result ≡ named_placing version place text.now }
{
    if text == "random" {
        Ok(Placing::Random)
    } else {
        replicated_at(version, place, text)
    }
}

#[tactic(auto, unfolding(crate::specs::Walk::placing_by))]
fn read_placing(
    alloc: Global,
    version: CatalogVersion,
    t: usize,
    columns: &Columns,
    value: Option<&Value>,
) -> Result<Placing, Fault>
    requires { length columns.now ≤ 1000 }
    ensures { Yields
        (placing_at version t (names_of columns.now) (option_map (λ v. view v.now) value.entry)) result }
{
    let list = NameList::Distribution(t);
    match value.and_then(Value::as_str) {
        Some(text) => named_placing(version, Place::NamesOf(list), text),
        None => Ok(Placing::Hashed(read_places(alloc, list, columns, value)?)),
    }
}

fn read_each_index(
    alloc: Global,
    t: usize,
    columns: &Columns,
    values: &[Value],
) -> Result<List<List<u32>>, Fault>
    requires { length columns.now ≤ 1000 }
    ensures { Yields (each (index_at t (names_of columns.now)) [] (map view values.now)) result }
{
    let mut indexes = List::new(alloc);
    for value in values {
        let list = NameList::Index(t, indexes.len());
        let index = read_places(alloc, list, columns, Some(value))?;
        indexes.push(index)?;
    }
    Ok(indexes)
}

#[tactic(auto, unfolding(crate::specs::Walk::indexes_at))]
fn read_indexes(
    alloc: Global,
    t: usize,
    columns: &Columns,
    value: Option<&Value>,
) -> Result<List<List<u32>>, Fault>
    requires { length columns.now ≤ 1000 }
    ensures { Yields
        (indexes_at t (names_of columns.now) (option_map (λ v. view v.now) value.entry)) result }
{
    match value {
        None => Ok(List::new(alloc)),
        Some(_) => {
            let values = list_at(value, 0, MOST_INDEXES, Place::Indexes(t))?;
            read_each_index(alloc, t, columns, values)
        }
    }
}

/// Reads where the rows of table `t` lie, and its indexes.
#[tactic(auto, unfolding(crate::specs::Walk::lists_at))]
fn read_lists(
    alloc: Global,
    version: CatalogVersion,
    t: usize,
    columns: &Columns,
    object: &Object,
) -> Result<(Placing, List<List<u32>>), Fault>
    requires { length columns.now ≤ 1000 }
    ensures { Yields (lists_at version t (names_of columns.now) (data_of object.now)) result }
{
    let placing = read_placing(alloc, version, t, columns, object.get("distribution"))?;
    let indexes = read_indexes(alloc, t, columns, object.get("indexes"))?;
    Ok((placing, indexes))
}

/// Reads what the members of a table other than its name say.
#[tactic(auto, unfolding(crate::specs::Walk::named_table_at, crate::specs::Walk::lists_at))]
fn read_named_table(
    alloc: Global,
    version: CatalogVersion,
    t: usize,
    name: Text,
    object: &mut Object,
) -> Result<TableInfo, Fault>
    ensures read { Yields (named_table_at version t name (data_of object.old)) result }
    ensures named { IfOk result (λ table. table.name ≡ name) }
{
    let rows = number_at(object.get("rows"), 0, TRILLION, Place::Rows(t))?;
    let columns = read_columns(alloc, version, t, object.take("columns"))?;
    let (placing, indexes) = read_lists(alloc, version, t, &columns, object)?;
    Ok(TableInfo {
        name,
        rows,
        placing,
        columns: columns.into_list(alloc)?,
        indexes,
    })
}

/// Reads one of the tables, and adds its name.
#[tactic(auto, unfolding(crate::specs::Walk::table_at))]
fn read_table(
    alloc: Global,
    version: CatalogVersion,
    before: &[TableInfo],
    names: &mut TableNames,
    value: Value,
) -> Result<TableInfo, Fault>
    requires { names.old ≡ map (λ t. t.name) before.now }
    ensures read { Yields (table_at version before.now (view value)) result }
    ensures added { IfOk result (λ table. names.new ≡ names.old ++ table.name ∷ []) }
{
    let t = before.len();
    let mut object = Object::of(value, Place::Table(t))?;
    let name = names.read_new(alloc, object.take("name"), Place::TableName(t))?;
    read_named_table(alloc, version, t, name, &mut object)
}

/// Reads the tables, and adds their names.
fn read_each_table(
    alloc: Global,
    version: CatalogVersion,
    values: Vec<Value>,
    names: &mut TableNames,
) -> Result<List<TableInfo>, Fault>
    requires { names.old ≡ [] }
    ensures { Yields (each (table_at version) [] (map view values.items)) result }
{
    let mut tables = List::of(Vec::with_capacity(alloc, values.len())?);
    for value in values {
        let table = read_table(alloc, version, tables.as_slice(), names, value)?;
        tables.push(table)?;
    }
    Ok(tables)
}

#[tactic(auto, unfolding(crate::specs::Walk::tables_at))]
pub fn read_tables(
    alloc: Global,
    version: CatalogVersion,
    value: Option<Value>,
) -> Result<List<TableInfo>, Fault>
    ensures { Yields (tables_at version (option_map view value)) result }
{
    let values = take_list(value, 0, MOST_TABLES, Place::Tables)?;
    let mut names = TableNames::with_capacity(alloc, values.len())?;
    read_each_table(alloc, version, values, &mut names)
}
