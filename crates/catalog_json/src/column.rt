//! The columns of a table.
ghost use Rattle.std.specs.Prelude.{◌≡◌, ◌≤◌, ◌<◌, [], ◌∷◌, ◌++◌, length, map, option_map, position, IfOk, IfErr};
ghost use Rattle.std.specs.Prelude.{IfSome};
ghost use Rattle.std.specs.List.{list_any};
ghost use Rattle.std.specs.Str.{bytes_eq};
ghost use Rattle.serde_json.specs.View.{view};
ghost use Rattle.catalog_json.specs.declared.fault.Fault.TheVariants.{Memory};
ghost use Rattle.catalog_json.specs.Columns.{names_of};
ghost use Rattle.catalog_json.specs.Walk.{Yields, each, seen, column_at, columns_at};

use crate::fault::Fault;
use crate::histogram::read_histogram_by;
use crate::member::{TRILLION, number_at, take_list, take_name};
use crate::object::Object;
use crate::place::Place;
use crate::version::CatalogVersion;
use indexmap::IndexMap;
use orca_base::{List, Text};
use query_core::{ColumnInfo, Histogram};
use serde_json::Value;
use std::alloc::Global;
use std::marker::Model;

const MOST_COLUMNS: usize = 1_000;

/// What is known of the values of a column.
#[derive(Drop)]
struct ColumnValues {
    ndv: u64,
    histogram: Option<Histogram>,
}

/// A table's columns, each found by its name.
#[derive(Drop)]
pub struct Columns {
    values: IndexMap<String, ColumnValues>,
}

impl Model for Columns {
    ghost use Rattle.std.specs.Prelude.{List, map};
    ghost use Rattle.query_core.specs.declared.catalog.ColumnInfo.{ColumnInfo};
    ghost use Rattle.catalog_json.specs.Columns.{column_of};

    ghost Value = { List ColumnInfo };

    ghost view = { λ c. map column_of c.values.entries };
}

impl Columns {
    /// No columns yet, and room for so many.
    fn with_capacity(alloc: Global, count: usize) -> Result<Columns, Fault>
        ensures empty { IfOk result (λ columns. columns ≡ []) }
        ensures memory { IfErr result (λ e. e ≡ Memory) }
    {
        Ok(Columns {
            values: IndexMap::with_capacity(alloc, count)?,
        })
    }

    fn len(&self) -> usize
        ensures { result ≡ length self.now }
    {
        self.values.len()
    }

    /// The place of the column with a name.
    pub fn position(&self, name: &str) -> Option<usize>
        ensures place { result ≡ position (bytes_eq name.now) (names_of self.now) }
        ensures within { IfSome result (λ i. i < length self.now) }
    {
        self.values.get_index_of(name)
    }

    fn has(&self, name: &str) -> bool
        ensures { result ≡ list_any (bytes_eq name.now) (names_of self.now) }
    {
        self.values.contains_key(name)
    }

    /// Reads one more of the columns of table `t`.
    #[tactic(auto, unfolding(crate::specs::Walk::column_at, crate::specs::Walk::new_name_at))]
    fn read(
        &mut self,
        alloc: Global,
        version: CatalogVersion,
        t: usize,
        value: Value,
    ) -> Result<(), Fault>
        ensures { Yields (seen (λ c. self.old ++ c ∷ []) (column_at version t self.old (view value)))
            (seen (λ _. self.new) result) }
    {
        let c = self.len();
        let mut object = Object::of(value, Place::Column(t, c))?;
        let name = take_name(object.take("name"), Place::ColumnName(t, c))?;
        if self.has(name.as_str()) {
            return Err(Fault::Twice(Place::ColumnName(t, c)));
        }
        let ndv = number_at(object.get("ndv"), 0, TRILLION, Place::Ndv(t, c))?;
        let histogram = read_histogram_by(alloc, version, t, c, object.take("histogram"))?;
        self.values.insert(name, ColumnValues { ndv, histogram })?;
        Ok(())
    }

    pub fn into_list(self, alloc: Global) -> Result<List<ColumnInfo>, Fault>
        ensures all { IfOk result (λ list. list ≡ self) }
        ensures memory { IfErr result (λ e. e ≡ Memory) }
    {
        let mut list = List::of(Vec::with_capacity(alloc, self.values.len())?);
        for (name, values) in self.values {
            let name = Text::of(name);
            list.push(ColumnInfo {
                name,
                ndv: values.ndv,
                histogram: values.histogram,
            })?;
        }
        Ok(list)
    }
}

fn read_each_column(
    alloc: Global,
    version: CatalogVersion,
    t: usize,
    values: Vec<Value>,
) -> Result<Columns, Fault>
    ensures { Yields (each (column_at version t) [] (map view values.items)) result }
{
    let mut columns = Columns::with_capacity(alloc, values.len())?;
    for value in values {
        columns.read(alloc, version, t, value)?;
    }
    Ok(columns)
}

#[tactic(auto, unfolding(crate::specs::Walk::columns_at))]
pub fn read_columns(
    alloc: Global,
    version: CatalogVersion,
    t: usize,
    value: Option<Value>,
) -> Result<Columns, Fault>
    ensures read { Yields (columns_at version t (option_map view value)) result }
    ensures count { IfOk result (λ columns. length columns ≤ 1000) }
{
    let values = take_list(value, 1, MOST_COLUMNS, Place::Columns(t))?;
    read_each_column(alloc, version, t, values)
}
