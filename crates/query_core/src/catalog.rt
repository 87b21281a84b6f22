ghost use Rattle.std.specs.Prelude.{◌≡◌, ◌≤◌, ◌==◌, ◌↔◌, IsTrue, All, length, map, nat_lt};
ghost use Rattle.std.specs.List.{list_all, list_any};
ghost use Rattle.std.specs.Str.{bytes_eq};
ghost use Rattle.query_core.specs.Differ.{all_differ, texts_differ};
ghost use Rattle.query_core.specs.Histogram.{may_be_histogram};
ghost use Rattle.query_core.specs.Catalog.{is_catalog_name as the_is_catalog_name, IsColumn, IsColumnList, IsPlacing};
ghost use Rattle.query_core.specs.Catalog.{IsTable, IsCatalog};

use crate::histogram::{Histogram, is_within};
use orca_base::{List, Text, is_name};

/// A column of a catalogue's table.
#[derive(Drop)]
pub struct ColumnInfo {
    pub name: Text,
    /// How many distinct values it has: 0 to 10^12.
    pub ndv: u64,
    /// Which of its rows have which numbers, where that is known.
    pub histogram: Option<Histogram>,
}

/// Where the rows of a catalogue's table lie.
#[derive(Drop)]
pub enum Placing {
    /// By the hash of these columns, each given by its place in the table's columns.
    Hashed(List<u32>),
    /// On any segment.
    Random,
    /// All of them on each segment.
    Replicated,
}

/// A table of a catalogue.
#[derive(Drop)]
pub struct TableInfo {
    pub name: Text,
    /// How many rows it has: 0 to 10^12.
    pub rows: u64,
    pub placing: Placing,
    pub columns: List<ColumnInfo>,
    /// The columns of each index, by their places in the table's columns.
    pub indexes: List<List<u32>>,
}

/// What a catalogue's bytes say.
#[derive(Drop)]
pub struct Catalog {
    /// How many segments the database has: 1 to 1,000.
    pub segments: u64,
    pub tables: List<TableInfo>,
}

impl Catalog {
    /// Whether the catalogue keeps the limits, as each one that was read does. For whoever makes one:
    /// it takes no memory, and a time by the square of the number of names in one list.
    pub fn keeps_limits(&self) -> bool
        ensures { IsTrue result ↔ IsCatalog self.now }
    {
        is_within(1, 1_000, self.segments)
            && self.tables.len() <= 1_000
            && are_tables(self.tables.as_slice())
            && tables_differ(self.tables.as_slice())
    }
}

fn is_catalog_name(text: &Text) -> bool
    ensures { result ≡ the_is_catalog_name text.now }
{
    is_name(text.as_str()) && text.as_str().len() <= 64
}

fn is_column(column: &ColumnInfo) -> bool
    ensures { IsTrue result ↔ IsColumn column.now }
{
    is_catalog_name(&column.name)
        && column.ndv <= 1_000_000_000_000
        && keeps_histogram_limits(&column.histogram)
}

fn keeps_histogram_limits(histogram: &Option<Histogram>) -> bool
    ensures { result ≡ may_be_histogram histogram.now }
{
    match histogram {
        Some(histogram) => histogram.keeps_limits(),
        None => true,
    }
}

fn are_columns(columns: &[ColumnInfo]) -> bool
    ensures { IsTrue result ↔ All IsColumn columns.now }
{
    columns.iter().all(|column| is_column(column))
}

fn has_column(columns: &[ColumnInfo], name: &Text) -> bool
    ensures { result ≡ list_any (λ x. bytes_eq name.now x.name) columns.now }
{
    columns
        .iter()
        .any(|column| name.as_str() == column.name.as_str())
}

fn columns_differ(columns: &[ColumnInfo]) -> bool
    ensures { result ≡ texts_differ (map (λ c. c.name) columns.now) }
{
    let mut rest = columns;
    while let Some((column, others)) = rest.split_first() {
        if has_column(others, &column.name) {
            return false;
        }
        rest = others;
    }
    true
}

fn are_known(columns: usize, places: &[u32]) -> bool
    ensures { result ≡ list_all (λ p. nat_lt p columns) places.now }
{
    places.iter().all(|place| (*place as usize) < columns)
}

fn has_place(places: &[u32], place: u32) -> bool
    ensures { result ≡ list_any (λ p. p == place) places.now }
{
    places.contains(&place)
}

fn places_differ(places: &[u32]) -> bool
    ensures { result ≡ all_differ (λ p q. q == p) places.now }
{
    let mut rest = places;
    while let Some((place, others)) = rest.split_first() {
        if has_place(others, *place) {
            return false;
        }
        rest = others;
    }
    true
}

fn is_column_list(columns: usize, places: &[u32]) -> bool
    ensures { IsTrue result ↔ IsColumnList columns places.now }
{
    is_within(1, 8, places.len() as u64) && are_known(columns, places) && places_differ(places)
}

fn is_placing(columns: usize, placing: &Placing) -> bool
    ensures { IsTrue result ↔ IsPlacing columns placing.now }
{
    match placing {
        Placing::Hashed(places) => is_column_list(columns, places.as_slice()),
        Placing::Random => true,
        Placing::Replicated => true,
    }
}

fn are_indexes(columns: usize, indexes: &[List<u32>]) -> bool
    ensures { IsTrue result ↔ All (IsColumnList columns) indexes.now }
{
    indexes
        .iter()
        .all(|index| is_column_list(columns, index.as_slice()))
}

fn is_table(table: &TableInfo) -> bool
    ensures { IsTrue result ↔ IsTable table.now }
{
    let columns = table.columns.as_slice();
    let indexes = table.indexes.as_slice();
    is_catalog_name(&table.name)
        && table.rows <= 1_000_000_000_000
        && is_within(1, 1_000, columns.len() as u64)
        && are_columns(columns)
        && columns_differ(columns)
        && is_placing(columns.len(), &table.placing)
        && indexes.len() <= 16
        && are_indexes(columns.len(), indexes)
}

fn are_tables(tables: &[TableInfo]) -> bool
    ensures { IsTrue result ↔ All IsTable tables.now }
{
    tables.iter().all(|table| is_table(table))
}

fn has_table(tables: &[TableInfo], name: &Text) -> bool
    ensures { result ≡ list_any (λ x. bytes_eq name.now x.name) tables.now }
{
    tables
        .iter()
        .any(|table| name.as_str() == table.name.as_str())
}

fn tables_differ(tables: &[TableInfo]) -> bool
    ensures { result ≡ texts_differ (map (λ t. t.name) tables.now) }
{
    let mut rest = tables;
    while let Some((table, others)) = rest.split_first() {
        if has_table(others, &table.name) {
            return false;
        }
        rest = others;
    }
    true
}
