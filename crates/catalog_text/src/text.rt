//! The text of a catalogue, a token at a time.
ghost use Rattle.std.specs.Prelude.{◌≡◌, ◌<◌, ◌≤◌, [], ◌∷◌, ◌++◌, Ok, OnOk, IfOk, length, nat_lt, IsTrue};
ghost use Rattle.std.specs.List.{All, flat_map, list_all};
ghost use Rattle.json.specs.Json.{string};
ghost use Rattle.json.specs.Tree.{json_tokens, members_tokens};
ghost use Rattle.query_core.specs.Catalog.{IsCatalog, IsColumnList, IsPlacing, IsTable};
ghost use Rattle.catalog_json.specs.Outcome.{most_bytes, reading_of};
ghost use Rattle.catalog_text.specs.AddsTokens.{AddsTokens};
ghost use Rattle.catalog_text.specs.Signed.{ColumnFits, HistogramFits, TableFits};
ghost use Rattle.catalog_text.specs.Text.{can_say, catalog_json, catalog_text, column_json, histogram_member};
ghost use Rattle.catalog_text.specs.Text.{indexes_member, list_json, name_at, places_json, placing_json, table_json};

use crate::histogram::write_histogram;
use crate::version::number_of_version;
use catalog_json::CatalogVersion;
use json::Writer;
use orca_base::List;
use query_core::{Catalog, ColumnInfo, Histogram, Placing, TableInfo};
use std::alloc::{AllocError, Global};

/// Ends the object of a column, after its histogram where it has one.
fn end_column(out: &mut Writer, histogram: &Option<Histogram>) -> Result<(), AllocError>
    ensures added { OnOk result
        (AddsTokens out.old out.new (members_tokens (histogram_member histogram.now))) }
    ensures fit { OnOk result (HistogramFits histogram.now) }
{
    match histogram {
        None => out.end_object(),
        Some(histogram) => {
            out.key("histogram")?;
            write_histogram(out, histogram)?;
            out.end_object()
        }
    }
}

fn write_column(out: &mut Writer, column: &ColumnInfo) -> Result<(), AllocError>
    ensures added { OnOk result (AddsTokens out.old out.new (json_tokens (column_json column.now))) }
    ensures fits { OnOk result (ColumnFits column.now) }
{
    out.begin_object()?;
    out.key("name")?;
    out.string(column.name.as_str())?;
    out.key("ndv")?;
    out.u64(column.ndv)?;
    end_column(out, &column.histogram)
}

fn write_each_column(out: &mut Writer, columns: &[ColumnInfo]) -> Result<(), AllocError>
    ensures added { OnOk result
        (AddsTokens out.old out.new (flat_map (λ c. json_tokens (column_json c)) columns.now)) }
    ensures fit { OnOk result (All ColumnFits columns.now) }
{
    for column in columns {
        write_column(out, column)?;
    }
    Ok(())
}

fn write_columns(out: &mut Writer, columns: &[ColumnInfo]) -> Result<(), AllocError>
    ensures added { OnOk result
        (AddsTokens out.old out.new (json_tokens (list_json column_json columns.now))) }
    ensures fit { OnOk result (All ColumnFits columns.now) }
{
    out.begin_array()?;
    write_each_column(out, columns)?;
    out.end_array()
}

fn name_at(columns: &[ColumnInfo], place: u32) -> &str
    requires { place < length columns.now }
    ensures { result.now ≡ name_at columns.now place }
{
    columns[place as usize].name.as_str()
}

fn write_each_place(
    out: &mut Writer,
    columns: &[ColumnInfo],
    places: &[u32],
) -> Result<(), AllocError>
    requires { IsTrue (list_all (λ p. nat_lt p (length columns.now)) places.now) }
    ensures { OnOk result (AddsTokens out.old out.new
        (flat_map (λ p. json_tokens (string (name_at columns.now p))) places.now)) }
{
    for place in places {
        out.string(name_at(columns, *place))?;
    }
    Ok(())
}

fn write_places(out: &mut Writer, columns: &[ColumnInfo], places: &[u32]) -> Result<(), AllocError>
    requires { IsColumnList (length columns.now) places.now }
    ensures { OnOk result
        (AddsTokens out.old out.new (json_tokens (places_json columns.now places.now))) }
{
    out.begin_array()?;
    write_each_place(out, columns, places)?;
    out.end_array()
}

fn write_placing(
    out: &mut Writer,
    columns: &[ColumnInfo],
    placing: &Placing,
) -> Result<(), AllocError>
    requires { IsPlacing (length columns.now) placing.now }
    ensures { OnOk result
        (AddsTokens out.old out.new (json_tokens (placing_json columns.now placing.now))) }
{
    match placing {
        Placing::Hashed(places) => write_places(out, columns, places.as_slice()),
        Placing::Random => out.string("random"),
        Placing::Replicated => out.string("replicated"),
    }
}

fn write_each_index(
    out: &mut Writer,
    columns: &[ColumnInfo],
    indexes: &[List<u32>],
) -> Result<(), AllocError>
    requires { All (IsColumnList (length columns.now)) indexes.now }
    ensures { OnOk result (AddsTokens out.old out.new
        (flat_map (λ index. json_tokens (places_json columns.now index)) indexes.now)) }
{
    for index in indexes {
        write_places(out, columns, index.as_slice())?;
    }
    Ok(())
}

fn write_indexes(
    out: &mut Writer,
    columns: &[ColumnInfo],
    indexes: &[List<u32>],
) -> Result<(), AllocError>
    requires { All (IsColumnList (length columns.now)) indexes.now }
    ensures { OnOk result
        (AddsTokens out.old out.new (json_tokens (list_json (places_json columns.now) indexes.now))) }
{
    out.begin_array()?;
    write_each_index(out, columns, indexes)?;
    out.end_array()
}

/// Ends the object of a table, after its indexes where it has some.
fn end_table(
    out: &mut Writer,
    columns: &[ColumnInfo],
    indexes: &[List<u32>],
) -> Result<(), AllocError>
    requires { All (IsColumnList (length columns.now)) indexes.now }
    ensures { OnOk result
        (AddsTokens out.old out.new (members_tokens (indexes_member columns.now indexes.now))) }
{
    if indexes.is_empty() {
        return out.end_object();
    }
    out.key("indexes")?;
    write_indexes(out, columns, indexes)?;
    out.end_object()
}

fn write_table(out: &mut Writer, table: &TableInfo) -> Result<(), AllocError>
    requires { IsTable table.now }
    ensures added { OnOk result (AddsTokens out.old out.new (json_tokens (table_json table.now))) }
    ensures fits { OnOk result (TableFits table.now) }
{
    let columns = table.columns.as_slice();
    out.begin_object()?;
    out.key("name")?;
    out.string(table.name.as_str())?;
    out.key("rows")?;
    out.u64(table.rows)?;
    out.key("distribution")?;
    write_placing(out, columns, &table.placing)?;
    out.key("columns")?;
    write_columns(out, columns)?;
    end_table(out, columns, table.indexes.as_slice())
}

fn write_each_table(out: &mut Writer, tables: &[TableInfo]) -> Result<(), AllocError>
    requires { All IsTable tables.now }
    ensures added { OnOk result
        (AddsTokens out.old out.new (flat_map (λ t. json_tokens (table_json t)) tables.now)) }
    ensures fit { OnOk result (All TableFits tables.now) }
{
    for table in tables {
        write_table(out, table)?;
    }
    Ok(())
}

fn write_tables(out: &mut Writer, tables: &[TableInfo]) -> Result<(), AllocError>
    requires { All IsTable tables.now }
    ensures added { OnOk result
        (AddsTokens out.old out.new (json_tokens (list_json table_json tables.now))) }
    ensures fit { OnOk result (All TableFits tables.now) }
{
    out.begin_array()?;
    write_each_table(out, tables)?;
    out.end_array()
}

fn write_value(
    out: &mut Writer,
    catalog: &Catalog,
    version: CatalogVersion,
) -> Result<(), AllocError>
    requires { IsCatalog catalog.now }
    ensures added { OnOk result
        (AddsTokens out.old out.new (json_tokens (catalog_json version catalog.now))) }
    ensures fits { OnOk result (All TableFits catalog.now.tables) }
{
    out.begin_object()?;
    out.key("version")?;
    out.u64(number_of_version(version))?;
    out.key("segments")?;
    out.u64(catalog.segments)?;
    out.key("tables")?;
    write_tables(out, catalog.tables.as_slice())?;
    out.end_object()
}

/// Writes a catalogue as JSON without spaces. A text over 1,048,576 bytes is written too, though it is
/// too long to be read.
pub fn write_catalog(
    alloc: Global,
    catalog: &Catalog,
    version: CatalogVersion,
) -> Result<Vec<u8>, AllocError>
    requires kept { IsCatalog catalog.now }
    requires said { IsTrue (can_say version catalog.now) }
    ensures text { IfOk result (λ text. text.items ≡ catalog_text version catalog.now) }
    ensures reads_back { IfOk result
        (λ text. length text.items ≤ most_bytes → reading_of text.items ≡ Ok catalog.now) }
{
    let mut out = Writer::new(Vec::new(alloc));
    write_value(&mut out, catalog, version)?;
    Ok(out.into_inner())
}
