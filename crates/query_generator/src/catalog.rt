//! The catalogue of a number.
ghost use Rattle.std.specs.Prelude.{◌≡◌, ◌<◌, ◌≤◌, ◌+◌, ◌*◌, IfOk, map};
ghost use Rattle.std.specs.List.{range_with_len};
ghost use Rattle.query_generator.specs.Draws.{draw as the_draw};
ghost use Rattle.query_generator.specs.Catalog.{catalog_of, columns_with, placing_of, table_name, table_of, table_with};

use crate::draws::Draws;
use orca_base::{List, Text};
use query_core::{Catalog, ColumnInfo, Placing, TableInfo};
use std::alloc::{AllocError, Global};

pub fn text_of(alloc: Global, text: &str) -> Result<Text, AllocError>
    ensures { IfOk result (λ copied. copied ≡ text.now) }
{
    Ok(Text::of(String::from_str(alloc, text)?))
}

pub fn table_name(alloc: Global, i: u32) -> Result<Text, AllocError>
    ensures { IfOk result (λ name. name ≡ table_name i) }
{
    Ok(Text::of(format!(in alloc; "t{i}")?))
}

fn placing_of(alloc: Global, i: u32) -> Result<Placing, AllocError>
    ensures { IfOk result (λ placing. placing ≡ placing_of i) }
{
    if i % 2 != 0 {
        return Ok(Placing::Random);
    }
    let mut places = List::new(alloc);
    places.push(0)?;
    Ok(Placing::Hashed(places))
}

fn columns_with(alloc: Global, rows: u64, values: u64) -> Result<List<ColumnInfo>, AllocError>
    ensures { IfOk result (λ columns. columns ≡ columns_with rows values) }
{
    let mut columns = List::new(alloc);
    columns.push(ColumnInfo {
        name: text_of(alloc, "id")?,
        ndv: rows,
        histogram: None,
    })?;
    columns.push(ColumnInfo {
        name: text_of(alloc, "f")?,
        ndv: values,
        histogram: None,
    })?;
    Ok(columns)
}

fn table_with(alloc: Global, i: u32, rows: u64, values: u64) -> Result<TableInfo, AllocError>
    ensures { IfOk result (λ table. table ≡ table_with i rows values) }
{
    Ok(TableInfo {
        name: table_name(alloc, i)?,
        rows,
        placing: placing_of(alloc, i)?,
        columns: columns_with(alloc, rows, values)?,
        indexes: List::new(alloc),
    })
}

/// Table `i`, by the next two draws.
fn table_of(alloc: Global, number: u64, i: u32, draws: &mut Draws) -> Result<TableInfo, AllocError>
    requires place { i < 8 }
    requires drawn { draws.old ≡ the_draw number (2 * i) }
    ensures table { IfOk result (λ table. table ≡ table_of number i) }
    ensures drawn { draws.new ≡ the_draw number (2 * (i + 1)) }
{
    let rows = 100 * draws.draw() as u64;
    let values = 1 + (draws.draw() % 1_000) as u64;
    table_with(alloc, i, rows, values)
}

fn tables_of(alloc: Global, number: u64, tables: u32) -> Result<List<TableInfo>, AllocError>
    requires { tables ≤ 8 }
    ensures { IfOk result (λ list. list ≡ map (table_of number) (range_with_len 0 tables)) }
{
    let mut list = List::new(alloc);
    let mut draws = Draws::of(number);
    for i in 0..tables {
        let table = table_of(alloc, number, i, &mut draws)?;
        list.push(table)?;
    }
    Ok(list)
}

/// The catalogue of a number, with so many tables.
pub fn catalog_of(alloc: Global, number: u64, tables: u32) -> Result<Catalog, AllocError>
    requires { tables ≤ 8 }
    ensures { IfOk result (λ catalog. catalog ≡ catalog_of number tables) }
{
    Ok(Catalog {
        segments: 4,
        tables: tables_of(alloc, number, tables)?,
    })
}
