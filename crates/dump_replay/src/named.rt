//! The part of a catalogue that a query reads: the tables that FROM names.
ghost use Rattle.std.specs.Prelude.{◌≡◌, IfOk, filter};
ghost use Rattle.dump_replay.specs.Named.{is_named as the_is_named, named_catalog as the_named_catalog};

use crate::copies::table_copy;
use orca_base::List;
use query_core::{Catalog, TableInfo};
use sql_reader::{FromItem, Select};
use std::alloc::{AllocError, Global};

/// The tables that FROM names, in the catalogue's order.
pub fn named_catalog(
    alloc: Global,
    select: &Select,
    catalog: &Catalog,
) -> Result<Catalog, AllocError>
    ensures { IfOk result (λ named. named ≡ the_named_catalog select.now catalog.now) }
{
    Ok(Catalog {
        segments: catalog.segments,
        tables: named_tables(alloc, select.from.as_slice(), catalog.tables.as_slice())?,
    })
}

fn named_tables(
    alloc: Global,
    from: &[FromItem],
    tables: &[TableInfo],
) -> Result<List<TableInfo>, AllocError>
    ensures { IfOk result (λ named. named ≡ filter (the_is_named from.now) tables.now) }
{
    let mut named = List::new(alloc);
    for table in tables {
        if is_named(from, table) {
            named.push(table_copy(alloc, table)?)?;
        }
    }
    Ok(named)
}

fn is_named(from: &[FromItem], table: &TableInfo) -> bool
    ensures { result ≡ the_is_named from.now table.now }
{
    from.iter()
        .any(|item| table.name.as_str() == item.table.as_str())
}
