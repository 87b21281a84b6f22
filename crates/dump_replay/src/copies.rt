//! Copies of a catalogue's tables.
ghost use Rattle.std.specs.Prelude.{◌≡◌, IfOk};

use orca_base::List;
use query_core::{ColumnInfo, Histogram, Placing, TableInfo};
use std::alloc::{AllocError, Global};

fn histogram_copy(
    alloc: Global,
    histogram: &Option<Histogram>,
) -> Result<Option<Histogram>, AllocError>
    ensures { IfOk result (λ copied. copied ≡ histogram.now) }
{
    match histogram {
        Some(histogram) => Ok(Some(histogram.copy(alloc)?)),
        None => Ok(None),
    }
}

fn column_copy(alloc: Global, column: &ColumnInfo) -> Result<ColumnInfo, AllocError>
    ensures { IfOk result (λ copied. copied ≡ column.now) }
{
    Ok(ColumnInfo {
        name: column.name.copy(alloc)?,
        ndv: column.ndv,
        histogram: histogram_copy(alloc, &column.histogram)?,
    })
}

fn column_copies(alloc: Global, columns: &[ColumnInfo]) -> Result<List<ColumnInfo>, AllocError>
    ensures { IfOk result (λ copied. copied ≡ columns.now) }
{
    let mut copies = List::new(alloc);
    for column in columns {
        copies.push(column_copy(alloc, column)?)?;
    }
    Ok(copies)
}

fn placing_copy(alloc: Global, placing: &Placing) -> Result<Placing, AllocError>
    ensures { IfOk result (λ copied. copied ≡ placing.now) }
{
    match placing {
        Placing::Hashed(places) => Ok(Placing::Hashed(places.copy(alloc)?)),
        Placing::Random => Ok(Placing::Random),
        Placing::Replicated => Ok(Placing::Replicated),
    }
}

fn index_copies(alloc: Global, indexes: &[List<u32>]) -> Result<List<List<u32>>, AllocError>
    ensures { IfOk result (λ copied. copied ≡ indexes.now) }
{
    let mut copies = List::new(alloc);
    for index in indexes {
        copies.push(index.copy(alloc)?)?;
    }
    Ok(copies)
}

/// An equal table.
pub fn table_copy(alloc: Global, table: &TableInfo) -> Result<TableInfo, AllocError>
    ensures { IfOk result (λ copied. copied ≡ table.now) }
{
    Ok(TableInfo {
        name: table.name.copy(alloc)?,
        rows: table.rows,
        placing: placing_copy(alloc, &table.placing)?,
        columns: column_copies(alloc, table.columns.as_slice())?,
        indexes: index_copies(alloc, table.indexes.as_slice())?,
    })
}
