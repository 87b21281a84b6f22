//! Which catalogues keep their limits.
use orca_base::{List, Text};
use query_core::*;
use std::alloc::{AllocError, Global};
use std::process::Abort;
use std::test::Fail;

// One column for each name, between single spaces.
fn columns_of(alloc: Global, names: &str) -> Result<List<ColumnInfo>, AllocError> {
    let mut columns = List::new(alloc);
    push_columns(alloc, names, &mut columns)?;
    Ok(columns)
}

fn push_columns(
    alloc: Global,
    names: &str,
    columns: &mut List<ColumnInfo>,
) -> Result<(), AllocError> {
    for name in names.split(' ') {
        let name = Text::of(String::from_str(alloc, name)?);
        columns.push(ColumnInfo {
            name,
            ndv: 10,
            histogram: None,
        })?;
    }
    Ok(())
}

// A table without a list, with these columns.
fn table(alloc: Global, names: &str) -> Result<TableInfo, AllocError> {
    let name = Text::of(String::from_str(alloc, "t")?);
    let columns = columns_of(alloc, names)?;
    Ok(TableInfo {
        name,
        rows: 1_000,
        placing: Placing::Random,
        columns,
        indexes: List::new(alloc),
    })
}

// Whether a catalogue of this table alone keeps its limits.
fn keeps_limits(alloc: Global, names: &str) -> Result<bool, AllocError> {
    let one = table(alloc, names)?;
    let catalog = Catalog {
        segments: 4,
        tables: List::of(vec![in alloc; one]?),
    };
    Ok(catalog.keeps_limits())
}

fn assert_kept(rt: &impl Abort, alloc: Global, names: &str, kept: bool) -> Result<(), AllocError> {
    assert!(rt; keeps_limits(alloc, names)? == kept, "{names}");
    Ok(())
}

#[test]
fn names_of_columns_differ(rt: HostRuntime) -> Result<(), Fail> {
    assert_kept(&rt, rt.alloc(), "a b c", true)?;
    assert_kept(&rt, rt.alloc(), "a b a", false)?;
    assert_kept(&rt, rt.alloc(), "a b 1", false)?;
    Ok(())
}
