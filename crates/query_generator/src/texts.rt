//! The texts of what is generated.
ghost use Rattle.std.specs.Prelude.{◌≤◌, IfOk};
ghost use Rattle.query_generator.specs.Generated.{IsCatalogText, IsQueryText};

use crate::catalog::catalog_of;
use crate::select::select_of;
use crate::shape::GenShape;
use catalog_json::CatalogVersion;
use catalog_text::write_catalog;
use sql_print::{print_sql, reads_again};
use std::alloc::{AllocError, Global};

fn catalog_text_of(alloc: Global, number: u64, tables: u32) -> Result<Vec<u8>, AllocError>
    requires { tables ≤ 8 }
    ensures { IfOk result (λ text. IsCatalogText number tables text.items) }
{
    let catalog = catalog_of(alloc, number, tables)?;
    write_catalog(alloc, &catalog, CatalogVersion::One)
}

fn query_text_of(alloc: Global, shape: GenShape, tables: u32) -> Result<Vec<u8>, AllocError>
    requires { (1 ≤ tables) × (tables ≤ 8) }
    ensures { IfOk result (λ text. IsQueryText shape tables text.items) }
{
    let select = select_of(alloc, shape, tables)?;
    reads_again();
    print_sql(alloc, &select)
}

/// The texts of a catalogue and of a query over it, by a number and a shape: 1 to 8 tables, of which
/// each has two columns. The same number gives the same texts, and the catalogue doesn't depend on
/// the shape.
pub fn generate(
    alloc: Global,
    number: u64,
    tables: u32,
    shape: GenShape,
) -> Result<(Vec<u8>, Vec<u8>), AllocError>
    requires { (1 ≤ tables) × (tables ≤ 8) }
    ensures catalogue { IfOk result (λ texts. IsCatalogText number tables texts.0.items) }
    ensures query { IfOk result (λ texts. IsQueryText shape tables texts.1.items) }
{
    let catalog = catalog_text_of(alloc, number, tables)?;
    let query = query_text_of(alloc, shape, tables)?;
    Ok((catalog, query))
}
