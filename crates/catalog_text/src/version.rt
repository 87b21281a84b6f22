//! The number of a version, and what a version can say.
ghost use Rattle.std.specs.Prelude.{◌≡◌, not, is_some};
ghost use Rattle.std.specs.List.{list_all};
ghost use Rattle.catalog_text.specs.Text.{can_say as the_can_say, is_plain_placing as the_is_plain_placing};
ghost use Rattle.catalog_text.specs.Text.{is_plain_table as the_is_plain_table, version_number};

use catalog_json::CatalogVersion;
use query_core::{Catalog, ColumnInfo, Placing, TableInfo};

/// The number that the text has for the version.
pub fn number_of_version(version: CatalogVersion) -> u64
    ensures { result ≡ version_number version }
{
    match version {
        CatalogVersion::One => 1,
        CatalogVersion::Two => 2,
    }
}

fn is_plain_placing(placing: &Placing) -> bool
    ensures { result ≡ the_is_plain_placing placing.now }
{
    match placing {
        Placing::Hashed(_) => true,
        Placing::Random => true,
        Placing::Replicated => false,
    }
}

fn have_no_histogram(columns: &[ColumnInfo]) -> bool
    ensures { result ≡ list_all (λ column. not (is_some column.histogram)) columns.now }
{
    columns.iter().all(|column| !column.histogram.is_some())
}

fn is_plain_table(table: &TableInfo) -> bool
    ensures { result ≡ the_is_plain_table table.now }
{
    is_plain_placing(&table.placing) && have_no_histogram(table.columns.as_slice())
}

fn are_plain_tables(tables: &[TableInfo]) -> bool
    ensures { result ≡ list_all the_is_plain_table tables.now }
{
    tables.iter().all(|table| is_plain_table(table))
}

/// Whether the version can say all of the catalogue. The first knows no table all of whose rows lie
/// on each segment, and no histogram.
pub fn can_say(version: CatalogVersion, catalog: &Catalog) -> bool
    ensures { result ≡ the_can_say version catalog.now }
{
    match version {
        CatalogVersion::One => are_plain_tables(catalog.tables.as_slice()),
        CatalogVersion::Two => true,
    }
}
