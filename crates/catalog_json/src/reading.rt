//! The whole catalogue.
ghost use Rattle.std.specs.Prelude.{◌≡◌, ◌≢◌, ◌↔◌, ◌<◌, length, Some, None, Err, IfOk, IfErr, option_map};
ghost use Rattle.serde_json.specs.View.{view};
ghost use Rattle.catalog_json.specs.Walk.{Yields, catalog_at, version_at};
ghost use Rattle.catalog_json.specs.Outcome.{CatalogReads, json_of, most_bytes, told_of};
ghost use Rattle.query_core.specs.Catalog.{IsCatalog};

use crate::fault::{CatalogFault, Fault};
use crate::member::{number_at, whole};
use crate::object::Object;
use crate::place::Place;
use crate::table::read_tables;
use crate::version::CatalogVersion;
use query_core::Catalog;
use serde_json::Value;
use std::alloc::Global;

const MOST_BYTES: usize = 1_048_576;

fn version_at(value: Option<&Value>) -> Result<CatalogVersion, Fault>
    ensures { result ≡ version_at (option_map (λ v. view v.now) value.entry) }
{
    match whole(value) {
        None => Err(Fault::Shape(Place::Version)),
        Some(1) => Ok(CatalogVersion::One),
        Some(2) => Ok(CatalogVersion::Two),
        Some(found) => Err(Fault::Version(found)),
    }
}

#[tactic(auto, unfolding(crate::specs::Walk::catalog_at))]
fn read_value(alloc: Global, value: Value) -> Result<Catalog, Fault>
    ensures { Yields (catalog_at (view value)) result }
{
    let mut object = Object::of(value, Place::Whole)?;
    let version = version_at(object.get("version"))?;
    let segments = number_at(object.get("segments"), 1, 1_000, Place::Segments)?;
    let tables = read_tables(alloc, version, object.take("tables"))?;
    Ok(Catalog { segments, tables })
}

fn catalog_of(alloc: Global, value: Value) -> Result<Catalog, CatalogFault>
    ensures told { result ≢ Err CatalogFault.Memory → result ≡ told_of (catalog_at (view value)) }
    ensures sound { IfOk result IsCatalog }
    ensures short { result ≢ Err CatalogFault.TooLong }
{
    match read_value(alloc, value) {
        Ok(catalog) => Ok(catalog),
        Err(fault) => match fault.told(alloc) {
            Ok(told) => Err(told),
            Err(_) => Err(CatalogFault::Memory),
        },
    }
}

#[tactic(auto, using(crate::proofs::Json::json_of_some, crate::proofs::Json::json_of_none))]
fn value_of(alloc: Global, bytes: &[u8]) -> Result<Value, CatalogFault>
    ensures ok { IfOk result (λ v. json_of bytes.now ≡ Some (view v)) }
    ensures err { IfErr result
        (λ e. e ≢ CatalogFault.Memory → (e ≡ CatalogFault.NotJson) × (json_of bytes.now ≡ None)) }
{
    match Value::from_slice(alloc, bytes) {
        Ok(value) => Ok(value),
        Err(e) if e.is_memory() => Err(CatalogFault::Memory),
        Err(_) => Err(CatalogFault::NotJson),
    }
}

/// Reads a catalogue from the bytes of a JSON text.
#[tactic(auto, unfolding(crate::specs::Outcome::reading_of))]
pub fn read_catalog(alloc: Global, bytes: &[u8]) -> Result<Catalog, CatalogFault>
    // The catalogue that the bytes say, or the first fault.
    ensures reads { CatalogReads bytes.now result }
    ensures sound { IfOk result IsCatalog }

    // Too many bytes are refused before memory is asked for.
    ensures too_long { (result ≡ Err CatalogFault.TooLong) ↔ (most_bytes < length bytes.now) }
{
    if MOST_BYTES < bytes.len() {
        return Err(CatalogFault::TooLong);
    }
    match value_of(alloc, bytes) {
        Ok(value) => catalog_of(alloc, value),
        Err(fault) => Err(fault),
    }
}
