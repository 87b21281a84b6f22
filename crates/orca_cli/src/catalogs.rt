//! The catalogue of a file, or of bytes.
ghost use Rattle.std.specs.Prelude.{◌≡◌, ◌≤◌, ℕ, List, IfOk, IfErr};
ghost use Rattle.query_core.specs.Catalog.{IsCatalog};
ghost use Rattle.orca_cli.specs.Asked.{SaysCatalog};
ghost use Rattle.orca_cli.specs.Prepared.{FileStops, IsCatalogRefused, Offers, reads};
ghost use Rattle.orca_cli.specs.Views.{EndsWith};

use crate::ending::{End, refused_catalog};
use crate::faults::catalog_fault_text;
use crate::reading::read_file;
use catalog_json::read_catalog;
use orca_io::Shelf;
use query_core::Catalog;
use std::alloc::Global;

/// The most bytes that a catalogue may have.
const CATALOG_LIMIT: u64 = 1_048_576;

/// The catalogue of the file of this name, or how the run ends without one.
pub fn catalog_of_file<S: Shelf>(alloc: Global, shelf: &mut S, name: &str) -> Result<Catalog, End>
    ensures offers { IfOk result (Offers (S.held shelf.old name.now)) }
    ensures sound { IfOk result IsCatalog }
    ensures stops { IfErr result (EndsWith (FileStops IsCatalogRefused name.now
        (reads (S.held shelf.old) (S.faults shelf.old) (S.faults shelf.new)))) }

    ensures same { (n : List ℕ) → S.held shelf.new n ≡ S.held shelf.old n }
    ensures later { (n : List ℕ) → S.faults shelf.old n ≤ S.faults shelf.new n }
{
    match read_file(alloc, shelf, name, CATALOG_LIMIT) {
        Ok(Some(bytes)) => catalog_of_bytes(alloc, &bytes),
        Ok(None) => Err(End::Told(refused_catalog(alloc, "too long")?)),
        Err(end) => Err(end),
    }
}

/// The catalogue that the bytes say, or how the run ends where they say none.
pub fn catalog_of_bytes(alloc: Global, bytes: &[u8]) -> Result<Catalog, End>
    ensures says { IfOk result (SaysCatalog bytes.now) }
    ensures sound { IfOk result IsCatalog }
    ensures stops { IfErr result (EndsWith (IsCatalogRefused bytes.now)) }
{
    match read_catalog(alloc, bytes) {
        Ok(catalog) => Ok(catalog),
        Err(fault) => {
            let cause = catalog_fault_text(alloc, &fault)?;
            Err(End::Told(refused_catalog(alloc, &cause)?))
        }
    }
}
