//! Writes a dump.
ghost use Rattle.std.specs.Prelude.{◌≡◌, ◌++◌, ℕ, List, IfOk, codes, string_bytes};
ghost use Rattle.query_core.specs.Catalog.{IsCatalog};
ghost use Rattle.sql_reader.specs.Faults.{IsReading};
ghost use Rattle.dump_replay.specs.Dumps.{AreDumpOptions, Dumps, text_of as the_text_of};

use crate::dump::{DumpFault, DumpOptions};
use crate::named::named_catalog;
use crate::spelling::{off_line, print_line, root_word};
use catalog_json::CatalogVersion;
use catalog_text::write_catalog;
use query_core::Catalog;
use sql_reader::{Select, readings};
use std::alloc::{AllocError, Global};

/// The most bytes that the text of a catalogue may have.
const CATALOG_LIMIT: usize = 1_048_576;

/// The dump of a query over a catalogue: what is chosen for it, the tables that its FROM names, and the
/// query's own text. Nothing else is in it.
pub fn dump_text(
    alloc: Global,
    select: &Select,
    catalog: &Catalog,
    query: &[u8],
    options: &DumpOptions,
) -> Result<Vec<u8>, DumpFault>
    requires reading { IsReading query.now select.now }
    requires catalogue { IsCatalog catalog.now }
    requires options { AreDumpOptions options.now }
    ensures { Dumps select.now catalog.now query.now options.now result }
{
    // A text that is read isn't too long.
    readings();
    let named = named_catalog(alloc, select, catalog)?;
    let text = write_catalog(alloc, &named, CatalogVersion::Two)?;
    if text.len() > CATALOG_LIMIT {
        return Err(DumpFault::TooLong);
    }
    Ok(text_of(alloc, options, &text, query)?)
}

// The text of these options, of the catalogue's text and of the query's.
fn text_of(
    alloc: Global,
    options: &DumpOptions,
    catalog: &[u8],
    query: &[u8],
) -> Result<Vec<u8>, AllocError>
    ensures { IfOk result (λ text. text.items ≡ the_text_of options.now catalog.now query.now) }
{
    let mut text = head_of(alloc, options)?.into_bytes();
    text.extend_from_slice(catalog)?;
    text.extend_from_slice(b"\nquery ")?;
    text.extend_from_slice(query)?;
    text.push(b'\n')?;
    Ok(text)
}

// What stands before the catalogue's text, whatever that and the query are.
fn head_of(alloc: Global, options: &DumpOptions) -> Result<String, AllocError>
    ensures { IfOk result (λ head. (catalog query : List ℕ) → string_bytes head
        ++ (catalog ++ (codes "\nquery " ++ (query ++ codes "\n")))
        ≡ the_text_of options.now catalog query) }
{
    let capacity = options.capacity;
    let root = root_word(options.options.root);
    let off = off_line(alloc, options.options.off)?;
    let print = print_line(options.memo, options.trace);
    Ok(format!(in alloc;
        "orca dump 1\ncapacity {capacity}\nroot {root}\n{off}\n{print}\ncatalog "
    )?)
}
