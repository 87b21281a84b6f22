//! The query of a file, or of a text, over a catalogue.
ghost use Rattle.std.specs.Prelude.{◌≡◌, ◌≤◌, ℕ, List, IfOk, IfErr};
ghost use Rattle.query_core.specs.Catalog.{IsCatalog};
ghost use Rattle.query_core.specs.Results.{AreOptions};
ghost use Rattle.query_core.specs.declared.catalog.Catalog.{Catalog};
ghost use Rattle.query_core.specs.declared.options.Options.{Options as AnyOptions};
ghost use Rattle.sql_reader.specs.Faults.{IsReading};
ghost use Rattle.sql_reader.specs.Readable.{IsReadable};
ghost use Rattle.orca_cli.specs.Asked.{Asks, IsBoundAs};
ghost use Rattle.orca_cli.specs.Prepared.{AreTold, FileStops, IsAskedAt, IsQueryRefused, reads};
ghost use Rattle.orca_cli.specs.Views.{EndsWith, IsAsked};

use crate::asked::Asked;
use crate::ending::{End, refused_query};
use crate::faults::{bind_fault_text, props_fault_text, sql_fault_text};
use crate::reading::read_file;
use orca_io::Shelf;
use query_core::{Catalog, Options, Query};
use request_props::Props;
use sql_bind::bind;
use sql_reader::{Select, one_outcome, read_sql};
use std::alloc::Global;

/// The most bytes that a query may have.
const QUERY_LIMIT: u64 = 65_536;

/// The query for which the file of this name asks, or how the run ends without one.
pub fn query_of_file<S: Shelf>(
    alloc: Global,
    shelf: &mut S,
    name: &str,
    catalog: &Catalog,
    options: Options,
) -> Result<Asked, End>
    requires catalogue { IsCatalog catalog.now }
    requires options { AreOptions options }
    ensures asks { IfOk result
        (IsAsked (IsAskedAt catalog.now options (S.held shelf.old name.now))) }
    ensures stops { IfErr result (EndsWith (FileStops (IsQueryRefused catalog.now options) name.now
        (reads (S.held shelf.old) (S.faults shelf.old) (S.faults shelf.new)))) }

    ensures same { (n : List ℕ) → S.held shelf.new n ≡ S.held shelf.old n }
    ensures later { (n : List ℕ) → S.faults shelf.old n ≤ S.faults shelf.new n }
{
    match text_of_file(alloc, shelf, name) {
        Ok(text) => query_of_text(alloc, &text, catalog, options),
        Err(end) => Err(end),
    }
}

/// The text of the query's file, or how the run ends without one: it couldn't be read, or is too long.
pub fn text_of_file<S: Shelf>(alloc: Global, shelf: &mut S, name: &str) -> Result<Vec<u8>, End>
    ensures told { IfOk result (λ text. AreTold (S.held shelf.old name.now) text.items) }
    ensures stops { (catalog : Catalog) (options : AnyOptions)
        → IfErr result (EndsWith (FileStops (IsQueryRefused catalog options) name.now
        (reads (S.held shelf.old) (S.faults shelf.old) (S.faults shelf.new)))) }

    ensures same { (n : List ℕ) → S.held shelf.new n ≡ S.held shelf.old n }
    ensures later { (n : List ℕ) → S.faults shelf.old n ≤ S.faults shelf.new n }
{
    // A text over the limit has this one fault.
    one_outcome();
    match read_file(alloc, shelf, name, QUERY_LIMIT) {
        Ok(Some(text)) => Ok(text),
        Ok(None) => Err(End::Told(refused_query(alloc, "too long")?)),
        Err(end) => Err(end),
    }
}

/// The query for which the text asks, or how the run ends where it asks for none.
pub fn query_of_text(
    alloc: Global,
    text: &[u8],
    catalog: &Catalog,
    options: Options,
) -> Result<Asked, End>
    requires catalogue { IsCatalog catalog.now }
    requires options { AreOptions options }
    ensures asks { IfOk result (IsAsked (Asks catalog.now options text.now)) }
    ensures stops { IfErr result (EndsWith (IsQueryRefused catalog.now options text.now)) }
{
    match select_of_text(alloc, text) {
        Ok(select) => query_of_select(alloc, &select, catalog, options),
        Err(end) => Err(end),
    }
}

/// What the text is read as, or how the run ends where it is no query, whatever the catalogue is.
pub fn select_of_text(alloc: Global, text: &[u8]) -> Result<Select, End>
    ensures reading { IfOk result (IsReading text.now) }
    ensures readable { IfOk result IsReadable }
    ensures stops { (catalog : Catalog) (options : AnyOptions)
        → IfErr result (EndsWith (IsQueryRefused catalog options text.now)) }
{
    match read_sql(alloc, text) {
        Ok(select) => Ok(select),
        Err(fault) => {
            let cause = sql_fault_text(alloc, fault)?;
            Err(End::Told(refused_query(alloc, &cause)?))
        }
    }
}

/// The same for each text of which the select is the reading.
pub fn query_of_select(
    alloc: Global,
    select: &Select,
    catalog: &Catalog,
    options: Options,
) -> Result<Asked, End>
    requires readable { IsReadable select.now }
    requires catalogue { IsCatalog catalog.now }
    requires options { AreOptions options }
    ensures asks { (text : List ℕ) → IsReading text select.now
        → IfOk result (IsAsked (Asks catalog.now options text)) }
    ensures stops { (text : List ℕ) → IsReading text select.now
        → IfErr result (EndsWith (IsQueryRefused catalog.now options text)) }
{
    match bind(alloc, select, catalog, options) {
        Ok(query) => numbered(alloc, query),
        Err(fault) => {
            let cause = bind_fault_text(alloc, fault)?;
            Err(End::Told(refused_query(alloc, &cause)?))
        }
    }
}

// The same for each text that is bound to the query.
fn numbered(alloc: Global, query: Query) -> Result<Asked, End>
    ensures asks { (catalog : Catalog) (options : AnyOptions) (text : List ℕ)
        → IsBoundAs catalog options text query → IfOk result (IsAsked (Asks catalog options text)) }
    ensures stops { (catalog : Catalog) (options : AnyOptions) (text : List ℕ)
        → IsBoundAs catalog options text query
        → IfErr result (EndsWith (IsQueryRefused catalog options text)) }
{
    match Props::collect(alloc, &query) {
        Ok(props) => Ok(Asked { query, props }),
        Err(fault) => {
            let cause = props_fault_text(alloc, fault)?;
            Err(End::Told(refused_query(alloc, &cause)?))
        }
    }
}
