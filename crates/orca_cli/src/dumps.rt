//! The dump of a query, and the query of a dump's file.
ghost use Rattle.std.specs.Prelude.{◌≡◌, ◌≤◌, ℕ, List, Ok, IfOk, IfErr};
ghost use Rattle.query_core.specs.Catalog.{IsCatalog};
ghost use Rattle.query_core.specs.Results.{AreOptions};
ghost use Rattle.dump_replay.specs.Dumps.{AreDumpOptions, IsReadAs};
ghost use Rattle.command_line.specs.Numbers.{IsWithin};
ghost use Rattle.command_line.specs.Options.{AreSettings};
ghost use Rattle.orca_cli.specs.Dumps.{DumpAsks, IsDumpEnd, dump_options as the_dump_options};
ghost use Rattle.orca_cli.specs.Dumps.{replay_settings as the_replay_settings};
ghost use Rattle.orca_cli.specs.Prepared.{AsksNothing, FileStops, IsQueryRefused, IsReplayRefused, reads};
ghost use Rattle.orca_cli.specs.Views.{EndsWith, IsAsked, IsDumpable, IsDumpedOf, IsDumpedOver, text_of};
ghost use Rattle.orca_cli.specs.Views.{IsReplayable, IsReplayed, IsReplayOf};

use crate::asked::{Asked, Dumped, Replayed};
use crate::catalogs::catalog_of_bytes;
use crate::ending::{End, Ending, refused_dump};
use crate::faults::dump_fault_text;
use crate::queries::{query_of_select, query_of_text, select_of_text, text_of_file};
use crate::reading::read_file;
use crate::status::Status;
use command_line::Settings;
use dump_replay::{Dump, DumpOptions, dump_text, read_dump};
use orca_io::Shelf;
use query_core::{Catalog, Options};
use std::alloc::{AllocError, Global};

/// The most bytes that a dump may have.
const DUMP_LIMIT: u64 = 1_179_648;

/// The query of the file of this name, which isn't refused over the catalogue; or how the run ends.
pub fn dumped_over<S: Shelf>(
    alloc: Global,
    shelf: &mut S,
    name: &str,
    catalog: Catalog,
    options: Options,
) -> Result<Dumped, End>
    requires catalogue { IsCatalog catalog }
    requires options { AreOptions options }
    ensures dumped { IfOk result (IsDumpedOver catalog options (S.held shelf.old name.now)) }
    ensures ready { IfOk result IsDumpable }
    ensures stops { IfErr result (EndsWith (FileStops (IsQueryRefused catalog options) name.now
        (reads (S.held shelf.old) (S.faults shelf.old) (S.faults shelf.new)))) }

    ensures same { (n : List ℕ) → S.held shelf.new n ≡ S.held shelf.old n }
{
    match text_of_file(alloc, shelf, name) {
        Ok(query) => dumped_of(alloc, catalog, query, options),
        Err(end) => Err(end),
    }
}

// The same of a text.
fn dumped_of(
    alloc: Global,
    catalog: Catalog,
    query: Vec<u8>,
    options: Options,
) -> Result<Dumped, End>
    requires catalogue { IsCatalog catalog }
    requires options { AreOptions options }
    ensures dumped { IfOk result (IsDumpedOf catalog options query.items) }
    ensures ready { IfOk result IsDumpable }
    ensures stops { IfErr result (EndsWith (IsQueryRefused catalog options query.items)) }
{
    match select_of_text(alloc, &query) {
        Ok(select) => match query_of_select(alloc, &select, &catalog, options) {
            Ok(_) => Ok(Dumped {
                catalog,
                query,
                select,
            }),
            Err(end) => Err(end),
        },
        Err(end) => Err(end),
    }
}

/// How a run ends that writes a dump.
pub fn dump_ending(
    alloc: Global,
    dumped: &Dumped,
    options: DumpOptions,
) -> Result<Ending, AllocError>
    requires ready { IsDumpable dumped.now }
    requires options { AreDumpOptions options }
    ensures { IfOk result (λ ending. IsDumpEnd dumped.now.select dumped.now.catalog
        dumped.now.query.items options ending.status (text_of ending)) }
{
    match dump_text(
        alloc,
        &dumped.select,
        &dumped.catalog,
        &dumped.query,
        &options,
    ) {
        Ok(text) => Ending::of(alloc, Status::Planned, text),
        Err(fault) => {
            let cause = dump_fault_text(alloc, fault)?;
            refused_dump(alloc, &cause)
        }
    }
}

/// The query of the dump in the file of this name, or how the run ends without one.
pub fn replayed_by_file<S: Shelf>(alloc: Global, shelf: &mut S, name: &str) -> Result<Replayed, End>
    ensures replayed { IfOk result (IsReplayed (S.held shelf.old name.now)) }
    ensures ready { IfOk result IsReplayable }
    ensures stops { IfErr result (EndsWith (FileStops IsReplayRefused name.now
        (reads (S.held shelf.old) (S.faults shelf.old) (S.faults shelf.new)))) }

    ensures same { (n : List ℕ) → S.held shelf.new n ≡ S.held shelf.old n }
{
    match read_file(alloc, shelf, name, DUMP_LIMIT) {
        Ok(Some(bytes)) => replayed_bytes(alloc, &bytes),
        Ok(None) => Err(End::Told(refused_dump(alloc, "too long")?)),
        Err(end) => Err(end),
    }
}

// The query of the dump that the bytes say, or how the run ends where they ask for none.
fn replayed_bytes(alloc: Global, bytes: &[u8]) -> Result<Replayed, End>
    ensures replayed { IfOk result (IsReplayOf bytes.now) }
    ensures ready { IfOk result IsReplayable }
    ensures stops { IfErr result (EndsWith (IsReplayRefused bytes.now)) }
{
    match read_dump(alloc, bytes) {
        Ok(dump) => replayed_dump(alloc, &dump),
        Err(fault) => {
            let cause = dump_fault_text(alloc, fault)?;
            Err(End::Told(refused_dump(alloc, &cause)?))
        }
    }
}

// The same for each text that says the dump.
fn replayed_dump(alloc: Global, dump: &Dump) -> Result<Replayed, End>
    requires { AreDumpOptions dump.now.options }
    ensures replayed { (bytes : List ℕ) → IsReadAs bytes (Ok dump.now)
        → IfOk result (IsReplayOf bytes) }
    ensures ready { IfOk result IsReplayable }
    ensures stops { (bytes : List ℕ) → IsReadAs bytes (Ok dump.now)
        → IfErr result (EndsWith (IsReplayRefused bytes)) }
{
    match query_of_dump(alloc, dump) {
        Ok(asked) => Ok(Replayed {
            options: dump.options,
            asked,
        }),
        Err(end) => Err(end),
    }
}

// The query for which a dump asks, or how the run ends where it asks for none.
fn query_of_dump(alloc: Global, dump: &Dump) -> Result<Asked, End>
    requires { AreDumpOptions dump.now.options }
    ensures asks { IfOk result (IsAsked (DumpAsks dump.now)) }
    ensures stops { IfErr result (EndsWith (AsksNothing dump.now)) }
{
    match catalog_of_bytes(alloc, dump.catalog.as_slice()) {
        Ok(catalog) => query_of_text(alloc, dump.query.as_slice(), &catalog, dump.options.options),
        Err(end) => Err(end),
    }
}

/// What a command chooses for its dump: all but the workers.
pub fn dump_options(settings: Settings) -> DumpOptions
    requires { AreSettings settings }
    ensures options { result ≡ the_dump_options settings }
    ensures allowed { AreDumpOptions result }
{
    DumpOptions {
        capacity: settings.capacity,
        options: settings.options,
        memo: settings.memo,
        trace: settings.trace,
    }
}

/// What is chosen for a replay: what the dump says, and so many workers.
pub fn replay_settings(options: DumpOptions, workers: u32) -> Settings
    requires options { AreDumpOptions options }
    requires workers { IsWithin 1 64 workers }
    ensures settings { result ≡ the_replay_settings options workers }
    ensures allowed { AreSettings result }
{
    Settings {
        workers,
        capacity: options.capacity,
        options: options.options,
        memo: options.memo,
        trace: options.trace,
        by_worker: false,
    }
}
