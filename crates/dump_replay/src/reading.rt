//! Reads a dump, up to the first line that isn't of the form.
ghost use Rattle.dump_replay.specs.Dumps.{IsReadAs, IsShort};

use crate::dump::{Dump, DumpFault, DumpOptions};
use crate::lines::{
    capacity_line, catalog_line, off_line_of, print_line, query_line, root_line, version_line,
};
use orca_base::List;
use query_core::Options;
use std::alloc::Global;

/// The most bytes that a dump may have.
const DUMP_LIMIT: usize = 1_179_648;

/// Reads a dump. What its catalogue and its query say isn't asked.
pub fn read_dump(alloc: Global, bytes: &[u8]) -> Result<Dump, DumpFault>
    ensures { IsReadAs bytes.now result }
{
    if bytes.len() > DUMP_LIMIT {
        return Err(DumpFault::TooLong);
    }
    read_lines(alloc, bytes)
}

// The same of a text that isn't too long.
#[tactic(auto, unfolding(crate::specs::Dumps::text_of))]
fn read_lines(alloc: Global, text: &[u8]) -> Result<Dump, DumpFault>
    requires { IsShort text.now }
    ensures { IsReadAs text.now result }
{
    let Some(rest) = version_line(text) else {
        return Err(DumpFault::Line { line: 0 });
    };
    let Some((capacity, rest)) = capacity_line(rest) else {
        return Err(DumpFault::Line { line: 1 });
    };
    let Some((root, rest)) = root_line(rest) else {
        return Err(DumpFault::Line { line: 2 });
    };
    let Some((off, rest)) = off_line_of(alloc, rest)? else {
        return Err(DumpFault::Line { line: 3 });
    };
    let Some(((memo, trace), rest)) = print_line(rest) else {
        return Err(DumpFault::Line { line: 4 });
    };
    let Some((catalog, rest)) = catalog_line(rest) else {
        return Err(DumpFault::Line { line: 5 });
    };
    let Some(query) = query_line(rest) else {
        return Err(DumpFault::Line { line: 6 });
    };
    Ok(Dump {
        options: DumpOptions {
            capacity,
            options: Options { root, off },
            memo,
            trace,
        },
        catalog: List::of(catalog.to_vec(alloc)?),
        query: List::of(query.to_vec(alloc)?),
    })
}
