//! Lists of queries, with a query on each line.
ghost use Rattle.std.specs.Prelude.{◌≡◌, ◌≤◌, ℕ, List, None, IfOk, IfErr, length};
ghost use Rattle.orca_cli.specs.Lists.{IsListRefused, are_too_many, lines_of as the_lines_of, list_cause};
ghost use Rattle.orca_cli.specs.Prepared.{AreTold, FileStops, reads};
ghost use Rattle.orca_cli.specs.Views.{EndsWith, lines_read};

use crate::ending::{End, refused_batch};
use crate::reading::read_file;
use memchr::memchr;
use orca_io::Shelf;
use std::alloc::{AllocError, Global};

/// The most bytes that a list may have.
const LIST_LIMIT: u64 = 1_048_576;

/// The most lines that a list may have.
const LINES: u64 = 1_000;

/// How many members and goals the searches of all lines may have together, where each has as many as there is room for.
const ENTRIES: u64 = 67_108_864;

/// The list of the file of this name, or how the run ends without one.
pub fn list_of_file<S: Shelf>(
    alloc: Global,
    shelf: &mut S,
    name: &str,
    _capacity: u32,
) -> Result<Vec<u8>, End>
    ensures told { IfOk result (λ list. AreTold (S.held shelf.old name.now) list.items) }
    ensures bounded { IfOk result (λ list. length list.items ≤ 1048576) }
    ensures stops { IfErr result (EndsWith (FileStops (IsListRefused _capacity) name.now
        (reads (S.held shelf.old) (S.faults shelf.old) (S.faults shelf.new)))) }

    ensures same { (n : List ℕ) → S.held shelf.new n ≡ S.held shelf.old n }
    ensures later { (n : List ℕ) → S.faults shelf.old n ≤ S.faults shelf.new n }
{
    match read_file(alloc, shelf, name, LIST_LIMIT) {
        Ok(Some(list)) => Ok(list),
        Ok(None) => Err(End::Told(refused_batch(alloc, "too long")?)),
        Err(end) => Err(end),
    }
}

/// The lines of a list, or how the run ends where there are too many for the capacity.
pub fn queries_of(alloc: Global, list: &[u8], capacity: u32) -> Result<Vec<&[u8]>, End>
    requires { length list.now ≤ 1048576 }
    ensures lines { IfOk result (λ lines. lines_read lines.items ≡ the_lines_of list.now) }
    ensures usable { IfOk result (λ lines. list_cause capacity list.now ≡ None) }
    ensures stops { IfErr result (EndsWith (IsListRefused capacity list.now)) }
{
    let lines = lines_of(alloc, list)?;
    if too_many(lines.len() as u64, capacity) {
        return Err(End::Told(refused_batch(alloc, "too many queries")?));
    }
    Ok(lines)
}

// Whether there are too many lines for the capacity.
fn too_many(lines: u64, capacity: u32) -> bool
    ensures { result ≡ are_too_many lines capacity }
{
    lines > LINES || lines * u64::from(capacity) > ENTRIES
}

// The lines of a text. The last newline may be absent.
fn lines_of(alloc: Global, text: &[u8]) -> Result<Vec<&[u8]>, AllocError>
    ensures { IfOk result (λ lines. lines_read lines.items ≡ the_lines_of text.now) }
{
    let mut lines = Vec::new(alloc);
    let mut rest = text;
    while let Some(end) = memchr(b'\n', rest) {
        let (line, behind) = rest.split_at(end);
        lines.push(line)?;
        rest = &behind[1..];
    }
    if rest.is_empty() {
        return Ok(lines);
    }
    lines.push(rest)?;
    Ok(lines)
}
