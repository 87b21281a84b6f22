// The host's files and its standard output. Of the bytes that they give and take nothing is told.
ghost use Rattle.std.specs.Prelude.{◌≡◌, ◌⊎◌, ◌≤◌, ◌+◌, None, OnOk, OnErr, IfErr, vec_len};
ghost use Rattle.std.specs.Io.{StartsWith};
ghost use Rattle.orca_base.specs.Causes.{Rose};
ghost use Rattle.orca_io.specs.declared.shelf.ShelfError.TheVariants.{Failed, TooLong, Memory};
ghost use Rattle.orca_io.specs.Shelf.{AddsAtMost, HasCause};
ghost use Rattle.orca_io.specs.Host.{IsOverOrStopped};

use crate::count::next_count;
use crate::{Shelf, ShelfError, Sink, SinkError};
use arrayvec::ArrayVec;
use std::io::{ErrorKind, Read};
use std::rt::Files;
use std::{fs, io};

/// The host's files, each under its path. All paths have one count of faults.
#[derive(Drop)]
pub struct FileShelf<'r, R: Files + Alloc> {
    rt: &'r R,
    faults: u64,
}

impl<'r, R: Files + Alloc> FileShelf<'r, R> {
    pub fn new(rt: &'r R) -> FileShelf<'r, R>
        ensures { result.faults ≡ 0 }
    {
        FileShelf { rt, faults: 0 }
    }
}

impl<'r, R: Files + Alloc> Shelf for FileShelf<'r, R> {
    ghost held = { λ _ _. None };

    ghost faults = { λ shelf _. shelf.faults };

    /// Reads one byte over the limit at most.
    fn read_all(&mut self, name: &str, limit: u64, into: &mut Vec<u8>) -> Result<(), ShelfError>
        ensures ok { OnOk result (AddsAtMost limit into.old.items into.new.items) }
        ensures no_fault { OnOk result (self.new.faults ≡ self.old.faults) }

        ensures cause { IfErr result (λ e. HasCause e None limit self.old.faults self.new.faults) }
        ensures err { OnErr result (into.new.items ≡ into.old.items) }

        ensures later { self.old.faults ≤ self.new.faults }
    {
        let start = into.len();
        match read_file(self.rt, name, limit, into) {
            Ok(()) => Ok(()),
            Err(e) => {
                into.truncate(start);
                if e == ShelfError::Failed {
                    self.faults = next_count(self.faults);
                }
                Err(e)
            }
        }
    }
}

// Adds a file's bytes. After a refusal some of them may stand there.
fn read_file<R: Files>(rt: &R, path: &str, limit: u64, into: &mut Vec<u8>) -> Result<(), ShelfError>
    ensures front { StartsWith into.new.items into.old.items }
    ensures ok { OnOk result (AddsAtMost limit into.old.items into.new.items) }
    ensures err { IfErr result (IsOverOrStopped limit) }
{
    match fs::open(rt, path) {
        Ok(file) => read_to_limit(file, limit, into),
        Err(e) => Err(refusal(e)),
    }
}

// Reads one byte over the limit at most.
fn read_to_limit<F: Read + Drop>(file: F, limit: u64, into: &mut Vec<u8>) -> Result<(), ShelfError>
    ensures front { StartsWith into.new.items into.old.items }
    ensures ok { OnOk result (AddsAtMost limit into.old.items into.new.items) }
    ensures err { IfErr result (IsOverOrStopped limit) }
{
    match file.take(limit.saturating_add(1)).read_to_end(into) {
        Ok(count) if count as u64 <= limit => Ok(()),
        Ok(_) => Err(ShelfError::TooLong { seen: limit + 1 }),
        Err(e) => Err(refusal(e)),
    }
}

fn refusal(e: io::Error) -> ShelfError
    ensures { (result ≡ Failed) ⊎ (result ≡ Memory) }
{
    if e.kind() == ErrorKind::OutOfMemory {
        ShelfError::Memory
    } else {
        ShelfError::Failed
    }
}

// How many bytes standard output may hold back.
const MOST_HELD: usize = 8192;

/// The host's standard output. Pieces are held back, and written together where they no longer fit, so that a text of
/// many short lines takes few calls of the host. Behind the last piece call `finish`: what is held is lost without it.
#[derive(Drop)]
pub struct StdSink<'r, R: Print> {
    rt: &'r R,
    held: ArrayVec<u8, MOST_HELD>,
    faults: u64,
}

impl<'r, R: Print> StdSink<'r, R> {
    pub fn new(rt: &'r R) -> StdSink<'r, R>
        ensures { result.faults ≡ 0 }
    {
        StdSink {
            rt,
            held: ArrayVec::new(),
            faults: 0,
        }
    }

    /// Writes what is held. Where the host refuses it, it is lost.
    pub fn finish(&mut self) -> Result<(), SinkError>
        ensures failed { OnErr result (Rose self.old.faults self.new.faults) }
        ensures later { self.old.faults ≤ self.new.faults }
    {
        if self.held.is_empty() {
            return Ok(());
        }
        let written = self.rt.write_all(self.held.as_slice());
        self.held.clear();
        self.told(written)
    }

    // The answer to what the host said, where a refusal is counted.
    fn told(&mut self, written: io::Result<()>) -> Result<(), SinkError>
        ensures failed { OnErr result (Rose self.old.faults self.new.faults) }
        ensures later { self.old.faults ≤ self.new.faults }
    {
        match written {
            Ok(()) => Ok(()),
            Err(_) => {
                self.faults = next_count(self.faults);
                Err(SinkError::Failed)
            }
        }
    }
}

impl<'r, R: Print> Sink for StdSink<'r, R> {
    ghost taken = { λ _. None };

    ghost faults = { λ sink. sink.faults };

    fn put(&mut self, bytes: &[u8]) -> Result<(), SinkError> {
        if self.held.try_extend_from_slice(bytes).is_ok() {
            return Ok(());
        }
        self.finish()?;
        if self.held.try_extend_from_slice(bytes).is_ok() {
            return Ok(());
        }
        // It is longer than all that may be held.
        let written = self.rt.write_all(bytes);
        self.told(written)
    }
}
