//! The top call: words, files, query, search, ending, put.
ghost use Rattle.std.specs.Prelude.{◌≡◌, ◌↔◌, ◌⊎◌, ℕ, IsTrue, List, None, map, string_bytes};
ghost use Rattle.command_line.specs.Reading.{command_of};
ghost use Rattle.command_line.specs.Views.{task_read};
ghost use Rattle.orca_cli.specs.Causes.{Completes};
ghost use Rattle.orca_cli.specs.Run.{Ends, IsRun, puts};
ghost use Rattle.orca_cli.specs.Prepared.{AsksForOne, IsForOne, IsUsage, reads};
ghost use Rattle.orca_cli.specs.Views.{EndsAs, EndsWith, IsEndOf};

use crate::ending::{End, Ending};
use crate::laws::endings_have_causes;
use crate::prepared::{USAGE, prepared};
use crate::status::Status;
use crate::text::put_texts;
use crate::work::{done_alone, done_as_chosen};
use command_line::{Settings, Task, read_command};
use job_engine::RunNote;
use orca_io::{Gate, Shelf, Sink};
use std::alloc::Global;
use std::sync::Wait;
use std::thread::Threads;

/// Does what the words of a command line ask for: reads the files on the shelf, searches the query, plans
/// it in stages, or searches each query of a list, by so many workers as the command chooses, and puts the
/// text into the sink line by line. The text is made whole in memory first.
pub fn orca_run<R: Threads + Wait + Sync, S: Shelf, K: Sink, G: Gate>(
    rt: &R,
    alloc: Global,
    words: &[String],
    shelf: &mut S,
    out: &mut K,
    gate: &G,
    note: &mut RunNote,
) -> Status
    requires empty { note.old ≡ None }

    // How it ends, with its causes and its note.
    ensures ends { Ends (IsRun (command_of (map string_bytes words.now))
        (reads (S.held shelf.old) (S.faults shelf.old) (S.faults shelf.new)) note.old note.new)
        (puts (K.taken out.old) (K.taken out.new) (K.faults out.old) (K.faults out.new)) result }
    ensures completes { Completes (command_of (map string_bytes words.now))
        (reads (S.held shelf.old) (S.faults shelf.old) (S.faults shelf.new))
        (puts (K.taken out.old) (K.taken out.new) (K.faults out.old) (K.faults out.new)) result }

    ensures same { (n : List ℕ) → S.held shelf.new n ≡ S.held shelf.old n }
{
    endings_have_causes();
    let end = end_as_chosen(rt, alloc, words, shelf, gate, note);
    put(out, end)
}

/// The part of `orca_run` for one worker, where no crew may be. It returns.
pub fn orca_alone<S: Shelf, K: Sink>(
    alloc: Global,
    words: &[String],
    shelf: &mut S,
    out: &mut K,
    note: &mut RunNote,
) -> Status
    requires words { AsksForOne (command_of (map string_bytes words.now)) }
    requires empty { note.old ≡ None }

    // How it ends, with its causes and its note.
    ensures ends { Ends (IsRun (command_of (map string_bytes words.now))
        (reads (S.held shelf.old) (S.faults shelf.old) (S.faults shelf.new)) note.old note.new)
        (puts (K.taken out.old) (K.taken out.new) (K.faults out.old) (K.faults out.new)) result }
    ensures completes { Completes (command_of (map string_bytes words.now))
        (reads (S.held shelf.old) (S.faults shelf.old) (S.faults shelf.new))
        (puts (K.taken out.old) (K.taken out.new) (K.faults out.old) (K.faults out.new)) result }

    ensures same { (n : List ℕ) → S.held shelf.new n ≡ S.held shelf.old n }
{
    endings_have_causes();
    let end = end_alone(alloc, words, shelf, note);
    put(out, end)
}

/// Whether the words are a command that one worker does, where no crew may be.
pub fn is_for_one(words: &[String]) -> bool
    ensures { IsTrue result ↔ AsksForOne (command_of (map string_bytes words.now)) }
{
    match read_command(words) {
        Some(command) => is_task_for_one(command.task, command.settings),
        None => false,
    }
}

fn is_task_for_one(task: Task<'_>, settings: Settings) -> bool
    ensures { IsTrue result ↔ IsForOne (task_read task.entry) settings }
{
    match task {
        Task::Plan(_)
        | Task::Gen(_)
        | Task::Check(_)
        | Task::Dump(_)
        | Task::Replay(_)
        | Task::Batch(_) => settings.workers == 1,
        Task::Stages(_) => false,
    }
}

/// Puts the line that says which commands there are, as for words that are none.
pub fn put_usage<K: Sink>(out: &mut K) -> Status
    ensures ends { Ends IsUsage
        (puts (K.taken out.old) (K.taken out.new) (K.faults out.old) (K.faults out.new)) result }
    ensures one { (result ≡ Status.Usage) ⊎ (result ≡ Status.WriteFault) }
{
    match out.put(USAGE.as_bytes()) {
        Ok(()) => Status::Usage,
        Err(_) => Status::WriteFault,
    }
}

// The end of a run by as many workers as the command chooses.
fn end_as_chosen<R: Threads + Wait + Sync, S: Shelf, G: Gate>(
    rt: &R,
    alloc: Global,
    words: &[String],
    shelf: &mut S,
    gate: &G,
    note: &mut RunNote,
) -> End
    ensures ends { EndsWith (IsRun (command_of (map string_bytes words.now))
        (reads (S.held shelf.old) (S.faults shelf.old) (S.faults shelf.new)) note.old note.new)
        result }

    ensures same { (n : List ℕ) → S.held shelf.new n ≡ S.held shelf.old n }
{
    match prepared(alloc, words, shelf) {
        Ok(mut wanted) => done_as_chosen(rt, alloc, &mut wanted, gate, note),
        Err(end) => end,
    }
}

// The end of a run by one worker.
fn end_alone<S: Shelf>(alloc: Global, words: &[String], shelf: &mut S, note: &mut RunNote) -> End
    requires { AsksForOne (command_of (map string_bytes words.now)) }
    ensures ends { EndsWith (IsRun (command_of (map string_bytes words.now))
        (reads (S.held shelf.old) (S.faults shelf.old) (S.faults shelf.new)) note.old note.new)
        result }

    ensures same { (n : List ℕ) → S.held shelf.new n ≡ S.held shelf.old n }
{
    match prepared(alloc, words, shelf) {
        Ok(wanted) => done_alone(alloc, &wanted, note),
        Err(end) => end,
    }
}

// Puts the text of the end, if there is one.
fn put<K: Sink>(out: &mut K, end: End) -> Status
    ensures { Ends (IsEndOf end)
        (puts (K.taken out.old) (K.taken out.new) (K.faults out.old) (K.faults out.new)) result }
{
    match end {
        End::Told(ending) => put_ending(out, &ending),
        End::Memory => Status::Memory,
    }
}

fn put_ending<K: Sink>(out: &mut K, ending: &Ending) -> Status
    ensures { Ends (EndsAs ending.now)
        (puts (K.taken out.old) (K.taken out.new) (K.faults out.old) (K.faults out.new)) result }
{
    match put_texts(out, &ending.texts) {
        Ok(()) => ending.status,
        Err(_) => Status::WriteFault,
    }
}
