//! What the words of a command line ask for: work to be done, or the run ends without a search.
ghost use Rattle.std.specs.Prelude.{◌≡◌, ◌≤◌, ℕ, List, IfOk, IfErr, map, string_bytes};
ghost use Rattle.query_core.specs.Results.{AreOptions};
ghost use Rattle.command_line.specs.Reading.{command_of};
ghost use Rattle.command_line.specs.Options.{AreSettings};
ghost use Rattle.command_line.specs.Views.{file_names, list_names, plan_names, stage_names, task_read};
ghost use Rattle.orca_cli.specs.Lists.{IsListRefused};
ghost use Rattle.orca_cli.specs.Prepared.{CheckStops, FilesAsk, FilesStop, QueryStops, Stops, TaskStops, reads};
ghost use Rattle.orca_cli.specs.Texts.{usage_line};
ghost use Rattle.orca_cli.specs.Views.{AreChecked, AreDumped, AreListed, AreStaged, AsksFor, EndsAs, EndsWith};
ghost use Rattle.orca_cli.specs.Views.{IsAsked, IsDumpable, IsListed, CanBeDone, IsWanted};

use crate::asked::{Asked, Checked, Dumped, InStages, Listed, Wanted, Work};
use crate::catalogs::catalog_of_file;
use crate::checks::plan_of_file;
use crate::dumps::{dumped_over, replayed_by_file};
use crate::ending::{End, Ending, line};
use crate::generated::query_of_input;
use crate::lists::list_of_file;
use crate::queries::query_of_file;
use crate::status::Status;
use command_line::{
    Command, Files, ListFiles, PlanFiles, Settings, StageFiles, Task, read_command,
};
use orca_io::Shelf;
use query_core::Options;
use std::alloc::{AllocError, Global};

pub const USAGE: &str = concat!(
    "usage: orca plan CATALOG QUERY [--workers N] [--capacity N] [--root one|spread]",
    " [--off RULE+RULE] [--memo] [--trace] [--by-worker]",
    " | orca gen NUMBER TABLES SHAPE [--workers N] [--capacity N]",
    " | orca stages CATALOG QUERY STAGES [--workers N] [--capacity N] [--root one|spread]",
    " | orca check CATALOG QUERY PLAN [--root one|spread] [--off RULE+RULE]",
    " | orca dump CATALOG QUERY [--capacity N] [--root one|spread] [--off RULE+RULE] [--memo]",
    " [--trace]",
    " | orca replay DUMP [--workers N]",
    " | orca batch CATALOG LIST [--workers N] [--capacity N] [--root one|spread]",
    " [--off RULE+RULE] [--memo] [--trace]\n",
);

/// The command that the words are, and the work for which it asks; or how the run ends.
pub fn prepared<'w, S: Shelf>(
    alloc: Global,
    words: &'w [String],
    shelf: &mut S,
) -> Result<Wanted<'w>, End>
    ensures wanted { IfOk result
        (IsWanted (command_of (map string_bytes words.now)) (S.held shelf.old)) }
    ensures ready { IfOk result (λ wanted. CanBeDone wanted.work) }
    ensures stops { IfErr result (EndsWith (Stops (command_of (map string_bytes words.now))
        (reads (S.held shelf.old) (S.faults shelf.old) (S.faults shelf.new)))) }

    ensures same { (n : List ℕ) → S.held shelf.new n ≡ S.held shelf.old n }
{
    match read_command(words) {
        Some(command) => match work_of(alloc, shelf, command.task, command.settings) {
            Ok(work) => Ok(Wanted { command, work }),
            Err(end) => Err(end),
        },
        None => Err(End::Told(usage(alloc)?)),
    }
}

// The line that says which commands there are.
fn usage(alloc: Global) -> Result<Ending, AllocError>
    ensures { IfOk result (λ ending. EndsAs ending Status.Usage usage_line) }
{
    line(alloc, Status::Usage, USAGE)
}

// The work for which the task asks.
fn work_of<S: Shelf>(
    alloc: Global,
    shelf: &mut S,
    task: Task<'_>,
    settings: Settings,
) -> Result<Work, End>
    requires { AreSettings settings }
    ensures asks { IfOk result
        (AsksFor (task_read task.entry) settings.options (S.held shelf.old)) }
    ensures ready { IfOk result CanBeDone }
    ensures stops { IfErr result (EndsWith (TaskStops (task_read task.entry) settings
        (reads (S.held shelf.old) (S.faults shelf.old) (S.faults shelf.new)))) }

    ensures same { (n : List ℕ) → S.held shelf.new n ≡ S.held shelf.old n }
{
    match task {
        Task::Plan(files) => match asked_by_files(alloc, shelf, files, settings.options) {
            Ok(asked) => Ok(Work::Query(asked)),
            Err(end) => Err(end),
        },
        Task::Gen(made) => Ok(Work::Query(query_of_input(alloc, made, settings.options)?)),
        Task::Stages(named) => match staged_by_files(alloc, shelf, named, settings.options) {
            Ok(staged) => Ok(Work::Stages(staged)),
            Err(end) => Err(end),
        },
        Task::Check(named) => match checked_by_files(alloc, shelf, named, settings.options) {
            Ok(checked) => Ok(Work::Check(checked)),
            Err(end) => Err(end),
        },
        Task::Dump(files) => match dumped_by_files(alloc, shelf, files, settings.options) {
            Ok(dumped) => Ok(Work::Dump(dumped)),
            Err(end) => Err(end),
        },
        Task::Replay(file) => match replayed_by_file(alloc, shelf, file) {
            Ok(replayed) => Ok(Work::Replay(replayed)),
            Err(end) => Err(end),
        },
        Task::Batch(files) => match listed_by_files(alloc, shelf, files, settings.capacity) {
            Ok(listed) => Ok(Work::List(listed)),
            Err(end) => Err(end),
        },
    }
}

// The query for which two files ask: that of the catalogue, and then that of the query.
fn asked_by_files<S: Shelf>(
    alloc: Global,
    shelf: &mut S,
    files: Files<'_>,
    options: Options,
) -> Result<Asked, End>
    requires { AreOptions options }
    ensures asks { IfOk result
        (IsAsked (FilesAsk (file_names files.entry) options (S.held shelf.old))) }
    ensures stops { IfErr result (EndsWith (QueryStops (file_names files.entry) options
        (reads (S.held shelf.old) (S.faults shelf.old) (S.faults shelf.new)))) }

    ensures same { (n : List ℕ) → S.held shelf.new n ≡ S.held shelf.old n }
    ensures later { (n : List ℕ) → S.faults shelf.old n ≤ S.faults shelf.new n }
{
    match catalog_of_file(alloc, shelf, files.catalog) {
        Ok(catalog) => query_of_file(alloc, shelf, files.query, &catalog, options),
        Err(end) => Err(end),
    }
}

// The query for which two files ask, and the stages of the command.
fn staged_by_files<S: Shelf>(
    alloc: Global,
    shelf: &mut S,
    named: StageFiles<'_>,
    options: Options,
) -> Result<InStages, End>
    requires { AreOptions options }
    ensures staged { IfOk result
        (AreStaged (stage_names named.entry) options (S.held shelf.old)) }
    ensures ready { IfOk result (λ staged. CanBeDone (Work.Stages staged)) }
    ensures stops { IfErr result (EndsWith (QueryStops (file_names named.entry.files) options
        (reads (S.held shelf.old) (S.faults shelf.old) (S.faults shelf.new)))) }

    ensures same { (n : List ℕ) → S.held shelf.new n ≡ S.held shelf.old n }
{
    match asked_by_files(alloc, shelf, named.files, options) {
        Ok(asked) => Ok(InStages {
            asked,
            stages: named.stages,
        }),
        Err(end) => Err(end),
    }
}

// The query for which two files ask, and then the text of a third one.
fn checked_by_files<S: Shelf>(
    alloc: Global,
    shelf: &mut S,
    named: PlanFiles<'_>,
    options: Options,
) -> Result<Checked, End>
    requires { AreOptions options }
    ensures checked { IfOk result
        (AreChecked (plan_names named.entry) options (S.held shelf.old)) }
    ensures ready { IfOk result (λ checked. CanBeDone (Work.Check checked)) }
    ensures stops { IfErr result (EndsWith (CheckStops (plan_names named.entry) options
        (reads (S.held shelf.old) (S.faults shelf.old) (S.faults shelf.new)))) }

    ensures same { (n : List ℕ) → S.held shelf.new n ≡ S.held shelf.old n }
{
    match asked_by_files(alloc, shelf, named.files, options) {
        Ok(asked) => match plan_of_file(alloc, shelf, named.plan) {
            Ok(plan) => Ok(Checked { asked, plan }),
            Err(end) => Err(end),
        },
        Err(end) => Err(end),
    }
}

// The query and the catalogue of two files, where the query isn't refused.
fn dumped_by_files<S: Shelf>(
    alloc: Global,
    shelf: &mut S,
    files: Files<'_>,
    options: Options,
) -> Result<Dumped, End>
    requires { AreOptions options }
    ensures dumped { IfOk result (AreDumped (file_names files.entry) options (S.held shelf.old)) }
    ensures ready { IfOk result IsDumpable }
    ensures stops { IfErr result (EndsWith (QueryStops (file_names files.entry) options
        (reads (S.held shelf.old) (S.faults shelf.old) (S.faults shelf.new)))) }

    ensures same { (n : List ℕ) → S.held shelf.new n ≡ S.held shelf.old n }
{
    match catalog_of_file(alloc, shelf, files.catalog) {
        Ok(catalog) => dumped_over(alloc, shelf, files.query, catalog, options),
        Err(end) => Err(end),
    }
}

// The catalogue and the list of two files, in this order.
fn listed_by_files<S: Shelf>(
    alloc: Global,
    shelf: &mut S,
    files: ListFiles<'_>,
    capacity: u32,
) -> Result<Listed, End>
    ensures listed { IfOk result (AreListed (list_names files.entry) (S.held shelf.old)) }
    ensures ready { IfOk result IsListed }
    ensures stops { IfErr result (EndsWith (FilesStop (λ _. IsListRefused capacity)
        files.entry.catalog.now files.entry.list.now
        (reads (S.held shelf.old) (S.faults shelf.old) (S.faults shelf.new)))) }

    ensures same { (n : List ℕ) → S.held shelf.new n ≡ S.held shelf.old n }
{
    match catalog_of_file(alloc, shelf, files.catalog) {
        Ok(catalog) => match list_of_file(alloc, shelf, files.list, capacity) {
            Ok(list) => Ok(Listed { catalog, list }),
            Err(end) => Err(end),
        },
        Err(end) => Err(end),
    }
}
