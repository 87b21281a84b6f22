//! How a run ends that searches what its command asks for.
ghost use Rattle.std.specs.Prelude.{◌≡◌, ◌↔◌, IsTrue, Option};
ghost use Rattle.command_line.specs.Command.{AnyCommand};
ghost use Rattle.command_line.specs.Views.{task_read};
ghost use Rattle.orca_cli.specs.Prepared.{Reads, generated_in as the_generated_in};
ghost use Rattle.orca_cli.specs.Run.{IsRun};
ghost use Rattle.orca_cli.specs.Views.{EndsWith, CanBeDone, IsWanted, IsWorkForOne};

use crate::asked::{Wanted, Work};
use crate::batch::{batch_alone, batch_by_crew};
use crate::checks::check_ending;
use crate::dumps::{dump_ending, dump_options};
use crate::ending::End;
use crate::search::{replayed_alone, replayed_by_crew, searched_alone, searched_by_crew};
use crate::stages::stages_ending;
use command_line::{GenInput, Task};
use job_engine::RunNote;
use orca_io::Gate;
use std::alloc::{AllocError, Global};
use std::sync::Wait;
use std::thread::Threads;

/// The end of a run whose work one worker does, where no crew may be. It returns.
pub fn done_alone(alloc: Global, wanted: &Wanted<'_>, note: &mut RunNote) -> End
    requires ready { CanBeDone wanted.now.work }
    requires alone { IsWorkForOne wanted.now.work wanted.now.command.settings.workers }
    ensures { (named : Option AnyCommand) (shelf : Reads) → IsWanted named shelf.held wanted.now
        → EndsWith (IsRun named shelf note.old note.new) result }
{
    let settings = wanted.command.settings;
    match &wanted.work {
        Work::Query(asked) => {
            let generated = generated_in(wanted.command.task);
            match searched_alone(alloc, settings, generated, asked, note) {
                Ok(ending) => End::Told(ending),
                Err(AllocError) => End::Memory,
            }
        }
        Work::Stages(_) => unreachable!(),
        Work::Check(checked) => match check_ending(alloc, checked) {
            Ok(ending) => End::Told(ending),
            Err(AllocError) => End::Memory,
        },
        Work::Dump(dumped) => match dump_ending(alloc, dumped, dump_options(settings)) {
            Ok(ending) => End::Told(ending),
            Err(AllocError) => End::Memory,
        },
        Work::Replay(replayed) => match replayed_alone(alloc, settings.workers, replayed, note) {
            Ok(ending) => End::Told(ending),
            Err(AllocError) => End::Memory,
        },
        Work::List(listed) => match batch_alone(alloc, settings, listed) {
            Ok(ending) => End::Told(ending),
            Err(end) => end,
        },
    }
}

// The same by as many workers as the command chooses, where a crew may be.
fn done_by_crew<R: Threads + Wait + Sync, G: Gate>(
    rt: &R,
    alloc: Global,
    wanted: &mut Wanted<'_>,
    gate: &G,
    note: &mut RunNote,
) -> End
    requires ready { CanBeDone wanted.old.work }
    ensures { (named : Option AnyCommand) (shelf : Reads) → IsWanted named shelf.held wanted.old
        → EndsWith (IsRun named shelf note.old note.new) result }
{
    let settings = wanted.command.settings;
    match &mut wanted.work {
        Work::Query(asked) => {
            let generated = generated_in(wanted.command.task);
            match searched_by_crew(rt, alloc, settings, generated, asked, gate, note) {
                Ok(ending) => End::Told(ending),
                Err(AllocError) => End::Memory,
            }
        }
        Work::Stages(staged) => match stages_ending(rt, alloc, settings, staged, gate) {
            Ok(ending) => End::Told(ending),
            Err(AllocError) => End::Memory,
        },
        Work::Check(checked) => match check_ending(alloc, checked) {
            Ok(ending) => End::Told(ending),
            Err(AllocError) => End::Memory,
        },
        Work::Dump(dumped) => match dump_ending(alloc, dumped, dump_options(settings)) {
            Ok(ending) => End::Told(ending),
            Err(AllocError) => End::Memory,
        },
        Work::Replay(replayed) => {
            match replayed_by_crew(rt, alloc, settings.workers, replayed, gate, note) {
                Ok(ending) => End::Told(ending),
                Err(AllocError) => End::Memory,
            }
        }
        Work::List(listed) => match batch_by_crew(rt, alloc, settings, listed, gate) {
            Ok(ending) => End::Told(ending),
            Err(end) => end,
        },
    }
}

/// The end of a run by one worker where one is chosen, and else by so many. This is the one place where a run by one
/// worker and a run by a crew part; stages go the way of a crew, however many workers there are.
pub fn done_as_chosen<R: Threads + Wait + Sync, G: Gate>(
    rt: &R,
    alloc: Global,
    wanted: &mut Wanted<'_>,
    gate: &G,
    note: &mut RunNote,
) -> End
    requires { CanBeDone wanted.old.work }
    ensures { (named : Option AnyCommand) (shelf : Reads) → IsWanted named shelf.held wanted.old
        → EndsWith (IsRun named shelf note.old note.new) result }
{
    if wanted.is_for_one() {
        done_alone(alloc, wanted, note)
    } else {
        done_by_crew(rt, alloc, wanted, gate, note)
    }
}

impl Wanted<'_> {
    // Whether one worker does the work, where no crew may be.
    fn is_for_one(&self) -> bool
        ensures { IsTrue result ↔ IsWorkForOne self.now.work self.now.command.settings.workers }
    {
        match self.work {
            Work::Query(_) | Work::Check(_) | Work::Dump(_) | Work::Replay(_) | Work::List(_) =>
                self.command.settings.workers == 1,
            Work::Stages(_) => false,
        }
    }
}

// What is made for `gen`.
fn generated_in(task: Task<'_>) -> Option<GenInput>
    ensures { result ≡ the_generated_in (task_read task.entry) }
{
    match task {
        Task::Gen(made) => Some(made.input),
        Task::Plan(_)
        | Task::Stages(_)
        | Task::Check(_)
        | Task::Dump(_)
        | Task::Replay(_)
        | Task::Batch(_) => None,
    }
}
