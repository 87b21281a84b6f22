//! What each task does with the names behind its word.
ghost use Rattle.std.specs.Prelude.{◌≡◌, option_map};
ghost use Rattle.command_line.specs.Command.{task_name};
ghost use Rattle.command_line.specs.Drafts.{names_read};
ghost use Rattle.command_line.specs.Reading.{task_of};
ghost use Rattle.command_line.specs.Views.{task_read};
ghost use Rattle.command_line.specs.declared.options.TaskName.{TaskName as AnyTaskName};

use crate::command::{Files, GenTask, ListFiles, PlanFiles, StageFiles, Task};
use crate::draft::TaskNames;
use crate::inputs::read_input;
use crate::options::TaskName;
use crate::stage_words::read_stages;

impl<'w> TaskNames<'w> {
    /// What `plan` does with them.
    pub fn planned(self) -> Option<Task<'w>>
        ensures { option_map task_read result ≡ task_of AnyTaskName.Plan (names_read self.entry) }
    {
        match self {
            TaskNames::Two(catalog, query) => Some(Task::Plan(Files { catalog, query })),
            _ => None,
        }
    }

    /// What `gen` does with them.
    pub fn generated(self) -> Option<Task<'w>>
        ensures { option_map task_read result ≡ task_of AnyTaskName.Gen (names_read self.entry) }
    {
        match self {
            TaskNames::Three(number, tables, shape) => Some(Task::Gen(GenTask {
                input: read_input(number, tables, shape)?,
            })),
            _ => None,
        }
    }

    /// What `stages` does with them.
    pub fn staged(self) -> Option<Task<'w>>
        ensures { option_map task_read result ≡ task_of AnyTaskName.Stages (names_read self.entry) }
    {
        match self {
            TaskNames::Three(catalog, query, word) => Some(Task::Stages(StageFiles {
                files: Files { catalog, query },
                stages: read_stages(word)?,
            })),
            _ => None,
        }
    }

    /// What `check` does with them.
    pub fn checked(self) -> Option<Task<'w>>
        ensures { option_map task_read result ≡ task_of AnyTaskName.Check (names_read self.entry) }
    {
        match self {
            TaskNames::Three(catalog, query, plan) => Some(Task::Check(PlanFiles {
                files: Files { catalog, query },
                plan,
            })),
            _ => None,
        }
    }

    /// What `dump` does with them.
    pub fn dumped(self) -> Option<Task<'w>>
        ensures { option_map task_read result ≡ task_of AnyTaskName.Dump (names_read self.entry) }
    {
        match self {
            TaskNames::Two(catalog, query) => Some(Task::Dump(Files { catalog, query })),
            _ => None,
        }
    }

    /// What `replay` does with them.
    pub fn replayed(self) -> Option<Task<'w>>
        ensures { option_map task_read result ≡ task_of AnyTaskName.Replay (names_read self.entry) }
    {
        match self {
            TaskNames::One(dump) => Some(Task::Replay(dump)),
            _ => None,
        }
    }

    /// What `batch` does with them.
    pub fn listed(self) -> Option<Task<'w>>
        ensures { option_map task_read result ≡ task_of AnyTaskName.Batch (names_read self.entry) }
    {
        match self {
            TaskNames::Two(catalog, list) => Some(Task::Batch(ListFiles { catalog, list })),
            _ => None,
        }
    }
}

impl<'w> Task<'w> {
    /// Its name.
    pub fn name(self) -> TaskName
        ensures { result ≡ task_name (task_read self.entry) }
    {
        match self {
            Task::Plan(_) => TaskName::Plan,
            Task::Gen(_) => TaskName::Gen,
            Task::Stages(_) => TaskName::Stages,
            Task::Check(_) => TaskName::Check,
            Task::Dump(_) => TaskName::Dump,
            Task::Replay(_) => TaskName::Replay,
            Task::Batch(_) => TaskName::Batch,
        }
    }
}
