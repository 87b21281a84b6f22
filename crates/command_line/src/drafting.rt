//! Puts what was read into a draft, piece by piece.
ghost use Rattle.std.specs.Prelude.{◌≡◌, ◌++◌, ◌∷◌, [], None, List, option_map, IfSome, length};
ghost use Rattle.command_line.specs.Command.{Piece};
ghost use Rattle.command_line.specs.Drafts.{IsDraft, names_read};
ghost use Rattle.command_line.specs.Reading.{command_from, task_of};
ghost use Rattle.command_line.specs.Views.{command_read, option_given, piece as the_piece, task_read};
ghost use Rattle.command_line.specs.declared.options.TaskName.{TaskName as AnyTaskName};

use crate::command::{Command, Task};
use crate::draft::{Draft, TaskNames};
use crate::options::{OptionName, TaskName};
use crate::pieces::Word;
use crate::settings::Settings;
use query_core::sets;

impl<'w> Draft<'w> {
    /// Nothing was read behind the task's word.
    pub fn new(task: TaskName) -> Draft<'w>
        ensures { IsDraft task [] result }
    {
        Draft {
            task,
            names: TaskNames::Nothing,
            settings: Settings::usual(),
            given: 0,
        }
    }

    /// The draft and one piece more, where the task has room for it.
    pub fn with(self, piece: Word<'w>) -> Option<Draft<'w>>
        ensures added { IfSome result (λ draft. (task : AnyTaskName) (before : List Piece)
            → IsDraft task before self.entry
            → IsDraft task (before ++ the_piece piece.entry ∷ []) draft) }
        ensures refused { result ≡ None → (task : AnyTaskName) (before after : List Piece)
            → IsDraft task before self.entry
            → command_from task (before ++ the_piece piece.entry ∷ after) ≡ None }
    {
        match piece {
            Word::Name(name) => Some(Draft {
                task: self.task,
                names: self.names.with(name)?,
                settings: self.settings,
                given: self.given,
            }),
            Word::Option(option, value) => self.with_option(option, value),
        }
    }

    // The draft and one option more, where the task takes it, it wasn't given, and the word behind it
    // is a value of it.
    fn with_option(self, option: OptionName, value: Option<&'w str>) -> Option<Draft<'w>>
        ensures added { IfSome result (λ draft. (task : AnyTaskName) (before : List Piece)
            → IsDraft task before self.entry
            → IsDraft task (before ++ option_given option value.entry ∷ []) draft) }
        ensures refused { result ≡ None → (task : AnyTaskName) (before after : List Piece)
            → IsDraft task before self.entry
            → command_from task (before ++ option_given option value.entry ∷ after) ≡ None }
    {
        if !self.task.takes(option) {
            return None;
        }
        let number = option.number();
        if sets::has(self.given, number) {
            return None;
        }
        Some(Draft {
            task: self.task,
            names: self.names,
            settings: self.settings.with(option, value)?,
            given: sets::with(self.given, number),
        })
    }

    /// The command, where its names were read and its task allows what is chosen.
    pub fn command(self) -> Option<Command<'w>>
        ensures { (task : AnyTaskName) (pieces : List Piece) → IsDraft task pieces self.entry
            → option_map command_read result ≡ command_from task pieces }
    {
        let task = self.task()?;
        if !task.name().allows(self.settings) {
            return None;
        }
        Some(Command {
            task,
            settings: self.settings,
        })
    }

    fn task(self) -> Option<Task<'w>>
        ensures { option_map task_read result
            ≡ task_of self.entry.task (names_read self.entry.names) }
    {
        match self.task {
            TaskName::Plan => self.names.planned(),
            TaskName::Gen => self.names.generated(),
            TaskName::Stages => self.names.staged(),
            TaskName::Check => self.names.checked(),
            TaskName::Dump => self.names.dumped(),
            TaskName::Replay => self.names.replayed(),
            TaskName::Batch => self.names.listed(),
        }
    }
}

impl<'w> TaskNames<'w> {
    // The names and one more, where there are fewer than three.
    fn with(self, name: &'w str) -> Option<TaskNames<'w>>
        ensures more { IfSome result
            (λ more. names_read more ≡ names_read self.entry ++ name.now ∷ []) }
        ensures full { result ≡ None → length (names_read self.entry) ≡ 3 }
    {
        match self {
            TaskNames::Nothing => Some(TaskNames::One(name)),
            TaskNames::One(first) => Some(TaskNames::Two(first, name)),
            TaskNames::Two(first, second) => Some(TaskNames::Three(first, second, name)),
            TaskNames::Three(_, _, _) => None,
        }
    }
}
