//! Reads the words of a command line.
ghost use Rattle.std.specs.Prelude.{◌≡◌, ◌++◌, List, option_map, map, string_bytes};
ghost use Rattle.std.specs.Option.{option_and_then};
ghost use Rattle.command_line.specs.Command.{Piece};
ghost use Rattle.command_line.specs.Reading.{command_from, task_named, command_of, pieces_of};
ghost use Rattle.command_line.specs.Drafts.{IsDraft};
ghost use Rattle.command_line.specs.Views.{command_read};
ghost use Rattle.command_line.specs.declared.options.TaskName.{TaskName as AnyTaskName};

use crate::command::Command;
use crate::draft::Draft;
use crate::options::TaskName;
use crate::pieces::{read_valued, read_word, takes_value};

/// The command that the words are, where they are one.
pub fn read_command(words: &[String]) -> Option<Command<'_>>
    ensures { option_map command_read result ≡ command_of (map string_bytes words.now) }
{
    let (first, others) = words.split_first()?;
    let task = read_task(first.as_str())?;
    read_behind(others, Draft::new(task))
}

// The task that the word names.
fn read_task(word: &str) -> Option<TaskName>
    ensures { result ≡ task_named word.now }
{
    match word {
        "plan" => Some(TaskName::Plan),
        "gen" => Some(TaskName::Gen),
        "stages" => Some(TaskName::Stages),
        "check" => Some(TaskName::Check),
        "dump" => Some(TaskName::Dump),
        "replay" => Some(TaskName::Replay),
        "batch" => Some(TaskName::Batch),
        _ => None,
    }
}

// The command of what was read and of the words behind it.
fn read_behind<'w>(words: &'w [String], draft: Draft<'w>) -> Option<Command<'w>>
    ensures { (task : AnyTaskName) (before : List Piece) → IsDraft task before draft.entry
        → option_map command_read result
        ≡ option_and_then (λ after. command_from task (before ++ after))
        (pieces_of (map string_bytes words.now)) }
{
    let Some((word, more)) = words.split_first() else {
        return draft.command();
    };
    if takes_value(word) {
        let (value, more) = more.split_first()?;
        read_behind(more, draft.with(read_valued(word, value)?)?)
    } else {
        read_behind(more, draft.with(read_word(word)?)?)
    }
}
