//! What the words of a command line ask for.
#![tactic(auto)]

mod command;
mod draft;
mod drafting;
mod held_stages;
mod inputs;
mod laws;
mod numbers;
mod off_rules;
mod off_set;
mod options;
mod pieces;
mod roots;
mod settings;
mod stage_words;
mod stages;
mod tasks;
mod words;

pub use command::{Command, Files, GenInput, GenTask, ListFiles, PlanFiles, StageFiles, Task};
pub use laws::commands_are_spelled;
pub use numbers::number_within;
pub use off_rules::read_off;
pub use off_set::OffSet;
pub use roots::read_root;
pub use settings::Settings;
pub use stages::Stages;
pub use words::read_command;
