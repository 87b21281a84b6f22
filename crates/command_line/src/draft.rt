//! A command whose words are being read.
ghost use Rattle.std.proofs.Props.{props};
ghost use Rattle.command_line.specs.Options.{AreSettings};

use crate::options::TaskName;
use crate::settings::Settings;

/// The names that were read.
#[derive(Clone, Copy)]
pub enum TaskNames<'w> {
    Nothing,
    One(&'w str),
    Two(&'w str, &'w str),
    Three(&'w str, &'w str, &'w str),
}

/// What was read of a command so far.
#[derive(Clone, Copy)]
pub struct Draft<'w> {
    pub task: TaskName,
    pub names: TaskNames<'w>,
    pub settings: Settings,
    /// The bits of the numbers of the options that were given.
    pub given: u32,
    pub ghost settings_valid: { AreSettings settings } by { Prim.hlevel props },
}
