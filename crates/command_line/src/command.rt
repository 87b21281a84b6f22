//! What the words of a command line ask for.
ghost use Rattle.std.proofs.Props.{props};
ghost use Rattle.command_line.specs.Numbers.{IsWithin};
ghost use Rattle.command_line.specs.Options.{AreSettings};

use crate::settings::Settings;
use crate::stages::Stages;
use query_generator::GenShape;

/// The names of the files of a catalogue and of a query.
#[derive(Clone, Copy)]
pub struct Files<'w> {
    pub catalog: &'w str,
    pub query: &'w str,
}

/// The names of the files that `stages` reads, and the stages.
#[derive(Clone, Copy)]
pub struct StageFiles<'w> {
    pub files: Files<'w>,
    pub stages: Stages,
}

/// The names of the files that `check` reads.
#[derive(Clone, Copy)]
pub struct PlanFiles<'w> {
    pub files: Files<'w>,
    /// The file with the text of a plan.
    pub plan: &'w str,
}

/// The names of the files that `batch` reads.
#[derive(Clone, Copy)]
pub struct ListFiles<'w> {
    pub catalog: &'w str,
    /// The file with a query on each line.
    pub list: &'w str,
}

/// What `gen` makes a catalogue and a query of.
#[derive(Clone, Copy)]
pub struct GenInput {
    pub number: u64,
    /// How many tables there are.
    pub tables: u32,
    pub shape: GenShape,
}

/// What `gen` is asked for.
#[derive(Clone, Copy)]
pub struct GenTask {
    pub input: GenInput,
    pub ghost few_tables: { IsWithin 1 8 input.tables } by { Prim.hlevel props },
}

/// What a command does.
#[derive(Clone, Copy)]
pub enum Task<'w> {
    /// Plans the query of one file over the catalogue of another.
    Plan(Files<'w>),
    /// Makes a catalogue and a query, and plans it.
    Gen(GenTask),
    /// Plans the query of one file over the catalogue of another in stages.
    Stages(StageFiles<'w>),
    /// Checks the plan of a file, for the query of another over the catalogue of a third.
    Check(PlanFiles<'w>),
    /// Writes all that the plan of a query over a catalogue depends on as one text.
    Dump(Files<'w>),
    /// Plans the query of the dump in the file of this name.
    Replay(&'w str),
    /// Plans each query of a list over a catalogue.
    Batch(ListFiles<'w>),
}

/// A task, and what is chosen for it by options.
#[derive(Clone, Copy)]
pub struct Command<'w> {
    pub task: Task<'w>,
    pub settings: Settings,
    pub ghost settings_valid: { AreSettings settings } by { Prim.hlevel props },
}
