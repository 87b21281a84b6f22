//! The tasks, the options, and which task takes which.
ghost use Rattle.std.specs.Prelude.{◌≡◌, ◌<◌};
ghost use Rattle.command_line.specs.Options.{allows as the_allows, option_number, options_of, takes_option};
ghost use Rattle.command_line.specs.Options.{takes_value as the_takes_value};

use crate::settings::Settings;

/// The most cells that the boards of all workers of a batch may have together.
const BATCH_CELLS: u64 = 8_388_608;

/// The tasks, each named by the first word of a command.
#[derive(Clone, Copy)]
pub enum TaskName {
    Plan,
    Gen,
    Stages,
    Check,
    Dump,
    Replay,
    Batch,
}

/// The options.
#[derive(Clone, Copy)]
pub enum OptionName {
    Workers,
    Capacity,
    Root,
    Off,
    Memo,
    Trace,
    ByWorker,
}

impl TaskName {
    /// The options that it takes.
    fn options(self) -> &'static [OptionName]
        ensures { result.now ≡ options_of self }
    {
        match self {
            TaskName::Plan => &[
                OptionName::Workers,
                OptionName::Capacity,
                OptionName::Root,
                OptionName::Off,
                OptionName::Memo,
                OptionName::Trace,
                OptionName::ByWorker,
            ],
            TaskName::Gen => &[OptionName::Workers, OptionName::Capacity],
            TaskName::Stages => &[OptionName::Workers, OptionName::Capacity, OptionName::Root],
            TaskName::Check => &[OptionName::Root, OptionName::Off],
            TaskName::Dump => &[
                OptionName::Capacity,
                OptionName::Root,
                OptionName::Off,
                OptionName::Memo,
                OptionName::Trace,
            ],
            TaskName::Replay => &[OptionName::Workers],
            TaskName::Batch => &[
                OptionName::Workers,
                OptionName::Capacity,
                OptionName::Root,
                OptionName::Off,
                OptionName::Memo,
                OptionName::Trace,
            ],
        }
    }

    /// Whether it takes the option.
    pub fn takes(self, option: OptionName) -> bool
        ensures { result ≡ takes_option self option }
    {
        for taken in self.options() {
            if taken.number() == option.number() {
                return true;
            }
        }
        false
    }

    /// Whether it allows what is chosen for it.
    pub fn allows(self, settings: Settings) -> bool
        ensures { result ≡ the_allows self settings }
    {
        match self {
            TaskName::Plan
            | TaskName::Gen
            | TaskName::Stages
            | TaskName::Check
            | TaskName::Dump
            | TaskName::Replay => true,
            TaskName::Batch => {
                u64::from(settings.workers) * u64::from(settings.capacity) <= BATCH_CELLS
            }
        }
    }
}

impl OptionName {
    /// The number of the option: its place among all.
    pub fn number(self) -> u32
        ensures number { result ≡ option_number self }
        ensures small { result < 32 }
    {
        self as u32
    }

    /// Whether a value stands behind it.
    pub fn takes_value(self) -> bool
        ensures { result ≡ the_takes_value self }
    {
        !matches!(
            self,
            OptionName::Memo | OptionName::Trace | OptionName::ByWorker
        )
    }
}
