//! What a command chooses by its options.
ghost use Rattle.std.specs.Prelude.{◌≡◌, IfSome, option_map};
ghost use Rattle.command_line.specs.Options.{AreSettings, setting_of, usual as the_usual};
ghost use Rattle.command_line.specs.Reading.{chosen_by};

use crate::numbers::number_within;
use crate::off_rules::read_off;
use crate::options::OptionName;
use crate::roots::read_root;
use query_core::{Options, RootDist};

/// What a command chooses by its options.
#[derive(Clone, Copy)]
pub struct Settings {
    /// How many workers search.
    pub workers: u32,
    /// How many members and goals there is room for.
    pub capacity: u32,
    pub options: Options,
    /// Whether the memo is printed behind the plan.
    pub memo: bool,
    /// Whether the goals are printed.
    pub trace: bool,
    /// Whether the worker that finished each goal is printed.
    pub by_worker: bool,
}

impl Settings {
    /// What holds where no option is given.
    pub fn usual() -> Settings
        ensures usual { result ≡ the_usual }
        ensures allowed { AreSettings result }
    {
        Settings {
            workers: 1,
            capacity: 131_072,
            options: Options {
                root: RootDist::One,
                off: 0,
            },
            memo: false,
            trace: false,
            by_worker: false,
        }
    }

    /// The same with what the option asks for, where the word behind it is a value of it.
    pub fn with(self, option: OptionName, value: Option<&str>) -> Option<Settings>
        requires before { AreSettings self }
        ensures chosen { result
            ≡ chosen_by (setting_of option) (option_map (λ word. word.now) value.entry) self }
        ensures allowed { IfSome result AreSettings }
    {
        match option {
            OptionName::Workers => Some(Settings {
                workers: number_within(value?, 1, 64)? as u32,
                ..self
            }),
            OptionName::Capacity => Some(Settings {
                capacity: number_within(value?, 64, 1_048_576)? as u32,
                ..self
            }),
            OptionName::Root => Some(Settings {
                options: Options {
                    root: read_root(value?)?,
                    ..self.options
                },
                ..self
            }),
            OptionName::Off => Some(Settings {
                options: Options {
                    off: read_off(value?)?.bits,
                    ..self.options
                },
                ..self
            }),
            OptionName::Memo => Some(Settings { memo: true, ..self }),
            OptionName::Trace => Some(Settings {
                trace: true,
                ..self
            }),
            OptionName::ByWorker => Some(Settings {
                by_worker: true,
                ..self
            }),
        }
    }
}
