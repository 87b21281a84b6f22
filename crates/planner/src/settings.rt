//! What a host chooses for a query.
#![tactic(auto)]

ghost use Rattle.std.specs.Prelude.{◌↔◌, IsTrue};
ghost use Rattle.planner.specs.Settings.{AreSettings};

use query_core::{Options, RootDist};
use xform_rules::Rule;

/// What is chosen for a query.
#[derive(Clone, Copy, Debug, PartialEq, Eq)]
pub struct Settings {
    /// Where the rows of the result are wanted, and which rules are off.
    pub options: Options,
    /// How many members and goals the query may have: 1 to 1,048,576.
    pub capacity: u32,
}

const USUAL_CAPACITY: u32 = 131_072;

const MOST_CAPACITY: u32 = 1 << 20;

impl Settings {
    /// The rows at one place, all rules on, and a capacity of 131,072.
    pub fn usual() -> Settings
        ensures { AreSettings result }
    {
        Settings {
            options: Options {
                root: RootDist::One,
                off: 0,
            },
            capacity: USUAL_CAPACITY,
        }
    }

    /// Whether the capacity is in its range, and only rules that can be off are off.
    pub fn keep_limits(self) -> bool
        ensures { IsTrue result ↔ AreSettings self }
    {
        self.options.off < 1 << (Rule::all().len() + 1)
            && self.options.off % 4 == 0
            && 1 <= self.capacity
            && self.capacity <= MOST_CAPACITY
    }
}
