//! The stages that a command names.
ghost use Rattle.std.specs.Prelude.{◌≤◌};

use query_stage::Stage;

/// From 1 to 8 stages.
#[derive(Clone, Copy)]
pub struct Stages {
    // Those from `count` on are none.
    pub(crate) stages: [Stage; 8],
    pub(crate) count: u32,
    pub ghost some: { 1 ≤ count },
    pub ghost few: { count ≤ 8 },
}
