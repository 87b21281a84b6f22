//! How stages are put together and looked at.
ghost use Rattle.std.specs.Prelude.{◌≡◌, ◌≤◌, ◌++◌, ◌∷◌, [], None, IfSome, length};
ghost use Rattle.command_line.specs.HeldStages.{stages_held};

use crate::stages::Stages;
use query_stage::Stage;

/// The most stages that a command names.
const STAGES: u32 = 8;

impl Stages {
    /// One stage.
    pub fn new(first: Stage) -> Stages
        ensures { stages_held result ≡ first ∷ [] }
    {
        Stages {
            stages: [first; 8],
            count: 1,
        }
    }

    /// The stages and one more, where there are fewer than eight.
    pub fn with(self, stage: Stage) -> Option<Stages>
        ensures more { IfSome result
            (λ more. stages_held more ≡ stages_held self ++ stage ∷ []) }
        ensures full { result ≡ None → length (stages_held self) ≡ 8 }
    {
        if self.count == STAGES {
            return None;
        }
        let mut stages = self.stages;
        stages[self.count as usize] = stage;
        Some(Stages {
            stages,
            count: self.count + 1,
        })
    }

    /// The stages, in their order.
    pub fn as_slice(&self) -> &[Stage]
        ensures stages { result.now ≡ stages_held self.now }
        ensures some { 1 ≤ length result.now }
        ensures few { length result.now ≤ 8 }
    {
        &self.stages[..self.count as usize]
    }
}
