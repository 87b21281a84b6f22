//! What a run tells of itself.
#![tactic(auto)]

ghost use Rattle.std.specs.Prelude.{◌≡◌, ℕ, Option, None};

use std::marker::Model;

/// The capacity, the number of workers and how many goals they finished, once a search has run. It is empty when it is
/// made, and only the runs fill it.
#[derive(Drop)]
pub struct RunNote {
    pub(crate) filled: Option<(u32, u32, u32)>,
}

impl Model for RunNote {
    ghost Value = { Option (ℕ × ℕ × ℕ) };

    ghost view = { λ note. note.filled };
}

impl RunNote {
    /// An empty note.
    pub fn new() -> RunNote
        ensures { result ≡ None }
    {
        RunNote { filled: None }
    }

    /// The capacity, the number of workers and the number of goals finished by the last run.
    pub fn last(&self) -> Option<(u32, u32, u32)>
        ensures { result ≡ self.now }
    {
        self.filled
    }
}
