ghost use Rattle.std.specs.Prelude.{◌≡◌, ℕ, ◌<◌};

/// Who is told of goals that may be ready. A hint is never an answer: nothing rests on it, and no clause says that one
/// is given. To take a hint may take memory.
pub trait Hints {
    // A number that each place is below.
    ghost capacity: { Self → ℕ };

    /// The goal at this place may be ready.
    fn hint(&mut self, place: u32)
        requires { place < capacity self.old }
        ensures { capacity self.new ≡ capacity self.old };
}
