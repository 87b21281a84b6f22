// Where named bytes stand, and what one reading of them gives.
ghost use Rattle.std.specs.Prelude.{◌≡◌, ◌≤◌, ℕ, List, Option, OnOk, OnErr, IfErr};
ghost use Rattle.orca_io.specs.declared.shelf.ShelfError.TheVariants.{Memory};
ghost use Rattle.orca_io.specs.Shelf.{ReadsAll, HasCause};

use std::alloc::AllocError;

#[derive(Clone, Copy, Debug, PartialEq, Eq)]
pub enum ShelfError {
    /// The shelf couldn't read the name.
    Failed,
    /// More bytes stand there than were asked for. `seen` is how many of them were looked at.
    TooLong { seen: u64 },
    /// The bytes found no room in memory.
    Memory,
}

impl From<AllocError> for ShelfError {
    ghost from_gives = { λ _ e. e ≡ Memory };

    fn from(_: AllocError) -> Self {
        ShelfError::Memory
    }
}

pub trait Shelf {
    /// The bytes under each name, where the shelf tells them.
    ghost held: { Self → List ℕ → Option (List ℕ) };

    /// How often a reading of each name has failed. A count at 2^64 - 1 stays there, and counts as risen.
    ghost faults: { Self → List ℕ → ℕ };

    /// Adds all the bytes under the name to those of `into`.
    fn read_all(&mut self, name: &str, limit: u64, into: &mut Vec<u8>) -> Result<(), ShelfError>
        ensures ok { OnOk result
            (ReadsAll (held self.old name.now) limit into.old.items into.new.items) }

        ensures cause { IfErr result (λ e. HasCause e (held self.old name.now) limit
            (faults self.old name.now) (faults self.new name.now)) }
        ensures err { OnErr result (into.new.items ≡ into.old.items) }

        // What is held never changes, and no count falls.
        ensures same { (n : List ℕ) → held self.new n ≡ held self.old n }
        ensures later { (n : List ℕ) → faults self.old n ≤ faults self.new n };
}
