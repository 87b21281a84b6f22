// Where bytes are put, and what one piece put there adds.
ghost use Rattle.std.specs.Prelude.{◌≤◌, ℕ, List, Option, OnOk, OnErr};
ghost use Rattle.std.specs.Io.KnownBytes.{Appends};
ghost use Rattle.orca_base.specs.Causes.{Rose};
ghost use Rattle.orca_io.specs.Sink.{TakesPrefix};

#[derive(Clone, Copy, Debug, PartialEq, Eq)]
pub enum SinkError {
    /// The sink didn't take the whole piece.
    Failed,
}

pub trait Sink {
    /// The bytes taken so far, where the sink tells them.
    ghost taken: { Self → Option (List ℕ) };

    /// How often a piece wasn't taken whole. A count at 2^64 - 1 stays there, and counts as risen.
    ghost faults: { Self → ℕ };

    /// Puts a piece behind what was taken before.
    fn put(&mut self, bytes: &[u8]) -> Result<(), SinkError>
        ensures ok { OnOk result (Appends (taken self.old) (taken self.new) bytes.now) }

        ensures failed { OnErr result (Rose (faults self.old) (faults self.new)) }
        ensures err { OnErr result (TakesPrefix (taken self.old) (taken self.new) bytes.now) }

        ensures later { faults self.old ≤ faults self.new };
}
