ghost use Rattle.std.specs.Prelude.{◌≡◌, ℕ, ◌<◌, IfOk};

use std::alloc::{AllocError, Global};

/// Items that are numbered from 0, each of which any thread may run.
pub trait Batch: Sync {
    type Output: Drop + Send;

    // How many items there are.
    ghost items: { Self → ℕ };

    // What the run of an item may give.
    ghost gives: { Self → ℕ → Self.Output → Type 0 };

    fn len(&self) -> u32
        ensures { result ≡ items self.now };

    fn run(&self, alloc: Global, item: u32) -> Result<Self::Output, AllocError>
        requires { item < items self.now }
        ensures { IfOk result (gives self.now item) };
}
