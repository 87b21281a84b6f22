//! What the search of one query gave, in lists.
ghost use Rattle.std.specs.Prelude.{ℕ, IfOk};
ghost use Rattle.query_core.specs.declared.query.Query.{Query};
ghost use Rattle.job_engine.specs.Runs.{RunEnds};
ghost use Rattle.batch_search.specs.Batches.{EndsListed};

use job_engine::Outcome;
use job_outcome::Lists;
use std::alloc::{AllocError, Global};

/// What the search of one query of a batch gave. The board is gone.
#[derive(Drop)]
pub enum ListedOutcome {
    /// All goals are finished.
    Done(Lists),
    /// The query has more entries than the capacity.
    Full { capacity: u32 },
}

// The lists of what a search by one worker gave.
pub(crate) fn listed(alloc: Global, outcome: Outcome) -> Result<ListedOutcome, AllocError>
    requires { (query : Query) × (capacity : ℕ) × RunEnds query capacity 1 outcome }
    ensures { IfOk result (λ listed. (query : Query) (capacity : ℕ) →
        RunEnds query capacity 1 outcome → EndsListed query capacity listed) }
{
    match outcome {
        Outcome::Done(searched) => Ok(ListedOutcome::Done(searched.lists(alloc)?)),
        Outcome::Full { capacity } => Ok(ListedOutcome::Full { capacity }),
        Outcome::Unfinished { ready: _ } => unreachable!(),
    }
}
