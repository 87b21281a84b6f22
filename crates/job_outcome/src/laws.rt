//! What holds of outcomes, whichever search gave them.
#![tactic(auto)]

ghost use Rattle.std.specs.Prelude.{◌≡◌, ℕ, ◌<◌, All, List, length};
ghost use Rattle.query_core.specs.declared.query.Query.{Query};
ghost use Rattle.board_rule.specs.Records.{Ended};
ghost use Rattle.board_rule.specs.Seats.{Each};
ghost use Rattle.job_outcome.specs.Outcomes.{HasMoreEntries, FitsIn, AreFinishers};

/// A query whose entries fit in the capacity has no more than that.
pub fn entries_fit_or_not()
    ensures { (q : Query) (capacity : ℕ) (members goals : List ℕ) →
        FitsIn q capacity members goals → HasMoreEntries q capacity → ⊥ }
{}

/// There is one worker for each goal, and it is one of those that the seat has in its list.
pub fn finishers_are_known()
    ensures each { (cell : ℕ → ℕ) (done : List Ended) (goals who : List ℕ) →
        AreFinishers cell done goals who → length who ≡ length goals }
    ensures below { (cell : ℕ → ℕ) (done : List Ended) (goals who : List ℕ) (n : ℕ) →
        AreFinishers cell done goals who → Each (λ (e : Ended). e.worker < n) done →
        All (λ worker. worker < n) who }
{}
