//! What a goal's word says of the words of its children and of what it asks for.
#![tactic(auto)]

ghost use Rattle.query_core.specs.declared.query.Query.{Query};
ghost use Rattle.job_turns.specs.Laws.{ChildrenAreKnown, AskedAreKnown, ChildrenHaveWords};

use goal_space::{goal_kinds_are_one, goals_are_known};

/// A word is that of one goal, so its children and what it asks for are that goal's.
pub fn words_are_known()
    ensures children { (q : Query) → ChildrenAreKnown q }
    ensures asked { (q : Query) → AskedAreKnown q }
    ensures words { (q : Query) → ChildrenHaveWords q }
{
    goal_kinds_are_one();
    goals_are_known();
}
