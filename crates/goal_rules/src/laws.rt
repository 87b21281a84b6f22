//! What the words of entries stand for, and how exploration finds members.
#![tactic(auto)]

ghost use Rattle.query_core.specs.declared.query.Query.{Query};
ghost use Rattle.goal_rules.specs.Grown.{MembersAreGrown};
ghost use Rattle.goal_rules.specs.Known.{EntriesAreMembers, GoalWordsAreKnown, ExplorationsAreKnown};
ghost use Rattle.goal_rules.specs.WordRanks.{WordRanksAreRanks};

use goal_space::{goal_kinds_are_one, goals_are_known};
use query_core::{candidates_are_known, expressions_are_one, goals_are_one};
use xform_rules::{members_are_candidates, members_are_known, results_are_known};

/// What the words of entries stand for.
pub fn entries_are_known()
    ensures members { (q : Query) → EntriesAreMembers q }
    ensures goals { (q : Query) → GoalWordsAreKnown q }
{
    members_are_candidates();
    members_are_known();
    candidates_are_known();
    expressions_are_one();
    goals_are_known();
    goal_kinds_are_one();
}

/// The logical members of a group are its origin, and what exploration leads to from there.
pub fn members_are_explored()
    ensures { (q : Query) → MembersAreGrown q }
{
    results_are_known();
}

/// The exploration of a group asks for what is found from the origin, and waits for the exploration
/// of each.
pub fn explorations_are_known()
    ensures { (q : Query) → ExplorationsAreKnown q }
{
    entries_are_known();
    goals_are_known();
    members_are_explored();
    members_are_candidates();
    results_are_known();
}

/// What the rank by a goal's word is.
pub fn ranks_are_known()
    ensures { WordRanksAreRanks }
{
    goals_are_one();
    goal_kinds_are_one();
}
