//! What holds of the children of all goals over a query, and of the list of its goals.
#![tactic(auto)]

ghost use Rattle.std.specs.Prelude.{◌≡◌, ℕ, List};
ghost use Rattle.query_core.specs.declared.query.Query.{Query};
ghost use Rattle.goal_children.specs.Listed.{AreGoalsOf};
ghost use Rattle.goal_children.specs.Over.{AreGoalWords};
ghost use Rattle.goal_children.specs.Laws.{ChildrenAreOne, ChildrenAreOver, ClosureHasChildren, GoalsAreOver};
ghost use Rattle.goal_children.specs.Laws.{GoalsOverHaveWords};

use goal_space::{goal_kinds_are_one, goals_are_known};
use plan_space::what_is_asked_fits;
use query_core::{candidates_are_known, expressions_are_one, groups_are_known};
use xform_rules::{members_are_candidates, members_are_known};

/// The children of a goal over a query are goals over it, so they have words.
pub fn children_are_over_the_query()
    ensures children { (q : Query) → ChildrenAreOver q }
    ensures words { (q : Query) → GoalsOverHaveWords q }
{
    candidates_are_known();
    groups_are_known();
    what_is_asked_fits();
}

/// The children of a goal, ascending by their words, are one list.
pub fn children_are_one()
    ensures { (q : Query) → ChildrenAreOne q }
{
    children_are_over_the_query();
    goal_kinds_are_one();
}

/// The goals of a query are goals over it, and have their children over the words of all members.
pub fn goals_are_over_the_query()
    ensures goals { (q : Query) → GoalsAreOver q }
    ensures closure { (q : Query) → ClosureHasChildren q }
{
    goals_are_known();
    candidates_are_known();
    expressions_are_one();
    members_are_candidates();
    members_are_known();
}

/// What all lists of goals have in common.
pub fn goal_lists_are_known()
    // A query has one.
    ensures one { (q : Query) (words others : List ℕ) →
        AreGoalsOf q words → AreGoalsOf q others → words ≡ others }

    // Its words ascend, and are those of goals over the query.
    ensures over { (q : Query) (words : List ℕ) →
        AreGoalsOf q words → AreGoalWords q words }
{
    goals_are_over_the_query();
}
