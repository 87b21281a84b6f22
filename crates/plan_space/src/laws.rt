//! What holds of all plans of a query.
#![tactic(auto)]

ghost use Rattle.query_core.specs.declared.query.Query.{Query};
ghost use Rattle.plan_space.specs.Nodes.{Tree};
ghost use Rattle.plan_space.specs.Order.{IsAtMost};
ghost use Rattle.plan_space.specs.Laws.{GivesWhatFits, SatisfactionSplits, SatisfactionJoins};
ghost use Rattle.plan_space.specs.Laws.{SatisfactionSplitsAtRoots};
ghost use Rattle.plan_space.specs.Laws.{AsksWhatFits, ChoicesServe, BestOfAllIsLeast, BestAtRootIsLeast, LeastIsOne};
ghost use Rattle.plan_space.specs.Laws.{CrossingsFit, RootRequestFits, RootRequestIsCollected, ModesAreFew};
ghost use Rattle.plan_space.specs.Laws.{ChoiceCostsFit, EnforcersAskWhatFits, KeysFall, LeastCostsFit};

use query_core::{candidates_are_known, expressions_are_one};
use request_props::listing_is_one;
use xform_rules::members_are_candidates;

/// What a valid plan gives lies in its group.
pub fn what_is_given_fits()
    ensures { (q : Query) → GivesWhatFits q }
{
    listing_is_one();
    members_are_candidates();
}

/// A request that fits the group is met by a valid plan with a physical expression at its root exactly where the
/// expression's mode is there for the request, and each plan below the root meets what is asked of it then.
pub fn satisfaction_splits()
    ensures at_roots { (q : Query) → SatisfactionSplitsAtRoots q }

    // The two directions, for an expression over kids of which only the group and what they give is known.
    ensures splits { (q : Query) → SatisfactionSplits q }
    ensures joins { (q : Query) → SatisfactionJoins q }
{
    listing_is_one();
    what_is_given_fits();
    members_are_candidates();
}

/// What is asked of a child fits its group, and so do the hash and the order of a left column by which a join may ask,
/// and what an enforcer asks.
pub fn what_is_asked_fits()
    ensures children { (q : Query) → AsksWhatFits q }
    ensures crossings { (q : Query) → CrossingsFit q }
    ensures enforcers { (q : Query) → EnforcersAskWhatFits q }
{
    listing_is_one();
}

/// The groups of an expression's children have lesser keys.
pub fn keys_fall()
    ensures { (q : Query) → KeysFall q }
{}

/// Each plan is at most itself, and at most what a plan is at most that it is at most.
pub fn plans_are_ordered()
    ensures itself { (q : Query) (a : Tree) → IsAtMost q a a }
    ensures along { (q : Query) (a b c : Tree) → IsAtMost q a b → IsAtMost q b c → IsAtMost q a c }
{}

/// A node over least plans of what it asks for is a plan for the request.
pub fn choices_serve()
    ensures { (q : Query) → ChoicesServe q }
{
    satisfaction_splits();
}

/// A plan that is at most what each node makes of least plans is the least of all plans.
pub fn best_of_all_is_least()
    ensures { (q : Query) → BestOfAllIsLeast q }
{
    what_is_given_fits();
    satisfaction_splits();
    members_are_candidates();
    candidates_are_known();
    expressions_are_one();
    listing_is_one();
}

/// A plan with an expression at its root that is at most what the expression makes of least plans in its modes is the
/// least of all plans with that root.
pub fn best_at_root_is_least()
    ensures { (q : Query) → BestAtRootIsLeast q }
{
    what_is_given_fits();
    satisfaction_splits();
    members_are_candidates();
    candidates_are_known();
    expressions_are_one();
    listing_is_one();
}

/// Of all plans for a request one is least, where the query has at most 60 hashed lists and orders.
pub fn least_is_one()
    ensures { (q : Query) → LeastIsOne q }
{
    members_are_candidates();
    candidates_are_known();
    expressions_are_one();
}

/// What is asked of the whole plan fits the root.
pub fn root_request_fits()
    ensures { (q : Query) → RootRequestFits q }
{
    listing_is_one();
}

/// What is collected for the whole plan is what is asked of it.
pub fn root_request_is_collected()
    ensures { (q : Query) → RootRequestIsCollected q }
{
    listing_is_one();
}

/// An expression has few modes, where the query has at most 60 hashed lists.
pub fn modes_are_few()
    ensures few { (q : Query) → ModesAreFew q }
{}

/// What a least plan costs fits a word, and so does what a node over least plans costs.
pub fn costs_fit()
    ensures least { (q : Query) → LeastCostsFit q }
    ensures choice { (q : Query) → ChoiceCostsFit q }
{
    what_is_given_fits();
    satisfaction_splits();
    what_is_asked_fits();
    members_are_candidates();
    candidates_are_known();
    expressions_are_one();
    listing_is_one();
}
