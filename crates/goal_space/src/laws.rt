//! What holds of all goals of a query.
#![tactic(auto)]

ghost use Rattle.query_core.specs.declared.query.Query.{Query};
ghost use Rattle.goal_space.specs.Laws.{RanksFall, ListedRanksFall, GoalsAreOfMembers, GoalsAreOfCandidates};
ghost use Rattle.goal_space.specs.Laws.{GoalRequestsFit, GoalsHaveWords, AskedAreMembers, MembersAreAsked};
ghost use Rattle.goal_space.specs.Laws.{AnswersAreLeast};

use best_answers::best_is_least;
use plan_space::{best_at_root_is_least, choices_serve, root_request_fits, what_is_asked_fits};
use query_core::{candidates_are_known, groups_are_known};
use xform_rules::{members_are_candidates, results_are_known};

/// Each child of a goal has a smaller rank, whatever the members are.
pub fn ranks_fall()
    ensures closure { (q : Query) → RanksFall q }
    ensures listed { (q : Query) → ListedRanksFall q }
{
    results_are_known();
    candidates_are_known();
}

/// The goals of a query are about its members, and their requests fit.
pub fn goals_are_known()
    ensures members { (q : Query) → GoalsAreOfMembers q }
    ensures candidates { (q : Query) → GoalsAreOfCandidates q }
    ensures requests { (q : Query) → GoalRequestsFit q }
    ensures words { (q : Query) → GoalsHaveWords q }
{
    members_are_candidates();
    candidates_are_known();
    groups_are_known();
    root_request_fits();
    what_is_asked_fits();
}

/// The goals of a query ask for its members and for nothing else.
pub fn goals_ask_for_members()
    ensures only { (q : Query) → AskedAreMembers q }
    ensures all { (q : Query) → MembersAreAsked q }
{
    results_are_known();
}

/// What is told of each goal of a query: the cost and the root of the least plan among which it chooses, all plans of its
/// group for its request or those with its expression at the root, and none exactly where there is no such plan.
pub fn answers_are_least()
    ensures { (q : Query) → AnswersAreLeast q }
{
    // For the proof: goals are about members and their requests fit, and what beats all is least.
    goals_are_known();
    best_is_least();
    choices_serve();
    best_at_root_is_least();
}
