//! What holds of best answers.
#![tactic(auto)]

ghost use Rattle.query_core.specs.declared.query.Query.{Query};
ghost use Rattle.best_answers.specs.Laws.{BestIsLeast, BestIsOne, BestsFit, CoveredIsBest};
ghost use Rattle.best_answers.specs.Laws.{EnforcerIsBest, LesserIsBest, ModeIsBest, NoneIsBest};
ghost use Rattle.best_answers.specs.Laws.{RootsHaveNumbers};

use plan_space::{
    best_of_all_is_least, choices_serve, costs_fit, least_is_one, modes_are_few, plans_are_ordered,
    what_is_asked_fits,
};
use plan_tree::nodes_are_one;
use query_core::candidates_are_known;
use xform_rules::members_are_candidates;

/// The best answer of a set of nodes is one, found in whatever order the nodes are tried: from that
/// of no nodes, those of one node, the lesser of the answers of two sets, and at the end the answer
/// of a set that leaves out nodes which can't serve.
pub fn answers_are_best()
    ensures one { (q : Query) → BestIsOne q }
    ensures none { (q : Query) → NoneIsBest q }
    ensures enforcer { (q : Query) → EnforcerIsBest q }
    ensures mode { (q : Query) → ModeIsBest q }
    ensures lesser { (q : Query) → LesserIsBest q }
    ensures covered { (q : Query) → CoveredIsBest q }
    ensures fits { (q : Query) → BestsFit q }
    ensures roots { (q : Query) → RootsHaveNumbers q }
{
    best_is_least();
    plans_are_ordered();
    least_is_one();
    nodes_are_one();
    modes_are_few();
    members_are_candidates();
    candidates_are_known();
    what_is_asked_fits();
    costs_fit();
}

/// The best answer of all nodes is that of the least plan, and none stands exactly where there is no
/// plan.
pub fn best_is_least()
    ensures { (q : Query) → BestIsLeast q }
{
    choices_serve();
    best_of_all_is_least();
}
