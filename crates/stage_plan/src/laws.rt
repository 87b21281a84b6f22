//! What all stages of a query share, and that they have one answer.
ghost use Rattle.query_core.specs.declared.query.Query.{Query};
ghost use Rattle.stage_plan.specs.Laws.{HasOneStaging, PlansAreOfStages, SharesCosts, SharesProps};

use plan_space::least_is_one;

/// What was collected of a query holds of it in each stage.
pub fn stages_share_props()
    ensures { (q : Query) → SharesProps q }
{}

/// A plan costs the same in each stage of a query.
pub fn stages_share_costs()
    ensures { (q : Query) → SharesCosts q }
{}

/// A plan that is the answer of stages is the least one of the stage whose number is told with it.
pub fn staged_plans_are_least()
    ensures { (q : Query) → PlansAreOfStages q }
{}

/// The same stages have one answer and one list of costs, where the query has at most 60 hashed lists and orders.
pub fn stages_have_one_answer()
    ensures { (q : Query) → HasOneStaging q }
{
    least_is_one();
}
