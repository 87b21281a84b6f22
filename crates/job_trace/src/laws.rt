//! What all traces have in common.
ghost use Rattle.std.specs.Prelude.{◌≡◌, ℕ, List};
ghost use Rattle.query_core.specs.declared.query.Query.{Query};
ghost use Rattle.job_trace.specs.Laws.{TracesAreOne, TracesBegin};
ghost use Rattle.job_trace.specs.Trace.{IsTraceLine};

use goal_children::{children_are_one, children_are_over_the_query};
use goal_space::goal_kinds_are_one;

/// Words of members and of goals have one trace, and words of goals one first line of it.
pub fn traces_are_known()
    ensures text { (q : Query) → TracesAreOne q }
    ensures line { (goals line other : List ℕ) →
        IsTraceLine goals line → IsTraceLine goals other → line ≡ other }
    ensures begins { (q : Query) → TracesBegin q }
{
    children_are_one();
    children_are_over_the_query();
    goal_kinds_are_one();
}
