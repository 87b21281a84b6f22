//! What holds of all texts.
#![tactic(auto)]

ghost use Rattle.query_core.specs.declared.query.Query.{Query};
ghost use Rattle.text_check.specs.Laws.{OutcomesAreOne};

use plan_reading::{outlines_are_one, plans_are_one, plans_are_read, readings_are_one};
use xform_rules::members_are_candidates;

/// A text has one outcome.
pub fn outcomes_are_one()
    ensures { (q : Query) → OutcomesAreOne q }
{
    readings_are_one();
    plans_are_read();
    plans_are_one();
    outlines_are_one();
    members_are_candidates();
}
