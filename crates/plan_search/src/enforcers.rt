//! The choices that enforcers make for a request.
#![tactic(auto)]

ghost use Rattle.query_core.specs.Keys.{IsGroup};
ghost use Rattle.request_props.specs.Numbered.{IsProps};
ghost use Rattle.request_props.specs.Fitting.{Fits};
ghost use Rattle.plan_search.specs.Places.{place_of};
ghost use Rattle.plan_search.specs.KeptPlans.{AreAnswered};
ghost use Rattle.plan_search.specs.BestSoFar.{GoesOverEnforcers, GoesOverPlace, HasRows};

use crate::below::one_plan;
use crate::choice::{Choice, offer};
use crate::natives::Search;
use plan_space::{choices_serve, costs_fit, plans_are_ordered, what_is_asked_fits};
use plan_tree::{enforcer, enforcer_cost_by};
use query_core::{Key, KeyParts, groups_are_known};
use request_props::Request;

/// Offers the enforcers that may meet the request.
pub fn try_enforcers(
    search: Search<'_>,
    group: KeyParts,
    wanted: Request,
    best: &mut Option<Choice>,
)
    requires props { IsProps search.query.now search.props.now }
    requires known { IsGroup search.query.now group }
    requires rows { HasRows search.query.now group search.rows }
    requires fits { Fits search.query.now group wanted }
    requires answered { AreAnswered search.query.now search.answers.now (place_of group wanted) }
    ensures { GoesOverEnforcers search.entry.query.now search.entry.answers.now group wanted best.old
        best.new }
{
    try_enforcer_at(search, group, wanted, 0, best);
    try_enforcer_at(search, group, wanted, 1, best);
}

/// Offers the n-th enforcer, if there are so many.
fn try_enforcer_at(
    search: Search<'_>,
    group: KeyParts,
    wanted: Request,
    n: u32,
    best: &mut Option<Choice>,
)
    requires props { IsProps search.query.now search.props.now }
    requires known { IsGroup search.query.now group }
    requires rows { HasRows search.query.now group search.rows }
    requires fits { Fits search.query.now group wanted }
    requires answered { AreAnswered search.query.now search.answers.now (place_of group wanted) }
    ensures { GoesOverPlace search.entry.query.now search.entry.answers.now group wanted n best.old
        best.new }
{
    // For the proof: what an enforcer asks fits, what it makes of a plan serves, and plans are in
    // order.
    groups_are_known();
    what_is_asked_fits();
    choices_serve();
    plans_are_ordered();
    costs_fit();
    let key = Key::make(group);
    if let Some(found) = enforcer(search.query, search.props, key, wanted, n) {
        if let Some(below) = one_plan(search.answers, (key, found.below)) {
            let local = enforcer_cost_by(search.query, search.rows, wanted, found.node);
            offer(best, below.under(found.node, local));
        }
    }
}
