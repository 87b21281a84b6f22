//! The choices that members make for a request.
#![tactic(auto)]

ghost use Rattle.std.specs.Prelude.{◌^◌, Some, MatchOption};
ghost use Rattle.request_props.specs.Numbered.{IsProps};
ghost use Rattle.request_props.specs.Fitting.{Fits};
ghost use Rattle.plan_tree.specs.Alternatives.{IsAltIn};
ghost use Rattle.plan_search.specs.Places.{place_of};
ghost use Rattle.plan_search.specs.KeptPlans.{AreAnswered};
ghost use Rattle.plan_search.specs.BestSoFar.{GoesOver, GoesOverAll, IsLacking, IsMade};
ghost use Rattle.plan_search.specs.Natives.{AreNative, IsNative, RisesFrom};

use crate::below::plans_below;
use crate::choice::{Choice, offer};
use crate::kept_plans::KeptPlans;
use crate::native::NativeNode;
use plan_space::{choices_serve, costs_fit, keys_fall, plans_are_ordered, what_is_asked_fits};
use plan_tree::{Alt, alternative_by, native_cost_by};
use query_core::{KeyParts, Query};
use request_props::{Props, Request};
use xform_rules::members_are_candidates;

/// What a search stands on.
#[derive(Clone, Copy)]
pub struct Search<'a> {
    pub query: &'a Query,
    pub props: &'a Props,
    pub answers: &'a KeptPlans,
    /// How many rows the group has.
    pub rows: u64,
}

/// Offers each of the members in their modes.
pub fn try_all(
    search: Search<'_>,
    group: KeyParts,
    wanted: Request,
    list: &[NativeNode],
    best: &mut Option<Choice>,
)
    requires props { IsProps search.query.now search.props.now }
    requires fits { Fits search.query.now group wanted }
    requires answered { AreAnswered search.query.now search.answers.now (place_of group wanted) }
    requires are { AreNative search.query.now group list.now }
    requires rises { RisesFrom (2 ^ 56) list.now }
    ensures { GoesOverAll search.entry.query.now search.entry.answers.now group wanted list.now
        best.old best.new }
{
    for p in list {
        try_mode(search, p, wanted, best);
    }
}

/// Offers the member in the mode, where it can meet the request.
pub fn try_mode(search: Search<'_>, p: &NativeNode, wanted: Request, best: &mut Option<Choice>)
    requires props { IsProps search.query.now search.props.now }
    requires is { IsNative search.query.now p.now.expr.group p.now }
    requires fits { Fits search.query.now p.now.expr.group wanted }
    requires answered { AreAnswered search.query.now search.answers.now
        (place_of p.now.expr.group wanted) }
    ensures { GoesOver search.entry.query.now search.entry.answers.now p.now wanted best.old best.new }
{
    // For the proof: plans are in order.
    plans_are_ordered();
    members_are_candidates();
    let (e, mode) = (p.expr, p.mode);
    if let Some(alt) = alternative_by(search.query, search.props, e, wanted, mode, p.line) {
        if let Some(choice) = choice_of(search, p, wanted, alt) {
            offer(best, choice);
        }
    }
}

/// The member in the mode over the least plans of what it asks for, where these are there.
fn choice_of(search: Search<'_>, p: &NativeNode, wanted: Request, alt: Alt) -> Option<Choice>
    requires props { IsProps search.query.now search.props.now }
    requires is { IsNative search.query.now p.now.expr.group p.now }
    requires fits { Fits search.query.now p.now.expr.group wanted }
    requires answered { AreAnswered search.query.now search.answers.now
        (place_of p.now.expr.group wanted) }
    requires alt { IsAltIn search.query.now p.now.expr wanted p.now.mode (Some alt) }
    ensures { MatchOption result (IsLacking search.entry.query.now wanted p.now.expr p.now.mode)
        (IsMade search.entry.query.now search.entry.answers.now wanted p.now.expr p.now.mode) }
{
    // For the proof: what is asked fits and stands at lesser places, and what is made of it serves
    // and costs little.
    members_are_candidates();
    what_is_asked_fits();
    choices_serve();
    keys_fall();
    costs_fit();
    match plans_below(search.answers, alt.left, alt.right) {
        Some(below) => {
            let local = native_cost_by(search.query, p.expr, &p.line, p.rows, wanted);
            Some(below.under(alt.node, local))
        }
        None => None,
    }
}
