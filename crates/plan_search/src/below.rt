//! The plans that a node asks for, and what they cost together.
#![tactic(auto)]

ghost use Rattle.std.specs.Prelude.{◌≡◌, ◌≤◌, ◌+◌, None, IfSome, MatchOption};
ghost use Rattle.plan_space.specs.Cost.{most_of_all};
ghost use Rattle.plan_search.specs.Places.{place_asked};
ghost use Rattle.plan_search.specs.KeptPlans.{kept_at, cost_at, asked_cost, AreFound, ArePlansAt, IsMissing};
ghost use Rattle.plan_search.specs.KeptPlans.{IsOneMissing};
ghost use Rattle.plan_search.specs.KeptPlans.{IsPlanAt};

use crate::choice::{KidPlaces, KidPlans};
use crate::kept_plans::KeptPlans;
use crate::places::place_at;
use query_core::Key;
use request_props::Request;

/// The plans that stand at the requests that are asked for, if they are there.
pub fn plans_below(
    answers: &KeptPlans,
    left: Option<(Key, Request)>,
    right: Option<(Key, Request)>,
) -> Option<KidPlans>
    requires small { asked_cost answers.now left right ≤ most_of_all }
    ensures found { MatchOption result (IsMissing answers.now left right)
        (AreFound answers.now left right) }
    ensures small { IfSome result (λ below. below.cost ≤ most_of_all) }
{
    match (left, right) {
        (Some(left), Some(right)) => two_plans(answers, left, right),
        (Some(left), None) => one_plan(answers, left),
        (None, _) => Some(KidPlans {
            kids: KidPlaces::Zero,
            cost: 0,
        }),
    }
}

/// The plan that stands at the request, if there is one.
pub fn one_plan(answers: &KeptPlans, asked: (Key, Request)) -> Option<KidPlans>
    requires small { cost_at answers.now (place_asked asked) ≤ most_of_all }
    ensures found { MatchOption result (kept_at answers.now (place_asked asked) ≡ None)
        (IsPlanAt answers.now (place_asked asked)) }
    ensures small { IfSome result (λ below. below.cost ≤ most_of_all) }
{
    let place = place_at(asked.0, asked.1);
    let kept = answers.kept(place)?;
    Some(KidPlans {
        kids: KidPlaces::One(place),
        cost: kept.cost,
    })
}

/// The two plans that stand at the requests, if both are there.
fn two_plans(answers: &KeptPlans, left: (Key, Request), right: (Key, Request)) -> Option<KidPlans>
    requires small { cost_at answers.now (place_asked left) +
        cost_at answers.now (place_asked right) ≤ most_of_all }
    ensures found { MatchOption result
        (IsOneMissing answers.now (place_asked left) (place_asked right))
        (ArePlansAt answers.now (place_asked left) (place_asked right)) }
    ensures small { IfSome result (λ below. below.cost ≤ most_of_all) }
{
    let (first, second) = (place_at(left.0, left.1), place_at(right.0, right.1));
    let a = answers.kept(first)?;
    let b = answers.kept(second)?;
    Some(KidPlans {
        kids: KidPlaces::Two(first, second),
        cost: a.cost + b.cost,
    })
}
