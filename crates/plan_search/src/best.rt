//! The least plan for one request of a group, from those of the requests that it stands on.
#![tactic(auto)]

ghost use Rattle.std.specs.Prelude.{◌+◌, OnOk};
ghost use Rattle.query_core.specs.Keys.{IsGroup};
ghost use Rattle.request_props.specs.Numbered.{IsProps};
ghost use Rattle.request_props.specs.Fitting.{Fits};
ghost use Rattle.plan_search.specs.Places.{place_of};
ghost use Rattle.plan_search.specs.KeptPlans.{AreAnswered};
ghost use Rattle.plan_search.specs.Natives.{AreListedFor};
ghost use Rattle.plan_search.specs.BestSoFar.{HasRows, IsBestChoice};

use crate::choice::Choice;
use crate::enforcers::try_enforcers;
use crate::kept_plans::KeptPlans;
use crate::native::NativeNode;
use crate::natives::{Search, try_all};
use crate::places::place_at;
use plan_space::best_of_all_is_least;
use query_core::{Key, KeyParts, Query, expressions_are_one, groups_are_known};
use request_props::{Props, Request};
use std::alloc::AllocError;

/// Answers the request for the group: keeps its least plan, or that there is none.
pub fn answer(
    query: &Query,
    props: &Props,
    list: &[NativeNode],
    group: KeyParts,
    rows: u64,
    wanted: Request,
    answers: &mut KeptPlans,
) -> Result<(), AllocError>
    requires props { IsProps query.now props.now }
    requires known { IsGroup query.now group }
    requires rows { HasRows query.now group rows }
    requires fits { Fits query.now group wanted }
    requires listed { AreListedFor query.now group wanted.dist list.now }
    requires answered { AreAnswered query.now answers.now (place_of group wanted) }
    ensures { OnOk result (AreAnswered query.now answers.new (place_of group wanted + 1)) }
{
    // For the proof: each request of a group has a place of its own.
    groups_are_known();
    expressions_are_one();
    let best = find(query, props, list, group, rows, wanted, answers);
    answers.put(place_at(Key::make(group), wanted), best)
}

/// The best choice for the request, if there is one.
fn find(
    query: &Query,
    props: &Props,
    list: &[NativeNode],
    group: KeyParts,
    rows: u64,
    wanted: Request,
    answers: &KeptPlans,
) -> Option<Choice>
    requires props { IsProps query.now props.now }
    requires known { IsGroup query.now group }
    requires rows { HasRows query.now group rows }
    requires fits { Fits query.now group wanted }
    requires listed { AreListedFor query.now group wanted.dist list.now }
    requires answered { AreAnswered query.now answers.now (place_of group wanted) }
    ensures { IsBestChoice query.now answers.now group wanted result }
{
    // For the proof: what beats all is least.
    best_of_all_is_least();
    let search = Search {
        query,
        props,
        answers,
        rows,
    };
    let mut best = None;
    try_enforcers(search, group, wanted, &mut best);
    try_all(search, group, wanted, list, &mut best);
    best
}
