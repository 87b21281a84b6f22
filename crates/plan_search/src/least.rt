//! The least plan of a query, and of a group for a request.
#![tactic(auto)]

ghost use Rattle.std.specs.Prelude.{IfOk};
ghost use Rattle.query_core.specs.Keys.{IsGroup};
ghost use Rattle.request_props.specs.Fitting.{Fits};
ghost use Rattle.request_props.specs.Numbered.{IsProps};
ghost use Rattle.plan_tree.specs.Found.{IsFound};
ghost use Rattle.plan_search.specs.Outcome.{IsFoundFor};

use crate::closure::plain_closure;
use crate::places::place_at;
use crate::plans::plan_at;
use crate::requests::answer_all;
use plan_space::{root_request_fits, root_request_is_collected};
use plan_tree::Found;
use query_core::{Key, KeyParts, Query, groups_are_known};
use request_props::{Props, Request};
use std::alloc::{AllocError, Global};

/// The least plan of the query, or that there is none: of all plans over the members of its groups
/// that give what is asked of the whole plan, redundant sorts and motions included.
pub fn plain_least(alloc: Global, query: &Query, props: &Props) -> Result<Found, AllocError>
    requires { IsProps query.now props.now }
    ensures { IfOk result (IsFound query.now) }
{
    // For the proof: what is asked of the whole plan is among the requests.
    groups_are_known();
    root_request_fits();
    root_request_is_collected();
    plain_least_of(alloc, query, props, query.group(query.root()), props.root)
}

/// The same of a group for a request.
pub fn plain_least_of(
    alloc: Global,
    query: &Query,
    props: &Props,
    group: KeyParts,
    wanted: Request,
) -> Result<Found, AllocError>
    requires props { IsProps query.now props.now }
    requires known { IsGroup query.now group }
    requires fits { Fits query.now group wanted }
    ensures { IfOk result (IsFoundFor query.now group wanted) }
{
    // For the proof: the group has a key.
    groups_are_known();
    let words = plain_closure(alloc, query)?;
    let answers = answer_all(alloc, query, props, words.as_slice())?;
    let place = place_at(Key::make(group), wanted);
    match answers.kept(place) {
        Some(kept) => Ok(Found::Least {
            plan: plan_at(alloc, &answers, place)?,
            cost: kept.cost,
        }),
        None => Ok(Found::NoPlan),
    }
}
