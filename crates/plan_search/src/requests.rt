//! The answers to all requests, each behind those that it stands on.
#![tactic(auto)]

ghost use Rattle.std.specs.Prelude.{ℕ, ◌≡◌, ◌<◌, ◌+◌, ◌*◌, IfOk, OnOk, MatchOption};
ghost use Rattle.query_core.specs.declared.words.KeyParts.{KeyParts as AnyKeyParts};
ghost use Rattle.query_core.specs.Keys.{IsGroup, key_number};
ghost use Rattle.request_props.specs.Numbered.{IsProps};
ghost use Rattle.xform_rules.specs.Closure.{IsClosureOf};
ghost use Rattle.plan_search.specs.Places.{dist_place as the_dist_place, first_place, place_of, request_place};
ghost use Rattle.plan_search.specs.KeptPlans.{AreAnswered};
ghost use Rattle.plan_search.specs.Natives.{AreListedFor};
ghost use Rattle.plan_search.specs.BestSoFar.{HasRows};

use crate::best::answer;
use crate::kept_plans::KeptPlans;
use crate::native::{NativeNode, natives_of, those_for};
use crate::places::{DISTS, ORDERS, dist_at};
use query_core::{KEYS, Key, KeyParts, Query, expressions_are_one, groups_are_known};
use request_props::{Dist, Props, Request};
use std::alloc::{AllocError, Global};
use xform_rules::members_of;

/// The answers to all requests that fit their groups. `words` are those of the query's members.
pub fn answer_all(
    alloc: Global,
    query: &Query,
    props: &Props,
    words: &[u64],
) -> Result<KeptPlans, AllocError>
    requires props { IsProps query.now props.now }
    requires closure { IsClosureOf query.now words.now }
    ensures { IfOk result (λ answers. AreAnswered query.now answers (first_place KEYS)) }
{
    let mut answers = KeptPlans::new(alloc);
    for key in 0..KEYS {
        answer_key(alloc, query, props, words, key, &mut answers)?;
    }
    Ok(answers)
}

/// Answers all requests that fit the group with this key, if there is one.
fn answer_key(
    alloc: Global,
    query: &Query,
    props: &Props,
    words: &[u64],
    key: u32,
    answers: &mut KeptPlans,
) -> Result<(), AllocError>
    requires props { IsProps query.now props.now }
    requires closure { IsClosureOf query.now words.now }
    requires answered { AreAnswered query.now answers.now (first_place key) }
    ensures { OnOk result (AreAnswered query.now answers.new (first_place (key + 1))) }
{
    match group_with(query, props, key) {
        Some(group) => answer_group(alloc, query, props, words, group, answers),
        None => Ok(()),
    }
}

/// The query's group with this key, if it has one.
fn group_with(query: &Query, props: &Props, key: u32) -> Option<KeyParts>
    requires { IsProps query.now props.now }
    ensures { MatchOption result ((g : AnyKeyParts) → IsGroup query.now g → key_number g ≡ key → ⊥)
        (λ g. IsGroup query.now g × (key_number g ≡ key)) }
{
    if props.is_key(query, Key(key)) {
        return Some(query.group(Key(key)));
    }
    None
}

/// Answers all requests that fit the group.
fn answer_group(
    alloc: Global,
    query: &Query,
    props: &Props,
    words: &[u64],
    group: KeyParts,
    answers: &mut KeptPlans,
) -> Result<(), AllocError>
    requires props { IsProps query.now props.now }
    requires closure { IsClosureOf query.now words.now }
    requires known { IsGroup query.now group }
    requires answered { AreAnswered query.now answers.now (first_place (key_number group)) }
    ensures { OnOk result (AreAnswered query.now answers.new (first_place (key_number group + 1))) }
{
    groups_are_known();
    let list = natives_of(alloc, query, props, group, members_of(query, words, group))?;
    let count = props.group_rows(query, group);
    for number in 0..DISTS {
        let dist = dist_at(number);
        let those = those_for(alloc, query, props, &list, dist)?;
        answer_dist(query, props, &those, group, count, dist, answers)?;
    }
    Ok(())
}

/// Answers all requests for the distribution that fit the group.
fn answer_dist(
    query: &Query,
    props: &Props,
    list: &[NativeNode],
    group: KeyParts,
    rows: u64,
    dist: Dist,
    answers: &mut KeptPlans,
) -> Result<(), AllocError>
    requires props { IsProps query.now props.now }
    requires known { IsGroup query.now group }
    requires rows { HasRows query.now group rows }
    requires listed { AreListedFor query.now group dist list.now }
    requires dist { the_dist_place dist < DISTS }
    requires answered { AreAnswered query.now answers.now
        (first_place (key_number group) + the_dist_place dist * ORDERS) }
    ensures { OnOk result (AreAnswered query.now answers.new
        (first_place (key_number group) + (the_dist_place dist + 1) * ORDERS)) }
{
    for order in 0..ORDERS {
        let wanted = Request { dist, order };
        answer_wanted(query, props, list, group, rows, wanted, answers)?;
    }
    Ok(())
}

/// Answers the request, if it fits the group.
fn answer_wanted(
    query: &Query,
    props: &Props,
    list: &[NativeNode],
    group: KeyParts,
    rows: u64,
    wanted: Request,
    answers: &mut KeptPlans,
) -> Result<(), AllocError>
    requires props { IsProps query.now props.now }
    requires known { IsGroup query.now group }
    requires rows { HasRows query.now group rows }
    requires listed { AreListedFor query.now group wanted.dist list.now }
    requires place { request_place wanted < DISTS * ORDERS }
    requires order { wanted.order < ORDERS }
    requires answered { AreAnswered query.now answers.now (place_of group wanted) }
    ensures { OnOk result (AreAnswered query.now answers.new (place_of group wanted + 1)) }
{
    // For the proof: each request of a group has a place of its own.
    groups_are_known();
    expressions_are_one();
    if props.fits(query, group, wanted) {
        answer(query, props, list, group, rows, wanted, answers)?;
    }
    Ok(())
}
