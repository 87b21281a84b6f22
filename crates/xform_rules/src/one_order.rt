//! What is reached of joins where a rule that turns joins is off: the tables of a set go one after
//! the other, the last cut first. No call here takes memory.
#![tactic(auto)]

ghost use Rattle.std.specs.Prelude.{ℕ, ◌≡◌, ◌≢◌, ◌-◌, IsTrue, ◌↔◌};
ghost use Rattle.query_core.specs.Sets.{Has};
ghost use Rattle.query_core.specs.Connected.{AreLinked};
ghost use Rattle.xform_rules.specs.Forms.{Finds};
ghost use Rattle.xform_rules.specs.OneOrder.{IsCutTo, CutsDownTo, SplitsAfter, LeadsTo, LeadsBeside, IsFarthest};

use crate::expand_n_ary::{last_cut, without};
use query_core::{Query, sets};

/// What is left of several tables without the last cut.
pub fn cut_to(query: &Query, set: u32) -> Option<u32>
    ensures { Finds (IsCutTo query.now set) result }
{
    if !sets::several(set) {
        return None;
    }
    let table = last_cut(query, set)?;
    Some(without(set, table))
}

/// Whether the part is left of the set where some last cuts are taken away, one after the other.
pub fn begins_with(query: &Query, set: u32, part: u32) -> bool
    ensures { IsTrue result ↔ CutsDownTo query.now set part }
{
    let mut left = set;
    while left != part {
        match cut_to(query, left) {
            Some(next) => left = next,
            None => return false,
        }
    }
    true
}

/// Whether JoinAssociate alone leads to the join of the part with the others of the set.
pub fn splits_after(query: &Query, set: u32, part: u32) -> bool
    ensures { IsTrue result ↔ SplitsAfter query.now set part }
{
    if part == set || !begins_with(query, set, part) {
        return false;
    }
    farthest(query, set, part) == set
}

/// The most of what the set begins with that is joined of the part and others.
fn farthest(query: &Query, set: u32, part: u32) -> u32
    requires begins { CutsDownTo query.now set part }
    requires more { part ≢ set }
    ensures { IsFarthest query.now set part result }
{
    let next = match cut_to(query, set) {
        Some(next) => next,
        None => return set,
    };
    if part == next {
        return set;
    }
    let far = farthest(query, next, part);
    if farthest(query, set, far) == set && are_linked(query, set, far, part) {
        return set;
    }
    far
}

/// Whether a link joins what the set has besides its part with what that has besides its own part.
fn are_linked(query: &Query, set: u32, inner: u32, part: u32) -> bool
    requires outer { (t : ℕ) → Has inner t → Has set t }
    requires within { (t : ℕ) → Has part t → Has inner t }
    ensures { IsTrue result ↔ AreLinked query.now.links (inner - part) (set - inner) }
{
    query.linked(others(inner, part), others(set, inner))
}

/// The tables of the set that its part doesn't have.
fn others(set: u32, part: u32) -> u32
    requires { (t : ℕ) → Has part t → Has set t }
    ensures { result ≡ set - part }
{
    sets::difference(set, part)
}

/// Whether the group of the set leads to that of the part, by joins that JoinAssociate alone gives.
#[cycle(leading)]
pub fn leads_to(query: &Query, set: u32, part: u32) -> bool
    ensures { IsTrue result ↔ LeadsTo query.now set part }
{
    if set == part {
        return true;
    }
    if sets::difference(part, set) != 0 {
        return false;
    }
    match cut_to(query, set) {
        Some(next) => leads_to(query, next, part) || leads_beside(query, set, next, part),
        None => false,
    }
}

/// The same by the right side of a join whose left side the start begins with.
#[cycle(leading)]
fn leads_beside(query: &Query, set: u32, start: u32, part: u32) -> bool
    requires begins { CutsDownTo query.now set start }
    requires more { start ≢ set }
    ensures { IsTrue result ↔ LeadsBeside query.now set start part }
{
    if splits_after(query, set, start) && leads_to(query, others(set, start), part) {
        return true;
    }
    match cut_to(query, start) {
        Some(next) => leads_beside(query, set, next, part),
        None => false,
    }
}
