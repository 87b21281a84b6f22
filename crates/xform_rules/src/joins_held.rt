//! Which groups of several tables the closure has, and which joins they hold, for every choice of
//! the rules that turn joins into joins. No call here takes memory.
#![tactic(auto)]

ghost use Rattle.std.specs.Prelude.{◌≡◌, ◌⊎◌, IsTrue, ◌↔◌};
ghost use Rattle.query_core.specs.declared.words.KeyParts.{KeyParts};
ghost use Rattle.query_core.specs.Keys.{IsGroup};
ghost use Rattle.query_core.specs.Expressions.{FallsInto};
ghost use Rattle.xform_rules.specs.declared.rules.Rule.{Rule};
ghost use Rattle.xform_rules.specs.Rules.{IsOn};
ghost use Rattle.xform_rules.specs.Held.{all_of};
ghost use Rattle.xform_rules.specs.OneOrder.{IsCutTo};
ghost use Rattle.xform_rules.specs.Splits.{HasJoinGroup, HasJoin};

use crate::laws::members_are_candidates;
use crate::one_order::{begins_with, cut_to, leads_to, splits_after};
use crate::rules::{Rule, is_on};
use crate::splits::splits_are_complete;
use query_core::{KeyParts, Query, sets};

/// Whether the group of these tables is one of the closure's.
pub fn has_join_group(query: &Query, set: u32) -> bool
    requires { IsGroup query.now (KeyParts.Join set) }
    ensures { IsTrue result ↔ HasJoinGroup query.now set }
{
    members_are_candidates();
    splits_are_complete();
    if !is_on(query, Rule::JoinAssociate) {
        return begins_with(query, all(query), set);
    }
    if !is_on(query, Rule::JoinCommute) {
        return leads_to(query, all(query), set);
    }
    true
}

/// Whether the closure has the join of these two sets that the set falls into.
pub fn has_join(query: &Query, set: u32, a: u32, b: u32) -> bool
    requires known { IsGroup query.now (KeyParts.Join set) }
    requires falls { FallsInto query.now set a b }
    ensures { IsTrue result ↔ HasJoin query.now set a b }
{
    members_are_candidates();
    splits_are_complete();
    if !has_join_group(query, set) {
        return false;
    }
    if !is_on(query, Rule::JoinAssociate) {
        return is_cut_join(query, set, a, b);
    }
    if !is_on(query, Rule::JoinCommute) {
        return splits_after(query, set, a);
    }
    // With both rules on each way in which the set falls into two is a join.
    true
}

/// Whether the last cut makes the join, or JoinCommute of what the last cut makes.
fn is_cut_join(query: &Query, set: u32, a: u32, b: u32) -> bool
    ensures { IsTrue result ↔
        (IsCutTo query.now set a ⊎ (IsOn query.now Rule.JoinCommute × IsCutTo query.now set b)) }
{
    match cut_to(query, set) {
        Some(left) => left == a || (is_on(query, Rule::JoinCommute) && left == b),
        None => false,
    }
}

fn all(query: &Query) -> u32
    ensures { result ≡ all_of query.now }
{
    sets::first(query.tables.len() as u32)
}
