//! The rules that implement: which operator each makes of a logical one, and when. No call here takes memory.
#![tactic(auto)]

ghost use Rattle.std.specs.Prelude.{ℕ, ◌≡◌, ◌<◌, IsTrue, ◌↔◌, IfSome, Some, false, length};
ghost use Rattle.std.specs.List.{Contains};
ghost use Rattle.query_core.specs.declared.query.Query.{Query as AnyQuery};
ghost use Rattle.query_core.specs.declared.words.KeyParts.{KeyParts as AnyKeyParts};
ghost use Rattle.query_core.specs.declared.expressions.Physical.{Physical as AnyPhysical};
ghost use Rattle.query_core.specs.Expressions.{implements as the_implements};
ghost use Rattle.xform_rules.specs.declared.rules.Rule.{Rule as AnyRule};
ghost use Rattle.xform_rules.specs.Forms.{Finds};
ghost use Rattle.xform_rules.specs.Rules.{explores};
ghost use Rattle.xform_rules.specs.Results.{IsFor};
ghost use Rattle.xform_rules.specs.Implemented.{HasCrossing, HasOwnIndex, HasUsable, IsAllowed, IsEquated, IsFirst};
ghost use Rattle.xform_rules.specs.Implemented.{rule_of, index_of, IsMadeBy, Makes};

use crate::rules::{Condition, Rule};
use crate::usable_indexes::usable_of_table;
use query_core::{KeyParts, Logical, Physical, Query};

/// The rule that gives a physical operator.
pub fn giving_rule(to: Physical) -> Rule
    ensures { result ≡ rule_of to }
{
    match to {
        Physical::Scan => Rule::GetToScan,
        Physical::IndexScan(_) => Rule::GetToIndexScan,
        Physical::Filter(_) => Rule::SelectToFilter,
        Physical::IndexSeek(_) => Rule::SelectToIndexSeek,
        Physical::HashJoin(_, _) => Rule::JoinToHash,
        Physical::MergeJoin(_, _) => Rule::JoinToMerge,
        Physical::LoopJoin(_, _) => Rule::JoinToLoop,
        Physical::HashAgg(_) => Rule::AggToHash,
        Physical::StreamAgg(_) => Rule::AggToStream,
        Physical::PartialAgg(_) => Rule::PartialToHash,
    }
}

/// The rules that implement what is wanted, in the order of their numbers. No other rule that implements is for it.
pub fn implementing_rules(from: Logical) -> &'static [Rule]
    ensures every { (q : AnyQuery) (rule : AnyRule) (group : AnyKeyParts) →
        explores rule ≡ false → IsFor q rule group from → Contains result.now rule }
{
    makers_of(from)
}

/// The rules of the operators that implement it.
fn makers_of(from: Logical) -> &'static [Rule]
    ensures every { (group : AnyKeyParts) (to : AnyPhysical) → the_implements group to ≡ from →
        Contains result.now (rule_of to) }
{
    match from {
        Logical::Get => &[Rule::GetToScan, Rule::GetToIndexScan],
        Logical::Select(_) => &[Rule::SelectToFilter, Rule::SelectToIndexSeek],
        Logical::NJoin => &[],
        Logical::Join(_, _) => &[Rule::JoinToHash, Rule::JoinToMerge, Rule::JoinToLoop],
        Logical::Agg(_) => &[Rule::AggToHash, Rule::AggToStream],
        Logical::Partial(_) => &[Rule::PartialToHash],
    }
}

/// The n-th operator, from 0, that the rule makes of the logical one, where its condition allows so many.
#[inline(always)]
pub fn made(
    query: &Query,
    rule: Rule,
    condition: Condition,
    group: KeyParts,
    from: Logical,
    n: u32,
) -> Option<Physical>
    ensures { Finds (Makes query.now rule condition group from n) result }
{
    match allowed(query, condition, group, from, n) {
        Some(index) => made_by(rule, group, from, index),
        None => None,
    }
}

/// The operator that the rule makes of the logical one of the group, by the index of this number if it reads one.
#[inline(always)]
fn made_by(rule: Rule, group: KeyParts, from: Logical, index: u32) -> Option<Physical>
    ensures { Finds (IsMadeBy rule group from index) result }
{
    match operator_of(rule, from, index) {
        Some(to) => {
            if is_same(to.implements(group), from) {
                Some(to)
            } else {
                None
            }
        }
        None => None,
    }
}

/// The operator that the rule makes of a logical one, over its children or by the index of this number.
#[inline(always)]
fn operator_of(rule: Rule, from: Logical, index: u32) -> Option<Physical>
    ensures rule { IfSome result (λ to. rule_of to ≡ rule) }
    ensures index { IfSome result (λ to. index_of to ≡ index) }
    ensures only { (group : AnyKeyParts) (to : AnyPhysical) → rule_of to ≡ rule →
        the_implements group to ≡ from → index_of to ≡ index → result ≡ Some to }
{
    match (rule, from, index) {
        (Rule::GetToScan, Logical::Get, 0) => Some(Physical::Scan),
        (Rule::GetToIndexScan, Logical::Get, index) => Some(Physical::IndexScan(index)),
        (Rule::SelectToFilter, Logical::Select(child), 0) => Some(Physical::Filter(child)),
        (Rule::SelectToIndexSeek, Logical::Select(_), index) => Some(Physical::IndexSeek(index)),
        (Rule::JoinToHash, Logical::Join(left, right), 0) => Some(Physical::HashJoin(left, right)),
        (Rule::JoinToMerge, Logical::Join(left, right), 0) => Some(Physical::MergeJoin(
            left, right,
        )),
        (Rule::JoinToLoop, Logical::Join(left, right), 0) => Some(Physical::LoopJoin(left, right)),
        (Rule::AggToHash, Logical::Agg(child), 0) => Some(Physical::HashAgg(child)),
        (Rule::AggToStream, Logical::Agg(child), 0) => Some(Physical::StreamAgg(child)),
        (Rule::PartialToHash, Logical::Partial(child), 0) => Some(Physical::PartialAgg(child)),
        _ => None,
    }
}

#[inline(always)]
fn is_same(operator: Logical, other: Logical) -> bool
    ensures { IsTrue result ↔ (operator ≡ other) }
{
    operator == other
}

/// The index that the n-th operator reads, else 0, where the condition allows so many.
fn allowed(
    query: &Query,
    condition: Condition,
    group: KeyParts,
    from: Logical,
    n: u32,
) -> Option<u32>
    ensures { Finds (IsAllowed query.now group from condition n) result }
{
    match condition {
        Condition::Always => first_if(n, true),
        Condition::Equated => first_if(n, is_equated(query, from)),
        Condition::Grouping => first_if(n, is_grouping(query)),
        Condition::OwnIndex => own_index(query, group, n),
        Condition::UsableIndex => usable_index(query, group, n),
    }
}

/// No index, of the first operator alone, where this holds.
#[inline(always)]
fn first_if(n: u32, holds: bool) -> Option<u32>
    ensures { Finds (λ index. IsFirst n index × IsTrue holds) result }
{
    if n == 0 && holds { Some(0) } else { None }
}

/// Whether there is a column to group by.
fn is_grouping(query: &Query) -> bool
    ensures { IsTrue result ↔ (0 < length query.now.group_by) }
{
    !query.group_by.is_empty()
}

/// The index of this number, where the group has the rows of a table with such an index.
fn own_index(query: &Query, group: KeyParts, index: u32) -> Option<u32>
    ensures { Finds (λ i. (index ≡ i) × HasOwnIndex query.now group i) result }
{
    match group {
        KeyParts::Get(table) if query.has_index(table, index) => Some(index),
        _ => None,
    }
}

/// The n-th usable index, where the group has the rows that meet a table's own predicates.
fn usable_index(query: &Query, group: KeyParts, n: u32) -> Option<u32>
    ensures { Finds (HasUsable query.now group n) result }
{
    match group {
        KeyParts::Filter(table) => usable_of_table(query, table, n),
        _ => None,
    }
}

/// Whether it is the join of groups that some predicate equates.
fn is_equated(query: &Query, from: Logical) -> bool
    ensures { IsTrue result ↔ IsEquated query.now from }
{
    match from {
        Logical::Join(left, right) => has_crossing(query, left, right),
        _ => false,
    }
}

/// Whether some predicate equates a column of each group.
fn has_crossing(query: &Query, left: KeyParts, right: KeyParts) -> bool
    ensures { IsTrue result ↔ HasCrossing query.now left right }
{
    for pred in 0..query.preds.len() as u32 {
        if query.crossing_groups(left, right, pred).is_some() {
            return true;
        }
    }
    false
}
