//! Joins that are members by the rules that are on and by the equalities between their sides.
#![tactic(auto)]

ghost use Rattle.std.specs.Prelude.{◌↔◌, IsSome, IsTrue, ℕ};
ghost use Rattle.query_core.specs.Expressions.{expr_of, IsCandidate};
ghost use Rattle.request_props.specs.Numbered.{IsProps};
ghost use Rattle.xform_rules.specs.Closure.{IsMember};
ghost use Rattle.xform_rules.specs.Rules.{IsOn};
ghost use Rattle.xform_rules.specs.Splits.{AreJoinRulesOn};
ghost use Rattle.plan_space.specs.Lines.{line_of};

use crate::equated_joins::are_equated;
use query_core::{Physical, PhysicalExpr, Query, sets};
use request_props::Props;
use xform_rules::{Rule, splits_are_complete};

/// Whether the rules make the expression, which has some mode, of any two sides that it can join: both rules that turn
/// joins are on, and so is the one that gives this join. A merge join has a mode only of sides that some predicate
/// equates, a hash join of others too, so for that its sides are looked at.
#[inline(always)]
pub(crate) fn is_made(query: &Query, props: &Props, e: PhysicalExpr) -> bool
    requires props { IsProps query.now props.now }
    requires candidate { IsCandidate query.now (expr_of e) }
    requires has_mode { (mode : ℕ) × IsSome (line_of query.now e mode) }
    ensures member { IsTrue result → IsMember query.now (expr_of e) }
{
    // For the proof: with these rules on each way in which a set of tables falls into two is a join.
    splits_are_complete();
    match e.operator {
        Physical::HashJoin(left, right) => {
            makes_all(query, Rule::JoinToHash) && are_equated(query, props, left, right)
        }
        Physical::MergeJoin(_, _) => makes_all(query, Rule::JoinToMerge),
        Physical::LoopJoin(_, _) => makes_all(query, Rule::JoinToLoop),
        _ => false,
    }
}

// Whether the rule and both rules that turn joins into joins are on.
#[inline(always)]
fn makes_all(query: &Query, rule: Rule) -> bool
    ensures { IsTrue result → AreJoinRulesOn query.now × IsOn query.now rule }
{
    turns_joins(query) && is_on(query, rule)
}

// Whether both rules that turn joins into joins are on.
#[inline(always)]
fn turns_joins(query: &Query) -> bool
    ensures { IsTrue result ↔ AreJoinRulesOn query.now }
{
    is_on(query, Rule::JoinCommute) && is_on(query, Rule::JoinAssociate)
}

/// Whether the query leaves the rule on.
#[inline(always)]
pub(crate) fn is_on(query: &Query, rule: Rule) -> bool
    ensures { IsTrue result ↔ IsOn query.now rule }
{
    !sets::has(query.options.off, rule.number())
}
