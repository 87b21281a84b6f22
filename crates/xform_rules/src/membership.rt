//! Whether an expression is a member of the closure, decided without it. No call here takes memory.
#![tactic(auto)]

ghost use Rattle.std.specs.Prelude.{ℕ, ◌≡◌, IsTrue, ◌↔◌, None};
ghost use Rattle.query_core.specs.Expressions.{IsCandidate, IsCandidateWord, IsPacked, physical_fields};
ghost use Rattle.xform_rules.specs.Forms.{logical_in, physical_in};
ghost use Rattle.xform_rules.specs.Results.{HasResult};
ghost use Rattle.xform_rules.specs.Closure.{IsMember, IsMemberWord};
ghost use Rattle.xform_rules.specs.Implemented.{implemented_by};

use crate::implemented::giving_rule;
use crate::joins_held::{has_join, has_join_group};
use crate::laws::{members_are_candidates, results_are_candidates};
use crate::results::result_at;
use crate::rules::{Rule, is_on};
use crate::split_agg::groups_input;
use crate::words::candidate_of;
use query_core::{
    Expr, ExprParts, KeyParts, Logical, Operator, Physical, Query, candidates_are_known,
    expressions_are_one,
};

/// Whether the expression is a member of its group, under the rules that are on. Where both rules
/// that turn joins into joins are on, nothing is searched; else the last cuts of sets are.
pub fn in_closure(query: &Query, expr: Expr) -> bool
    requires { IsCandidateWord query.now expr.0 }
    ensures { IsTrue result ↔ IsMemberWord query.now expr.0 }
{
    members_are_candidates();
    in_closure_at(query, candidate_of(query, expr))
}

/// The same, of an expression by its parts.
pub fn in_closure_at(query: &Query, e: ExprParts) -> bool
    requires { IsCandidate query.now e }
    ensures { IsTrue result ↔ IsMember query.now e }
{
    match e.operator {
        Operator::Logical(from) => is_logical_member(query, e.group, from),
        Operator::Physical(to) => is_physical_member(query, e.group, to),
    }
}

fn is_logical_member(query: &Query, group: KeyParts, from: Logical) -> bool
    requires { IsCandidate query.now (logical_in group from) }
    ensures { IsTrue result ↔ IsMember query.now (logical_in group from) }
{
    members_are_candidates();
    candidates_are_known();
    match from {
        Logical::Get => true,
        Logical::Select(_) => true,
        Logical::NJoin => has_join_group(query, group.tables()),
        Logical::Join(left, right) => {
            has_join(query, group.tables(), left.tables(), right.tables())
        }
        Logical::Agg(_) => groups_input(query, from) || is_on(query, Rule::SplitAgg),
        Logical::Partial(_) => is_on(query, Rule::SplitAgg),
    }
}

/// Whether the logical expression is a member, and its rule gives the physical one.
fn is_physical_member(query: &Query, group: KeyParts, to: Physical) -> bool
    requires { IsCandidate query.now (physical_in group to) }
    ensures { IsTrue result ↔ IsMember query.now (physical_in group to) }
{
    members_are_candidates();
    let (rule, from) = implemented(group, to);
    is_logical_member(query, group, from) && gives(query, rule, group, from, to)
}

/// The rule that gives a physical operator, and the logical one of which it gives it.
fn implemented(group: KeyParts, to: Physical) -> (Rule, Logical)
    ensures { result ≡ implemented_by group to }
{
    (giving_rule(to), to.implements(group))
}

/// Whether the rule gives the physical operator of the logical one, as any of its results.
fn gives(query: &Query, rule: Rule, group: KeyParts, from: Logical, to: Physical) -> bool
    requires from { IsCandidate query.now (logical_in group from) }
    requires to { IsCandidate query.now (physical_in group to) }
    ensures { IsTrue result ↔
        ((n : ℕ) × HasResult query.now rule (logical_in group from) None n (physical_in group to)) }
{
    candidates_are_known();
    let last = index_of(to);
    for n in 0..last + 1 {
        if gives_at(query, rule, group, from, n, to) {
            return true;
        }
    }
    false
}

/// The number of the index that the operator reads, else 0.
fn index_of(to: Physical) -> u32
    ensures { result ≡ (physical_fields to).index }
{
    match to {
        Physical::IndexScan(index) => index,
        Physical::IndexSeek(index) => index,
        _ => 0,
    }
}

/// The same, as its n-th result.
fn gives_at(query: &Query, rule: Rule, group: KeyParts, from: Logical, n: u32, to: Physical) -> bool
    requires from { IsCandidate query.now (logical_in group from) }
    requires to { IsCandidate query.now (physical_in group to) }
    ensures { IsTrue result ↔
        HasResult query.now rule (logical_in group from) None n (physical_in group to) }
{
    results_are_candidates();
    candidates_are_known();
    match result_at(query, rule, ExprParts::logical(group, from), None, n) {
        Some(found) => are_same(found, ExprParts::physical(group, to)),
        None => false,
    }
}

/// Whether the two have the same word.
fn are_same(e: ExprParts, other: ExprParts) -> bool
    requires e { IsPacked e }
    requires other { IsPacked other }
    ensures { IsTrue result ↔ (e ≡ other) }
{
    expressions_are_one();
    Expr::make(e).0 == Expr::make(other).0
}
