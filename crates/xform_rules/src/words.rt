//! The rules by their numbers, at expressions by their words. No call here takes memory.
#![tactic(auto)]

ghost use Rattle.std.specs.Prelude.{ℕ, ◌≡◌, IsTrue, ◌↔◌, IfSome, Option};
ghost use Rattle.query_core.specs.declared.words.Expr.{Expr};
ghost use Rattle.query_core.specs.declared.expressions.ExprParts.{ExprParts};
ghost use Rattle.query_core.specs.Expressions.{IsPacked, IsCandidate, IsCandidateWord};
ghost use Rattle.xform_rules.specs.Forms.{Finds};
ghost use Rattle.xform_rules.specs.Results.{IsWordOf, IsBoundWord, AppliesToWord, HasResultWord};

use crate::laws::results_are_candidates;
use crate::results::{applies_at, result_at};
use crate::rules::rule_of;
use query_core::{Expr, ExprParts, Query, candidates_are_known};

/// Whether the rule of this number is on, and for this expression.
pub fn applies(query: &Query, expr: Expr, rule: u32) -> bool
    requires { IsCandidateWord query.now expr.0 }
    ensures value { IsTrue result ↔ AppliesToWord query.now rule expr }

    // The expression has results of the rule only then.
    ensures needed { (bound : Option Expr) (n : ℕ) (other : Expr) →
        HasResultWord query.now rule expr bound n other → IsTrue result }
{
    match rule_of(rule) {
        Some(rule) => applies_at(query, rule, candidate_of(query, expr)),
        None => false,
    }
}

/// The n-th result, from 0, of the rule of this number, where it has so many. JoinAssociate binds
/// a member of the left group, and the other rules bind none.
pub fn nth_result(query: &Query, expr: Expr, rule: u32, n: u32, bound: Option<Expr>) -> Option<Expr>
    requires expr { IsCandidateWord query.now expr.0 }
    requires bound { IfSome bound (λ member. IsCandidateWord query.now member.0) }
    ensures { Finds (HasResultWord query.now rule expr bound n) result }
{
    let rule = rule_of(rule)?;
    let e = candidate_of(query, expr);
    let member = member_of(query, bound);
    let other = result_at(query, rule, e, member, n)?;
    // For the proof: the result is a candidate.
    results_are_candidates();
    Some(word_of(query, other))
}

/// The expression whose word it is.
pub fn candidate_of(query: &Query, expr: Expr) -> ExprParts
    requires { IsCandidateWord query.now expr.0 }
    ensures value { IsWordOf query.now result expr }
    ensures packed { IsPacked result }
    ensures only { (e : ExprParts) → IsWordOf query.now e expr → e ≡ result }
{
    // For the proof: each candidate has a word.
    candidates_are_known();
    expr.known_parts()
}

/// The bound member whose word it is.
fn member_of(query: &Query, bound: Option<Expr>) -> Option<ExprParts>
    requires { IfSome bound (λ member. IsCandidateWord query.now member.0) }
    ensures value { IsBoundWord query.now result bound }
    ensures packed { IfSome result IsPacked }
    ensures candidate { IfSome result (IsCandidate query.now) }
    ensures only { (e : Option ExprParts) → IsBoundWord query.now e bound → e ≡ result }
{
    match bound {
        Some(member) => Some(candidate_of(query, member)),
        None => None,
    }
}

/// The word of a candidate.
fn word_of(query: &Query, e: ExprParts) -> Expr
    requires { IsCandidate query.now e }
    ensures { IsWordOf query.now e result }
{
    // For the proof: each candidate has a word.
    candidates_are_known();
    Expr::make(e)
}
