//! The words of all members, by passes that add the steps from what is new.
#![tactic(auto)]

ghost use Rattle.std.specs.Prelude.{◌≡◌, IfOk, OnOk, MatchOption};
ghost use Rattle.std.specs.List.{All};
ghost use Rattle.std.specs.List.Sorted.{IsStrictlyIncreasing};
ghost use Rattle.query_core.specs.declared.expressions.ExprParts.{ExprParts};
ghost use Rattle.query_core.specs.Keys.{root_of};
ghost use Rattle.query_core.specs.Expressions.{word_of, children_of, IsChild};
ghost use Rattle.query_core.specs.declared.words.KeyParts.{KeyParts};
ghost use Rattle.xform_rules.specs.Forms.{IsLeftSide};
ghost use Rattle.xform_rules.specs.Closure.{IsMember, IsMemberWord, IsClosureOf};
ghost use Rattle.plan_search.specs.Steps.{AreMemberWords, AreMembers, GrowsTo, ContainsWordOf, HasOrigin};
ghost use Rattle.plan_search.specs.Steps.{HasOrigins, HasResultAt, HasResultsOf, HasResults};
ghost use Rattle.plan_search.specs.Steps.{HasBoundResults, HasResultsWith, HasSteps, AreSteps, AreBoundSteps};
ghost use Rattle.plan_search.specs.Steps.{AreOthers};

use crate::word_set::WordSet;
use orca_base::List;
use query_core::{Children, Expr, ExprParts, KeyParts, Logical, Operator, Query};
use std::alloc::{AllocError, Global};
use xform_rules::{
    Rule, members_are_known, result_at, results_are_candidates, results_are_known, words_of,
};

/// The words of all members of the query's groups, ascending.
pub fn plain_closure(alloc: Global, query: &Query) -> Result<List<u64>, AllocError>
    ensures { IfOk result (IsClosureOf query.now) }
{
    // For the proof: there are no more words than numbers of 48 bits.
    members_are_known();
    let mut found = WordSet::new(alloc);
    let mut done = Vec::new(alloc);
    add_root(query, &mut found)?;
    loop {
        let words = found.words(alloc)?;
        add_new_steps(alloc, query, &words, &done, &mut found)?;
        if found.len() == words.len() {
            return Ok(List::of(words));
        }
        done = words;
    }
}

/// Adds what is left to add of the steps from the words, where those from some, among these, are
/// found.
fn add_new_steps(
    alloc: Global,
    query: &Query,
    words: &[u64],
    done: &[u64],
    found: &mut WordSet,
) -> Result<(), AllocError>
    requires words { AreMemberWords query.now words.now }
    requires done { AreSteps query.now done.now done.now found.now }
    ensures { OnOk result (GrowsTo query.now (AreSteps query.now words.now words.now) found.old found.new) }
{
    let new = others(alloc, words, done)?;
    add_all_steps(query, words, &new, found)?;
    add_all_bound_results(query, words, &new, found)
}

/// Those of the words that aren't among some.
fn others(alloc: Global, words: &[u64], some: &[u64]) -> Result<Vec<u64>, AllocError>
    requires { IsStrictlyIncreasing words.now }
    ensures { IfOk result (λ new. AreOthers words.now some.now new.items) }
{
    let mut new = Vec::new(alloc);
    for word in words {
        if some.binary_search(word).is_err() {
            new.push(*word)?;
        }
    }
    Ok(new)
}

/// Adds the expression with which the root begins.
fn add_root(query: &Query, found: &mut WordSet) -> Result<(), AllocError>
    ensures { OnOk result (GrowsTo query.now (HasOrigin query.now (root_of query.now)) found.old found.new) }
{
    let root = query.group(query.root());
    add(query, query.origin_of_group(root), found)
}

/// Adds each step from the new words, where members among the words are bound.
fn add_all_steps(
    query: &Query,
    words: &[u64],
    new: &[u64],
    found: &mut WordSet,
) -> Result<(), AllocError>
    requires words { AreMemberWords query.now words.now }
    requires new { All (IsMemberWord query.now) new.now }
    ensures { OnOk result (GrowsTo query.now (AreSteps query.now words.now new.now) found.old found.new) }
{
    for word in new {
        let e = member_of(query, Expr(*word));
        add_steps(query, words, e, found)?;
    }
    Ok(())
}

/// Adds each result at the words with a bound member among the new ones.
fn add_all_bound_results(
    query: &Query,
    words: &[u64],
    new: &[u64],
    found: &mut WordSet,
) -> Result<(), AllocError>
    requires words { All (IsMemberWord query.now) words.now }
    requires new { AreMemberWords query.now new.now }
    ensures { OnOk result
        (GrowsTo query.now (AreBoundSteps query.now new.now words.now) found.old found.new) }
{
    for word in words {
        let e = member_of(query, Expr(*word));
        add_bound_results(query, new, e, found)?;
    }
    Ok(())
}

/// Adds each step from a member, where members among the words are bound.
fn add_steps(
    query: &Query,
    words: &[u64],
    e: ExprParts,
    found: &mut WordSet,
) -> Result<(), AllocError>
    requires member { IsMember query.now e }
    requires words { AreMemberWords query.now words.now }
    ensures { OnOk result (GrowsTo query.now (HasSteps query.now words.now e) found.old found.new) }
{
    add_origins(query, e, found)?;
    add_results(query, e, None, found)?;
    add_bound_results(query, words, e, found)
}

/// Adds the origin of each child's group.
fn add_origins(query: &Query, e: ExprParts, found: &mut WordSet) -> Result<(), AllocError>
    requires { IsMember query.now e }
    ensures { OnOk result (GrowsTo query.now (HasOrigins query.now e) found.old found.new) }
{
    match e.children() {
        Children::Zero => Ok(()),
        Children::One(child) => add_origin(query, e, child, found),
        Children::Two(left, right) => {
            add_origin(query, e, left, found)?;
            add_origin(query, e, right, found)
        }
    }
}

/// Adds the origin of one child's group.
fn add_origin(
    query: &Query,
    e: ExprParts,
    child: KeyParts,
    found: &mut WordSet,
) -> Result<(), AllocError>
    requires member { IsMember query.now e }
    requires child { IsChild (children_of e.operator) child }
    ensures { OnOk result (GrowsTo query.now (HasOrigin query.now child) found.old found.new) }
{
    add(query, query.origin_of_group(child), found)
}

/// Adds each result of the rules, with this bound member or without one.
fn add_results(
    query: &Query,
    e: ExprParts,
    bound: Option<ExprParts>,
    found: &mut WordSet,
) -> Result<(), AllocError>
    requires { AreMembers query.now e bound }
    ensures { OnOk result (GrowsTo query.now (HasResults query.now e bound) found.old found.new) }
{
    let rules = Rule::all();
    for rule in &rules {
        add_results_by(query, *rule, e, bound, found)?;
    }
    Ok(())
}

/// Adds each result of one rule, where it binds a member as there is one, or none as there is none.
fn add_results_by(
    query: &Query,
    rule: Rule,
    e: ExprParts,
    bound: Option<ExprParts>,
    found: &mut WordSet,
) -> Result<(), AllocError>
    requires { AreMembers query.now e bound }
    ensures { OnOk result (GrowsTo query.now (HasResultsOf query.now e bound rule) found.old found.new) }
{
    // For the proof: else it has no results.
    results_are_known();
    if rule.binds() == bound.is_some() {
        add_results_of(query, rule, e, bound, found)
    } else {
        Ok(())
    }
}

/// Adds each result of one rule, by their numbers.
fn add_results_of(
    query: &Query,
    rule: Rule,
    e: ExprParts,
    bound: Option<ExprParts>,
    found: &mut WordSet,
) -> Result<(), AllocError>
    requires { AreMembers query.now e bound }
    ensures { OnOk result (GrowsTo query.now (HasResultsOf query.now e bound rule) found.old found.new) }
{
    // For the proof: it has no more results.
    results_are_candidates();
    for n in 0..rule.limit() {
        add_result(query, rule, e, bound, n, found)?;
    }
    Ok(())
}

/// Adds each result with a bound member among the words.
fn add_bound_results(
    query: &Query,
    words: &[u64],
    e: ExprParts,
    found: &mut WordSet,
) -> Result<(), AllocError>
    requires member { IsMember query.now e }
    requires words { AreMemberWords query.now words.now }
    ensures { OnOk result (GrowsTo query.now (HasBoundResults query.now words.now e) found.old found.new) }
{
    // For the proof: a bound member is one of the left group, whose key fits a word.
    results_are_known();
    members_are_known();
    match left_side(e) {
        Some(left) => add_results_with_each(query, words_of(words, left), e, found),
        None => Ok(()),
    }
}

/// The left group of a logical join.
fn left_side(e: ExprParts) -> Option<KeyParts>
    ensures { MatchOption result ((left : KeyParts) → IsLeftSide e left → ⊥) (IsLeftSide e) }
{
    match e.operator {
        Operator::Logical(Logical::Join(left, _)) => Some(left),
        _ => None,
    }
}

/// Adds each result with one of the members bound.
fn add_results_with_each(
    query: &Query,
    members: &[u64],
    e: ExprParts,
    found: &mut WordSet,
) -> Result<(), AllocError>
    requires member { IsMember query.now e }
    requires members { All (IsMemberWord query.now) members.now }
    ensures { OnOk result (GrowsTo query.now (HasBoundResults query.now members.now e) found.old found.new) }
{
    for word in members {
        add_results_with(query, Expr(*word), e, found)?;
    }
    Ok(())
}

/// Adds each result with this member bound.
fn add_results_with(
    query: &Query,
    member: Expr,
    e: ExprParts,
    found: &mut WordSet,
) -> Result<(), AllocError>
    requires member { IsMember query.now e }
    requires bound { IsMemberWord query.now member.0 }
    ensures { OnOk result (GrowsTo query.now (HasResultsWith query.now member.0 e) found.old found.new) }
{
    // For the proof: each member has a word.
    members_are_known();
    // For the proof: only logical members are bound.
    results_are_known();
    if member.logical() {
        add_results(query, e, Some(member_of(query, member)), found)
    } else {
        Ok(())
    }
}

/// Adds the n-th result of a rule, if it has so many.
fn add_result(
    query: &Query,
    rule: Rule,
    e: ExprParts,
    bound: Option<ExprParts>,
    n: u32,
    found: &mut WordSet,
) -> Result<(), AllocError>
    requires { AreMembers query.now e bound }
    ensures { OnOk result (GrowsTo query.now (HasResultAt query.now e bound rule n) found.old found.new) }
{
    // For the proof: members have words, and a number is that of one result.
    members_are_known();
    results_are_candidates();
    match result_at(query, rule, e, bound, n) {
        Some(other) => add(query, other, found),
        None => Ok(()),
    }
}

/// Adds a member's word.
fn add(query: &Query, e: ExprParts, found: &mut WordSet) -> Result<(), AllocError>
    requires { IsMember query.now e }
    ensures { OnOk result (GrowsTo query.now (λ words. ContainsWordOf words e) found.old found.new) }
{
    // For the proof: each member has a word.
    members_are_known();
    found.insert(Expr::make(e).0)
}

/// The member whose word it is.
fn member_of(query: &Query, expr: Expr) -> ExprParts
    requires { IsMemberWord query.now expr.0 }
    ensures member { IsMember query.now result }
    ensures only { (e : ExprParts) → IsMember query.now e → word_of e ≡ expr.0 →
        e ≡ result }
{
    // For the proof: each member has a word.
    members_are_known();
    expr.known_parts()
}
