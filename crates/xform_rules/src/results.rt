//! When a rule applies to an expression, and its results. No call here takes memory.
#![tactic(auto)]

ghost use Rattle.std.specs.Prelude.{ℕ, Option, ◌≡◌, ◌<◌, IsTrue, ◌↔◌, IfSome, None, true};
ghost use Rattle.std.specs.List.{Contains};
ghost use Rattle.query_core.specs.declared.query.Query.{Query as AnyQuery};
ghost use Rattle.query_core.specs.declared.words.KeyParts.{KeyParts as AnyKeyParts};
ghost use Rattle.xform_rules.specs.declared.rules.Rule.{Rule as AnyRule};
ghost use Rattle.xform_rules.specs.Rules.{explores};
ghost use Rattle.std.specs.Option.{option_map};
ghost use Rattle.query_core.specs.declared.expressions.ExprParts.{ExprParts};
ghost use Rattle.query_core.specs.declared.expressions.Operator.TheVariants as operators;
ghost use Rattle.query_core.specs.Expressions.{AreInRange, IsPacked, logical_fields};
ghost use Rattle.xform_rules.specs.Forms.{Finds};
ghost use Rattle.xform_rules.specs.Results.{IsExplored, IsFor, Applies, Says, Gives, GivesBound, GivesWith};
ghost use Rattle.xform_rules.specs.Results.{HasResult};

use crate::expand_n_ary::{expanded, set_of};
use crate::implemented::made;
use crate::join_associate::{associated, joins_join};
use crate::join_commute::{commuted, is_join};
use crate::rules::{Exploration, Rule, Work, is_on};
use crate::split_agg::{groups_input, split};
use query_core::{ExprParts, KeyParts, Logical, Operator, Physical, Query};

/// Whether the rule is on, and for this expression.
pub fn applies_at(query: &Query, rule: Rule, e: ExprParts) -> bool
    ensures value { IsTrue result ↔ Applies query.now rule e }

    // The expression has results of the rule only then.
    ensures needed { (bound : Option ExprParts) (n : ℕ) (other : ExprParts) →
        HasResult query.now rule e bound n other → IsTrue result }
{
    match e.operator {
        Operator::Logical(from) => is_on(query, rule) && is_for(query, rule, e.group, from),
        Operator::Physical(_) => false,
    }
}

fn is_for(query: &Query, rule: Rule, group: KeyParts, from: Logical) -> bool
    ensures { IsTrue result ↔ IsFor query.now rule group from }
{
    match rule.work() {
        Work::Explores(way) => is_explored(query, way, group, from),
        Work::Implements(condition) => made(query, rule, condition, group, from, 0).is_some(),
    }
}

/// The rules that explore what is wanted, in the order of their numbers. No other rule that explores is for it.
pub fn exploring_rules(from: Logical) -> &'static [Rule]
    ensures every { (q : AnyQuery) (rule : AnyRule) (group : AnyKeyParts) →
        explores rule ≡ true → IsFor q rule group from → Contains result.now rule }
{
    match from {
        Logical::Get => &[],
        Logical::Select(_) => &[],
        Logical::NJoin => &[Rule::ExpandNAry],
        Logical::Join(_, _) => &[Rule::JoinCommute, Rule::JoinAssociate],
        Logical::Agg(_) => &[Rule::SplitAgg],
        Logical::Partial(_) => &[],
    }
}

fn is_explored(query: &Query, way: Exploration, group: KeyParts, from: Logical) -> bool
    ensures { IsTrue result ↔ IsExplored query.now way group from }
{
    match way {
        Exploration::Expansion => set_of(group, from).is_some(),
        Exploration::Commutation => is_join(from),
        Exploration::Association => joins_join(from),
        Exploration::Split => groups_input(query, from),
    }
}

/// The n-th result, from 0, of a rule at an expression, with a bound member or without one.
pub fn result_at(
    query: &Query,
    rule: Rule,
    e: ExprParts,
    bound: Option<ExprParts>,
    n: u32,
) -> Option<ExprParts>
    requires e { IsPacked e }
    requires bound { IfSome bound IsPacked }
    ensures { Finds (HasResult query.now rule e bound n) result }
{
    match e.operator {
        Operator::Logical(from) if is_on(query, rule) => {
            let operator = with_or_without(query, rule, e.group, from, bound, n)?;
            Some(ExprParts {
                group: e.group,
                operator,
            })
        }
        _ => None,
    }
}

#[inline(always)]
fn with_or_without(
    query: &Query,
    rule: Rule,
    group: KeyParts,
    from: Logical,
    bound: Option<ExprParts>,
    n: u32,
) -> Option<Operator>
    requires from { AreInRange (logical_fields from).children }
    requires bound { IfSome bound IsPacked }
    ensures { Finds (λ to. GivesWith query.now rule group bound n to from) result }
{
    match bound {
        Some(member) => with_member(query, rule, from, member, n),
        None => without_member(query, rule, group, from, n),
    }
}

#[inline(always)]
fn with_member(
    query: &Query,
    rule: Rule,
    from: Logical,
    bound: ExprParts,
    n: u32,
) -> Option<Operator>
    requires from { AreInRange (logical_fields from).children }
    requires bound { IsPacked bound }
    ensures { Finds (GivesBound query.now rule from bound n) result }
{
    match rule {
        Rule::JoinAssociate => explored(n, associated(query, from, bound)),
        _ => None,
    }
}

#[inline(always)]
fn without_member(
    query: &Query,
    rule: Rule,
    group: KeyParts,
    from: Logical,
    n: u32,
) -> Option<Operator>
    ensures { Finds (Gives query.now rule group from n) result }
{
    match rule.work() {
        Work::Explores(way) => explored(n, said(query, way, group, from)),
        Work::Implements(condition) => physical(made(query, rule, condition, group, from, n)),
    }
}

/// The other logical operator that a rule which needs no other member says.
fn said(query: &Query, way: Exploration, group: KeyParts, from: Logical) -> Option<Logical>
    ensures { Finds (Says query.now way group from) result }
{
    match way {
        Exploration::Expansion => expanded(query, group, from),
        Exploration::Commutation => commuted(from),
        Exploration::Association => None,
        Exploration::Split => split(query, from),
    }
}

/// The first result of a rule that explores.
#[inline(always)]
fn explored(n: u32, found: Option<Logical>) -> Option<Operator>
    ensures first { n ≡ 0 → result ≡ option_map operators.Logical found }
    ensures others { 0 < n → result ≡ None }
{
    if n == 0 {
        found.map(Operator::Logical)
    } else {
        None
    }
}

#[inline(always)]
fn physical(found: Option<Physical>) -> Option<Operator>
    ensures { result ≡ option_map operators.Physical found }
{
    found.map(Operator::Physical)
}
