//! The rules that join two groups only where some predicate equates these: whether one applies, and what it gives. What
//! was found of each group's equalities tells whether they are equated.
#![tactic(auto)]

ghost use Rattle.std.specs.Prelude.{◌↔◌, IfSome, IsTrue, None};
ghost use Rattle.query_core.specs.Expressions.{IsPacked};
ghost use Rattle.request_props.specs.Numbered.{IsProps};
ghost use Rattle.xform_rules.specs.Forms.{Finds};
ghost use Rattle.xform_rules.specs.Implemented.{HasCrossing};
ghost use Rattle.xform_rules.specs.Results.{HasResult};
ghost use Rattle.xform_rules.specs.Rules.{IsOn};
ghost use Rattle.goal_space.specs.Phases.{IsTried};
ghost use Rattle.job_turns.specs.EquatedJoins.{IsEquatedJoin};

use crate::made_joins::is_on;
use crate::rule_results::RuleBinding;
use goal_space::Phase;
use query_core::{ExprParts, KeyParts, Logical, Operator, Physical, Query};
use request_props::Props;
use xform_rules::{Rule, result_at};

/// Two groups, and the join of them that a rule makes where some predicate equates them.
#[derive(Clone, Copy)]
pub(crate) struct EquatedJoin {
    pub(crate) left: KeyParts,
    pub(crate) right: KeyParts,
    pub(crate) to: Physical,
}

/// Whether the rule is one of the phase, and applies to the expression.
#[inline(always)]
pub(crate) fn is_tried(query: &Query, props: &Props, phase: Phase, e: ExprParts, rule: Rule) -> bool
    requires props { IsProps query.now props.now }
    ensures { IsTrue result ↔ IsTried query.now phase e rule }
{
    match (phase, equated_join(rule, e.operator)) {
        (Phase::Implementation, Some(join)) => makes(query, props, rule, join),
        _ => phase.tries(query, e, rule),
    }
}

/// The n-th result, from 0, of a rule at an expression.
#[inline(always)]
pub(crate) fn nth_result(
    query: &Query,
    props: &Props,
    binding: RuleBinding,
    n: u32,
) -> Option<ExprParts>
    requires props { IsProps query.now props.now }
    requires e { IsPacked binding.e }
    requires bound { IfSome binding.bound IsPacked }
    ensures { Finds (HasResult query.now binding.rule binding.e binding.bound n) result }
{
    match (
        binding.bound,
        equated_join(binding.rule, binding.e.operator),
    ) {
        (None, Some(join)) => first_result(query, props, binding, join, n),
        _ => result_at(query, binding.rule, binding.e, binding.bound, n),
    }
}

// The join, as the only result of the rule, if it makes it.
#[inline(always)]
fn first_result(
    query: &Query,
    props: &Props,
    binding: RuleBinding,
    join: EquatedJoin,
    n: u32,
) -> Option<ExprParts>
    requires props { IsProps query.now props.now }
    requires join { IsEquatedJoin binding.rule binding.e.operator join }
    ensures { Finds (HasResult query.now binding.rule binding.e None n) result }
{
    if n == 0 && makes(query, props, binding.rule, join) {
        Some(ExprParts {
            group: binding.e.group,
            operator: Operator::Physical(join.to),
        })
    } else {
        None
    }
}

// The join that the rule makes of the operator, if it makes it only where some predicate equates two groups.
#[inline(always)]
fn equated_join(rule: Rule, from: Operator) -> Option<EquatedJoin>
    ensures { IfSome result (IsEquatedJoin rule from) }
{
    match (rule, from) {
        (Rule::JoinToHash, Operator::Logical(Logical::Join(left, right))) => Some(EquatedJoin {
            left,
            right,
            to: Physical::HashJoin(left, right),
        }),
        (Rule::JoinToMerge, Operator::Logical(Logical::Join(left, right))) => Some(EquatedJoin {
            left,
            right,
            to: Physical::MergeJoin(left, right),
        }),
        _ => None,
    }
}

// Whether the rule is on and makes the join.
#[inline(always)]
fn makes(query: &Query, props: &Props, rule: Rule, join: EquatedJoin) -> bool
    requires { IsProps query.now props.now }
    ensures { IsTrue result ↔ (IsOn query.now rule × HasCrossing query.now join.left join.right) }
{
    is_on(query, rule) && are_equated(query, props, join.left, join.right)
}

/// Whether some predicate equates a column of each group.
#[inline(always)]
pub(crate) fn are_equated(query: &Query, props: &Props, left: KeyParts, right: KeyParts) -> bool
    requires { IsProps query.now props.now }
    ensures { IsTrue result ↔ HasCrossing query.now left right }
{
    !props.crossings(query, left, right).is_empty()
}
