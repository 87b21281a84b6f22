//! The rules that are tried at an expression: those that are for its operator, in the order of their numbers.
#![tactic(auto)]

ghost use Rattle.std.specs.List.{Contains};
ghost use Rattle.query_core.specs.declared.query.Query.{Query};
ghost use Rattle.xform_rules.specs.declared.rules.Rule.{Rule as AnyRule};
ghost use Rattle.goal_space.specs.Phases.{IsTried};

use goal_space::Phase;
use query_core::{ExprParts, Operator};
use xform_rules::{Rule, exploring_rules, implementing_rules};

/// The rules of the phase that are for the expression's operator. No other rule of the phase applies.
#[inline(always)]
pub(crate) fn rules_to_try(phase: Phase, e: ExprParts) -> &'static [Rule]
    ensures every { (q : Query) (rule : AnyRule) → IsTried q phase e rule → Contains result.now rule }
{
    match e.operator {
        Operator::Logical(from) => match phase {
            Phase::Exploration => exploring_rules(from),
            Phase::Implementation => implementing_rules(from),
        },
        Operator::Physical(_) => &[],
    }
}
