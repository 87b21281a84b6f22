//! The two phases of a search: rules that explore, and rules that implement.
#![tactic(auto)]

ghost use Rattle.std.specs.Prelude.{◌≡◌, ◌↔◌, IsTrue};
ghost use Rattle.goal_space.specs.Phases.{does_explore, phase_goal_of_expr, phase_goal_of_group, IsTried};

use crate::goals::GoalKind;
use query_core::{ExprParts, KeyParts, Query};
use xform_rules::{Rule, applies_at};

/// What rules are tried for.
#[derive(Clone, Copy)]
pub enum Phase {
    Exploration,
    Implementation,
}

impl Phase {
    /// The goal of a group.
    #[inline(always)]
    pub fn of_group(self, group: KeyParts) -> GoalKind
        ensures { result ≡ phase_goal_of_group self group }
    {
        match self {
            Phase::Exploration => GoalKind::Exp(group),
            Phase::Implementation => GoalKind::Imp(group),
        }
    }

    /// The goal of an expression.
    #[inline(always)]
    pub fn of_expr(self, e: ExprParts) -> GoalKind
        ensures { result ≡ phase_goal_of_expr self e }
    {
        match self {
            Phase::Exploration => GoalKind::ExpE(e),
            Phase::Implementation => GoalKind::ImpE(e),
        }
    }

    /// Whether its rules are those that explore.
    #[inline(always)]
    pub fn explores(self) -> bool
        ensures { result ≡ does_explore self }
    {
        match self {
            Phase::Exploration => true,
            Phase::Implementation => false,
        }
    }

    /// Whether the rule is one of its rules, and applies to the expression.
    #[inline(always)]
    pub fn tries(self, query: &Query, e: ExprParts, rule: Rule) -> bool
        ensures { IsTrue result ↔ IsTried query.now self e rule }
    {
        rule.explores() == self.explores() && applies_at(query, rule, e)
    }
}
