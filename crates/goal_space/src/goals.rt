//! What a goal is about.
#![tactic(auto)]

ghost use Rattle.std.specs.Prelude.{◌≡◌};
ghost use Rattle.goal_space.specs.Ranks.{group_of};

use query_core::{ExprParts, KeyParts, PhysicalExpr};
use request_props::Request;
use xform_rules::Rule;

/// A goal of a search.
#[derive(Clone, Copy, PartialEq, Eq)]
pub enum GoalKind {
    /// All logical members of the group are there.
    Exp(KeyParts),
    /// All logical members that the expression leads to are there.
    ExpE(ExprParts),
    /// The results of the rule at the expression are there.
    Xf(ExprParts, Rule),
    /// All members of the group are there.
    Imp(KeyParts),
    /// All physical members that the expression leads to are there.
    ImpE(ExprParts),
    /// The least plan of the group for the request.
    Opt(KeyParts, Request),
    /// The least plan of the group for the request with the expression at its root.
    OptE(PhysicalExpr, Request),
}

impl GoalKind {
    /// The group that it is about, or that of its expression.
    pub fn group(self) -> KeyParts
        ensures { result ≡ group_of self }
    {
        match self {
            GoalKind::Exp(group) => group,
            GoalKind::ExpE(e) => e.group,
            GoalKind::Xf(e, _) => e.group,
            GoalKind::Imp(group) => group,
            GoalKind::ImpE(e) => e.group,
            GoalKind::Opt(group, _) => group,
            GoalKind::OptE(e, _) => e.group,
        }
    }
}
