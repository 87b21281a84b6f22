//! JoinCommute: a join of the same groups the other way round.
#![tactic(auto)]

ghost use Rattle.std.specs.Prelude.{IsTrue, ◌↔◌};
ghost use Rattle.xform_rules.specs.Forms.{Finds, IsLogicalJoin};
ghost use Rattle.xform_rules.specs.JoinCommute.{Commutes};

use query_core::Logical;

/// Whether it is a join of groups.
pub fn is_join(from: Logical) -> bool
    ensures { IsTrue result ↔ IsLogicalJoin from }
{
    match from {
        Logical::Join(_, _) => true,
        _ => false,
    }
}

/// The join of the right group and the left one.
pub fn commuted(from: Logical) -> Option<Logical>
    ensures { Finds (Commutes from) result }
{
    match from {
        Logical::Join(left, right) => Some(Logical::Join(right, left)),
        _ => None,
    }
}
