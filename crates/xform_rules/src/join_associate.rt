//! JoinAssociate: a join over a join changes which two groups it joins first.
#![tactic(auto)]

ghost use Rattle.std.specs.Prelude.{◌≡◌, IsTrue, ◌↔◌};
ghost use Rattle.query_core.specs.Keys.{IsGroupInRange};
ghost use Rattle.query_core.specs.Expressions.{AreInRange, IsPacked, logical_fields};
ghost use Rattle.xform_rules.specs.Forms.{Finds};
ghost use Rattle.xform_rules.specs.JoinAssociate.{IsOverJoin, Associates};

use query_core::{ExprParts, KeyParts, Logical, Operator, Query, sets};

/// Whether it is the join of a join with another group.
pub fn joins_join(from: Logical) -> bool
    ensures { IsTrue result ↔ IsOverJoin from }
{
    match from {
        Logical::Join(KeyParts::Join(_), _) => true,
        _ => false,
    }
}

/// The join of the first group of the bound member with the join of its second and the right one.
pub fn associated(query: &Query, from: Logical, bound: ExprParts) -> Option<Logical>
    requires from { AreInRange (logical_fields from).children }
    requires bound { IsPacked bound }
    ensures { Finds (Associates query.now from bound) result }
{
    match (from, bound.operator) {
        (Logical::Join(left, right), Operator::Logical(Logical::Join(a, b)))
            if joins_join(from) && left == bound.group => {
            let (b, c) = (b.tables(), right.tables());
            if query.linked(b, c) {
                return Some(Logical::Join(a, query.top_group(sets::union(b, c))));
            }
            None
        }
        _ => None,
    }
}
