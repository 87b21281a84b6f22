//! SplitAgg: grouping in two steps, the first on each segment.
#![tactic(auto)]

ghost use Rattle.std.specs.Prelude.{IsTrue, ◌↔◌};
ghost use Rattle.xform_rules.specs.Forms.{Finds};
ghost use Rattle.xform_rules.specs.SplitAgg.{GroupsInput, SplitsGrouping};

use query_core::{KeyParts, Logical, Query};

/// Whether it is the groups of all rows.
pub fn groups_input(query: &Query, from: Logical) -> bool
    ensures { IsTrue result ↔ GroupsInput query.now from }
{
    from == Logical::Agg(query.input())
}

/// Grouping of groups that are not complete.
pub fn split(query: &Query, from: Logical) -> Option<Logical>
    ensures { Finds (SplitsGrouping query.now from) result }
{
    if groups_input(query, from) {
        return Some(Logical::Agg(KeyParts::Partial));
    }
    None
}
