//! Which joins the rules reach, where both rules that turn joins into joins are on.
#![tactic(auto)]

ghost use Rattle.std.specs.Prelude.{ℕ, ◌↔◌};
ghost use Rattle.query_core.specs.declared.query.Query.{Query};
ghost use Rattle.query_core.specs.declared.words.KeyParts.{KeyParts};
ghost use Rattle.query_core.specs.Keys.{IsGroup};
ghost use Rattle.query_core.specs.Expressions.{FallsInto};
ghost use Rattle.xform_rules.specs.Splits.{AreJoinRulesOn, HasJoinGroup, HasJoin};

use crate::laws::members_are_candidates;

/// Every connected set of two or more tables has its group in the closure, and this group holds
/// the join of each two connected sets that the set falls into, in both orders, and no other.
pub fn splits_are_complete()
    ensures groups { (q : Query) (set : ℕ) → AreJoinRulesOn q → IsGroup q (KeyParts.Join set) →
        HasJoinGroup q set }
    ensures splits { (q : Query) (set a b : ℕ) → AreJoinRulesOn q →
        IsGroup q (KeyParts.Join set) → HasJoin q set a b ↔ FallsInto q set a b }
{
    members_are_candidates();
}
