//! The expressions that a group can hold. No call here takes memory.
#![tactic(auto)]

ghost use Rattle.std.specs.Prelude.{◌≡◌, ℕ, ◌<◌, ◌^◌, ◌↔◌, IsTrue, length};
ghost use Rattle.query_core.specs.declared.expressions.ExprParts.{ExprParts};
ghost use Rattle.query_core.specs.declared.query.Query.{Query};
ghost use Rattle.query_core.specs.declared.words.KeyParts.{KeyParts};
ghost use Rattle.query_core.specs.Connected.{IsConnected};
ghost use Rattle.query_core.specs.Keys.{key_number, IsGroupInRange, IsGroup, IsKey, NamesGroup, top_of, input_of};
ghost use Rattle.query_core.specs.Keys.{root_of};
ghost use Rattle.query_core.specs.Candidates.{LogicalComeFirst, MiddlesRise};
ghost use Rattle.query_core.specs.Expressions.{word_of, children_of, middle_field, MIDDLES, origin_of};
ghost use Rattle.query_core.specs.Expressions.{origin_operator};
ghost use Rattle.query_core.specs.Expressions.{IsChild, IsChildrenOf, IsPacked, IsCandidate};

use crate::expressions::{ExprParts, Logical};
use crate::keys::KEYS;
use crate::query::Query;
use crate::words::{Expr, Key, KeyParts};

impl Query {
    /// The expression with which the group begins.
    pub fn origin(&self, key: Key) -> Expr
        requires { IsKey self.now key }
        ensures { (g : KeyParts) → NamesGroup self.now key g →
            result.0 ≡ word_of (origin_of self.now g) }
    {
        Expr::make(self.origin_of_group(self.group(key)))
    }

    /// The same as `origin`, of a group.
    pub fn origin_of_group(&self, group: KeyParts) -> ExprParts
        ensures { result ≡ origin_of self.now group }
    {
        ExprParts::logical(group, self.origin_operator(group))
    }

    fn origin_operator(&self, group: KeyParts) -> Logical
        ensures { result ≡ origin_operator self.now group }
    {
        match group {
            KeyParts::Get(_) => Logical::Get,
            KeyParts::Filter(table) => Logical::Select(KeyParts::Get(table)),
            KeyParts::Join(_) => Logical::NJoin,
            KeyParts::Partial => Logical::Partial(self.input()),
            KeyParts::Agg => Logical::Agg(self.input()),
        }
    }
}

/// What all expressions have in common that the groups of a query can hold.
pub fn candidates_are_known()
    ensures packed { (q : Query) (e : ExprParts) → IsCandidate q e → IsPacked e }
    ensures children { (q : Query) (e : ExprParts) (g : KeyParts) → IsCandidate q e →
        IsChild (children_of e.operator) g → IsGroup q g }
    ensures by_group { (q : Query) (e : ExprParts) → IsCandidate q e →
        IsChildrenOf q e.group (children_of e.operator) }
    ensures origins { (q : Query) (g : KeyParts) → IsGroup q g → IsCandidate q (origin_of q g) }
{}

/// The order of the candidates of a group.
pub fn candidates_are_in_order()
    ensures rise { (q : Query) → MiddlesRise q }
    ensures few { (e : ExprParts) → middle_field (word_of e) < MIDDLES }
    ensures logical_first { (q : Query) → LogicalComeFirst q }
    ensures some { (e : ExprParts) → 0 < word_of e }
{}

/// What all groups of a query have in common, and which groups each query has.
pub fn groups_are_known()
    ensures in_range { (q : Query) (g : KeyParts) → IsGroup q g → IsGroupInRange g }
    ensures small { (g : KeyParts) → IsGroupInRange g → key_number g < KEYS }
    ensures joined { (q : Query) (set : ℕ) → 0 < set → set < 2 ^ length q.tables →
        IsConnected q.links set → IsGroup q (top_of q set) }
    ensures input { (q : Query) → IsGroup q (input_of q) }
    ensures root { (q : Query) → IsGroup q (root_of q) }
{}
