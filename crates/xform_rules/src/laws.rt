//! What the layers above know of rules and their results.
#![tactic(auto)]

ghost use Rattle.std.specs.Prelude.{ℕ, ◌≡◌, ◌<◌, IfSome, IsTrue, Option, Some, false, is_some};
ghost use Rattle.query_core.specs.declared.query.Query.{Query};
ghost use Rattle.query_core.specs.declared.expressions.ExprParts.{ExprParts};
ghost use Rattle.query_core.specs.declared.words.KeyParts.{KeyParts};
ghost use Rattle.query_core.specs.Keys.{IsGroup};
ghost use Rattle.query_core.specs.Expressions.{children_of, is_logical, FallsInto, IsCandidate, IsChild};
ghost use Rattle.xform_rules.specs.declared.rules.Rule.{Rule};
ghost use Rattle.xform_rules.specs.Counts.{table_count};
ghost use Rattle.xform_rules.specs.Forms.{IsLeftSide};
ghost use Rattle.xform_rules.specs.Rules.{rule_limit, explores, binds, RulesAreKnown};
ghost use Rattle.xform_rules.specs.Results.{Applies, HasResult};
ghost use Rattle.xform_rules.specs.Closure.{IsMember};

use query_core::{candidates_are_known, groups_are_known, sides_are_known};

/// What is known of the rules, whatever the query.
pub fn rules_are_known()
    ensures { RulesAreKnown }
{}

/// The results of a rule at a candidate are candidates, one of each number, up to its limit.
pub fn results_are_candidates()
    ensures candidates { (q : Query) (rule : Rule) (e : ExprParts) (bound : Option ExprParts)
        (n : ℕ) (other : ExprParts) → IsCandidate q e → IfSome bound (IsCandidate q) →
        HasResult q rule e bound n other → IsCandidate q other }
    ensures one { (q : Query) (rule : Rule) (e : ExprParts) (bound : Option ExprParts)
        (n : ℕ) (x y : ExprParts) →
        HasResult q rule e bound n x → HasResult q rule e bound n y → x ≡ y }
    ensures few { (q : Query) (rule : Rule) (e : ExprParts) (bound : Option ExprParts)
        (n : ℕ) (x : ExprParts) → HasResult q rule e bound n x → n < rule_limit rule }
{
    sides_are_known();
}

/// What is known of results, wherever they are.
pub fn results_are_known()
    // A rule has results only where it applies, and these stay in the group.
    ensures applies { (q : Query) (rule : Rule) (e : ExprParts) (bound : Option ExprParts)
        (n : ℕ) (x : ExprParts) → HasResult q rule e bound n x → Applies q rule e }
    ensures group { (q : Query) (rule : Rule) (e : ExprParts) (bound : Option ExprParts)
        (n : ℕ) (x : ExprParts) → HasResult q rule e bound n x → x.group ≡ e.group }

    // Only logical expressions have results, and rules that explore give logical ones.
    ensures logical { (q : Query) (rule : Rule) (e : ExprParts) (bound : Option ExprParts)
        (n : ℕ) (x : ExprParts) → HasResult q rule e bound n x → IsTrue (is_logical e.operator) }
    ensures explored { (q : Query) (rule : Rule) (e : ExprParts) (bound : Option ExprParts)
        (n : ℕ) (x : ExprParts) → HasResult q rule e bound n x →
        is_logical x.operator ≡ explores rule }

    // What isn't logical stands on groups on which the expression stands.
    ensures children { (q : Query) (rule : Rule) (e : ExprParts) (bound : Option ExprParts)
        (n : ℕ) (x : ExprParts) → HasResult q rule e bound n x →
        is_logical x.operator ≡ false → (group : KeyParts) →
        IsChild (children_of x.operator) group → IsChild (children_of e.operator) group }

    // A bound member is a logical one of the left child's group.
    ensures binds { (q : Query) (rule : Rule) (e : ExprParts) (bound : Option ExprParts)
        (n : ℕ) (x : ExprParts) → HasResult q rule e bound n x → is_some bound ≡ binds rule }
    ensures left { (q : Query) (rule : Rule) (e bound : ExprParts) (n : ℕ) (x : ExprParts) →
        HasResult q rule e (Some bound) n x → IsLeftSide e bound.group }
    ensures bound { (q : Query) (rule : Rule) (e bound : ExprParts) (n : ℕ) (x : ExprParts) →
        HasResult q rule e (Some bound) n x → IsTrue (is_logical bound.operator) }

    // The sides of a join have fewer tables.
    ensures fewer { (q : Query) (set a b : ℕ) → IsGroup q (KeyParts.Join set) →
        FallsInto q set a b →
        (table_count a < table_count set) × (table_count b < table_count set) }
{}

/// The members of a query's groups are candidates.
pub fn members_are_candidates()
    ensures { (q : Query) (e : ExprParts) → IsMember q e → IsCandidate q e }
{
    candidates_are_known();
    groups_are_known();
    sides_are_known();
}
