//! What holds of all texts of plans.
#![tactic(auto)]

ghost use Rattle.std.specs.Prelude.{◌≡◌, ℕ, List};
ghost use Rattle.std.specs.List.{concat};
ghost use Rattle.query_core.specs.declared.query.Query.{Query};
ghost use Rattle.xform_rules.specs.Closure.{IsMember};
ghost use Rattle.plan_space.specs.Nodes.{Tree};
ghost use Rattle.plan_space.specs.Valid.{IsValid};
ghost use Rattle.plan_lines.specs.Text.{plan_section};
ghost use Rattle.plan_reading.specs.declared.named.Named.{Named as AnyNamed};
ghost use Rattle.plan_reading.specs.Named.{named_text, HasForm};
ghost use Rattle.plan_reading.specs.Outline.{IsPlanTree};
ghost use Rattle.plan_reading.specs.Formed.{IsFormed, HasFormFault};
ghost use Rattle.plan_reading.specs.Laws.{PlansAreRead, LinesAreSpelled, OutlinesAreOne};
ghost use Rattle.plan_reading.specs.Laws.{NodesAreMeant, NamesAreKept, ModesAreSmall};
ghost use Rattle.plan_reading.specs.declared.line.NodeLine.{NodeLine as AnyNodeLine};

use query_core::{candidates_are_known, sides_are_known};
use request_props::listing_is_one;
use xform_rules::members_are_candidates;

/// No two nodes that the query can name have one text.
pub fn texts_are_one()
    ensures { (q : Query) (a b : AnyNamed) → HasForm q a → HasForm q b →
        named_text q a ≡ named_text q b → a ≡ b }
{
    listing_is_one();
    candidates_are_known();
}

/// Two plans with one text are the same plan: plans whose nodes are nodes of the query, and so all
/// valid ones.
pub fn plans_are_one()
    ensures trees { (q : Query) (a b : Tree) → IsPlanTree q a → IsPlanTree q b →
        concat (plan_section q a) ≡ concat (plan_section q b) → a ≡ b }
    ensures valid { (q : Query) (t : Tree) → IsValid (IsMember q) q t → IsPlanTree q t }
{
    texts_are_one();
    sides_are_known();
    members_are_candidates();
}

/// A text is read in one way: as these lines, or with its first fault.
pub fn readings_are_one()
    ensures formed { (q : Query) (text : List ℕ) (c d : ℕ) (xs ys : List AnyNodeLine) →
        IsFormed q text c xs → IsFormed q text d ys → (c ≡ d) × (xs ≡ ys) }
    ensures fault { (q : Query) (text : List ℕ) (line other : ℕ) →
        HasFormFault q text line → HasFormFault q text other → line ≡ other }
    ensures apart { (q : Query) (text : List ℕ) (c : ℕ) (xs : List AnyNodeLine) (line : ℕ) →
        IsFormed q text c xs → HasFormFault q text line → ⊥ }
{
    texts_are_one();
}

/// The text of a plan of few enough nodes is made of the plan's own lines.
pub fn plans_are_read()
    ensures read { (q : Query) → PlansAreRead q }
    ensures spelled { (q : Query) → LinesAreSpelled q }
{}

/// Lines without their numbers are those of one list of plans.
pub fn outlines_are_one()
    ensures { (q : Query) → OutlinesAreOne q }
{
    sides_are_known();
}

/// What a line names is told by the node, and the node by its name and the groups of its kids.
pub fn nodes_are_meant()
    ensures meant { (q : Query) → NodesAreMeant q }
    ensures kept { (q : Query) → NamesAreKept q }
    ensures small { (q : Query) → ModesAreSmall q }
{
    sides_are_known();
}
