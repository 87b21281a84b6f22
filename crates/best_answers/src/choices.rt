//! The answer that one node gives, from the best answers for what it asks.
#![tactic(auto)]

ghost use Rattle.std.specs.Prelude.{ℕ, ◌≡◌, ◌≤◌, [], ◌∷◌, IfSome};
ghost use Rattle.query_core.specs.Expressions.{expr_of};
ghost use Rattle.query_core.specs.Keys.{IsGroup};
ghost use Rattle.xform_rules.specs.Closure.{IsMember};
ghost use Rattle.cost_units.specs.Cost.{most_cost};
ghost use Rattle.request_props.specs.Fitting.{Fits};
ghost use Rattle.request_props.specs.Numbered.{IsProps};
ghost use Rattle.plan_space.specs.Cost.{most_of_all};
ghost use Rattle.plan_space.specs.Enforcers.{EnforcedBy};
ghost use Rattle.plan_space.specs.declared.nodes.NodeKind.{NodeKind};
ghost use Rattle.plan_space.specs.declared.nodes.NodeKind.TheVariants.{Enforcer, Native};
ghost use Rattle.plan_tree.specs.Alternatives.{IsAltBy};
ghost use Rattle.plan_tree.specs.Costs.{AreRowsOf};
ghost use Rattle.plan_tree.specs.Nodes.{IsNode};
ghost use Rattle.best_answers.specs.Answers.{answers_asked, best_over, costs_below};
ghost use Rattle.best_answers.specs.Best.{AreBestBelow, IsBest, IsEnforcedBy};
ghost use Rattle.best_answers.specs.Nodes.{all_nodes, one_node};

use crate::best::Best;
use crate::laws::{answers_are_best, best_is_least};
use plan_space::{Line, costs_fit, what_is_asked_fits};
use plan_tree::{Alt, Enforced, ExprRows, Node, enforcer_cost_by, native_cost_by};
use query_core::{KeyParts, PhysicalExpr, Query};
use request_props::{Props, Request};
use xform_rules::members_are_candidates;

/// The answer that an expression gives in the mode of the alternative, over the best answers for
/// what it asks of its children, the left one first.
pub fn best_in_mode(
    query: &Query,
    expr: PhysicalExpr,
    rows: ExprRows,
    line: &Line,
    wanted: Request,
    alt: Alt,
    below: (Option<Best>, Option<Best>),
) -> Option<Best>
    requires member { IsMember query.now (expr_of expr) }
    requires rows { AreRowsOf query.now expr rows }
    requires fits { Fits query.now expr.group wanted }
    requires alternative { (mode : ℕ) × IsAltBy query.now expr wanted mode alt line.now }
    requires below { AreBestBelow query.now alt below }
    ensures { (mode : ℕ) → IsAltBy query.now expr wanted mode alt line.now →
        IsBest query.now expr.group wanted (one_node (Native expr mode)) result }
{
    // For the proof: what is asked fits, and what is best of it costs little.
    members_are_candidates();
    what_is_asked_fits();
    answers_are_best();
    best_is_least();
    costs_fit();
    let local = native_cost_by(query, expr, line, rows, wanted);
    over(alt.node, local, cost_below(alt, below))
}

/// The answer that an enforcer for the request gives over the best answer for what it asks of a plan
/// of the same group.
pub fn best_of_enforcer(
    query: &Query,
    props: &Props,
    group: KeyParts,
    wanted: Request,
    enforced: Enforced,
    below: Option<Best>,
) -> Option<Best>
    requires props { IsProps query.now props.now }
    requires known { IsGroup query.now group }
    requires fits { Fits query.now group wanted }
    requires enforced { (e : EnforcedBy) × IsEnforcedBy wanted enforced e }
    requires below { IsBest query.now group enforced.below all_nodes below }
    ensures { (e : EnforcedBy) → IsEnforcedBy wanted enforced e →
        IsBest query.now group wanted (one_node (Enforcer e.node)) result }
{
    // For the proof: what is asked fits, and what is best of it costs little.
    what_is_asked_fits();
    answers_are_best();
    let rows = props.group_rows(query, group);
    let local = enforcer_cost_by(query, rows, wanted, enforced.node);
    over(enforced.node, local, cost_of_one(below))
}

// What the answers for what the alternative asks cost together, where each is there.
#[inline(always)]
fn cost_below(alt: Alt, below: (Option<Best>, Option<Best>)) -> Option<u64>
    requires { IfSome (costs_below (answers_asked alt below)) (λ cost. cost ≤ most_of_all) }
    ensures value { result ≡ costs_below (answers_asked alt below) }
    ensures small { IfSome result (λ cost. cost ≤ most_of_all) }
{
    match (alt.left, alt.right) {
        (Some(_), Some(_)) => match below {
            (Some(left), Some(right)) => Some(left.cost + right.cost),
            _ => None,
        },
        (Some(_), None) => cost_of_one(below.0),
        (None, _) => Some(0),
    }
}

#[inline(always)]
fn cost_of_one(below: Option<Best>) -> Option<u64>
    ensures { result ≡ costs_below (below ∷ []) }
{
    match below {
        Some(best) => Some(best.cost),
        None => None,
    }
}

// The node, which costs so much itself, over plans that cost so much together.
#[inline(always)]
fn over(node: Node, local: u64, below: Option<u64>) -> Option<Best>
    requires local { local ≤ most_cost }
    requires below { IfSome below (λ cost. cost ≤ most_of_all) }
    ensures { (kind : NodeKind) → IsNode node kind → result ≡ best_over local kind below }
{
    match below {
        Some(below) => Some(Best {
            cost: local + below,
            node,
        }),
        None => None,
    }
}
