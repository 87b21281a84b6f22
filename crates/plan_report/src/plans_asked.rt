//! What the node at the root of a least plan asks of the plans below it.
#![tactic(auto)]

ghost use Rattle.std.specs.Prelude.{◌≡◌, ◌<◌, List};
ghost use Rattle.query_core.specs.Keys.{IsKey, NamesGroup};
ghost use Rattle.query_core.specs.declared.words.KeyParts.{KeyParts as AnyKeyParts};
ghost use Rattle.request_props.specs.Numbered.{IsProps};
ghost use Rattle.request_props.specs.declared.request.Request.{Request as AnyRequest};
ghost use Rattle.plan_space.specs.Nodes.{Tree, node_modes};
ghost use Rattle.plan_space.specs.declared.nodes.NodeKind.TheVariants.{Native};
ghost use Rattle.plan_tree.specs.Alternatives.{AreAsked};
ghost use Rattle.goal_space.specs.Goals.{IsGoal};
ghost use Rattle.goal_space.specs.Ranks.{rank_of};
ghost use Rattle.plan_report.specs.PlansAsked.{ArePlansAsked, AreLower, IsChosen, IsOver, IsRooted, goal_of};

use goal_space::{goals_are_known, ranks_fall};
use plan_space::NodeKind;
use plan_tree::{Alt, Node, alternative_in, asked_by};
use query_core::{Key, KeyParts, PhysicalExpr, Query};
use request_props::{Props, Request};
use xform_rules::members_are_candidates;

/// A group, and what is asked of a plan of it.
#[derive(Clone, Copy)]
pub struct PlanAsked {
    pub group: KeyParts,
    pub wanted: Request,
}

/// What a node asks of the plans below it, of the left one first.
#[derive(Clone, Copy)]
pub enum PlansAsked {
    Zero,
    One(PlanAsked),
    Two(PlanAsked, PlanAsked),
}

/// What the node asks, which is at the root of the least plan.
pub fn plans_asked_at(query: &Query, props: &Props, at: PlanAsked, node: Node) -> PlansAsked
    requires props { IsProps query.now props.now }
    requires goal { IsGoal query.now (goal_of at) }
    requires chosen { (plan : Tree) × IsChosen query.now at node plan }
    ensures over { (plan : Tree) → IsChosen query.now at node plan → IsOver query.now result plan }
    ensures lower { AreLower query.now (rank_of (goal_of at)) result }
{
    // For the proof: an enforcer asks for what is a goal too.
    goals_are_known();
    ranks_fall();
    match node.kind() {
        Some(NodeKind::Native(expr, mode)) => plans_asked_by(query, props, at, expr, mode),
        Some(NodeKind::Enforcer(enforcer)) => PlansAsked::One(PlanAsked {
            group: at.group,
            wanted: asked_by(enforcer, at.wanted),
        }),
        None => unreachable!(),
    }
}

// What the expression in the mode asks.
fn plans_asked_by(
    query: &Query,
    props: &Props,
    at: PlanAsked,
    expr: PhysicalExpr,
    mode: u32,
) -> PlansAsked
    requires props { IsProps query.now props.now }
    requires goal { IsGoal query.now (goal_of at) }
    requires few { mode < node_modes }
    requires rooted { (plan : Tree) × IsRooted query.now at (Native expr mode) plan }
    ensures over { (plan : Tree) → IsRooted query.now at (Native expr mode) plan →
        IsOver query.now result plan }
    ensures lower { AreLower query.now (rank_of (goal_of at)) result }
{
    // For the proof: members are candidates, and what they ask for are goals of lesser ranks.
    members_are_candidates();
    goals_are_known();
    ranks_fall();
    match alternative_in(query, props, expr, at.wanted, mode) {
        Some(alt) => plans_asked_in(query, alt),
        None => unreachable!(),
    }
}

// What the alternative asks of the children.
fn plans_asked_in(query: &Query, alt: Alt) -> PlansAsked
    requires { (groups : List AnyKeyParts) × (wishes : List AnyRequest)
        × AreAsked query.now alt groups wishes }
    ensures { (groups : List AnyKeyParts) (wishes : List AnyRequest) → AreAsked query.now alt groups wishes →
        ArePlansAsked groups wishes result }
{
    match (alt.left, alt.right) {
        (Some(left), Some(right)) => PlansAsked::Two(plan_for(query, left), plan_for(query, right)),
        (Some(left), None) => PlansAsked::One(plan_for(query, left)),
        (None, _) => PlansAsked::Zero,
    }
}

fn plan_for(query: &Query, asked: (Key, Request)) -> PlanAsked
    requires { IsKey query.now asked.0 }
    ensures group { (g : AnyKeyParts) → NamesGroup query.now asked.0 g → result.group ≡ g }
    ensures wanted { result.wanted ≡ asked.1 }
{
    PlanAsked {
        group: query.group(asked.0),
        wanted: asked.1,
    }
}
