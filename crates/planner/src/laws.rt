//! What the nodes of a plan tell of it.
#![tactic(auto)]

ghost use Rattle.std.specs.Prelude.{◌≡◌};
ghost use Rattle.std.specs.List.{sum_by};
ghost use Rattle.query_core.specs.declared.query.Query.{Query};
ghost use Rattle.plan_space.specs.Cost.{cost_of};
ghost use Rattle.plan_space.specs.Nodes.{Tree};
ghost use Rattle.planner.specs.declared.node.PlanNode.{PlanNode as AnyPlanNode};
ghost use Rattle.planner.specs.Nodes.{nodes_of as the_nodes_of};

/// Two plans with the same nodes are one plan: nothing of a plan is lost.
pub fn nodes_tell_the_plan()
    ensures { (q : Query) (a b : Tree) → the_nodes_of q a ≡ the_nodes_of q b → a ≡ b }
{}

/// What the nodes cost by themselves is together what the plan costs.
pub fn costs_add_up()
    ensures { (q : Query) (tree : Tree) →
        sum_by (λ (node : AnyPlanNode). node.cost) (the_nodes_of q tree) ≡ cost_of q tree }
{}
