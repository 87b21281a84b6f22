//! A plan that may be chosen: its root, its cost, and where the plans below it stand.
#![tactic(auto)]

ghost use Rattle.std.specs.Prelude.{◌≡◌, ◌≤◌, Some};
ghost use Rattle.cost_units.specs.Cost.{most_cost};
ghost use Rattle.plan_space.specs.Cost.{most_of_all};
ghost use Rattle.plan_search.specs.BestSoFar.{cheaper_of, choice_over};

use plan_tree::Node;

/// The places of the plans below a node.
#[derive(Clone, Copy)]
pub enum KidPlaces {
    Zero,
    One(u64),
    Two(u64, u64),
}

/// The plans below a node: where they stand, and what they cost together.
#[derive(Clone, Copy)]
pub struct KidPlans {
    pub kids: KidPlaces,
    pub cost: u64,
}

impl KidPlans {
    /// The node, which costs so much by itself, over these plans.
    pub fn under(self, node: Node, local: u64) -> Choice
        requires local { local ≤ most_cost }
        requires small { self.cost ≤ most_of_all }
        ensures { result ≡ choice_over node local self }
    {
        Choice {
            node,
            cost: local + self.cost,
            kids: self.kids,
        }
    }
}

/// A node over least plans.
#[derive(Clone, Copy)]
pub struct Choice {
    pub node: Node,
    pub cost: u64,
    pub kids: KidPlaces,
}

/// Takes the choice where it costs less than the best so far.
pub fn offer(best: &mut Option<Choice>, choice: Choice)
    ensures { best.new ≡ Some (cheaper_of best.old choice) }
{
    match best {
        Some(old) if old.cost <= choice.cost => {}
        _ => *best = Some(choice),
    }
}
