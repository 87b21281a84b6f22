//! Plans, made from what stands at places.
#![tactic(auto)]

ghost use Rattle.std.specs.Prelude.{IfOk};
ghost use Rattle.plan_space.specs.Nodes.{Tree};
ghost use Rattle.plan_tree.specs.Spells.{Spells};
ghost use Rattle.plan_search.specs.KeptPlans.{StandsAt};

use crate::choice::KidPlaces;
use crate::kept_plans::KeptPlans;
use plan_tree::Plan;
use std::alloc::{AllocError, Global};

/// The plan that stands at the place.
pub fn plan_at(alloc: Global, answers: &KeptPlans, place: u64) -> Result<Plan, AllocError>
    requires { (tree : Tree) × StandsAt answers.now place tree }
    ensures { IfOk result (λ plan. (tree : Tree) → StandsAt answers.now place tree →
        Spells plan tree) }
{
    match answers.kept(place) {
        Some(kept) => match kept.kids {
            KidPlaces::Zero => Ok(Plan::Leaf(kept.node)),
            KidPlaces::One(below) => Ok(Plan::Over(
                kept.node,
                Box::new(alloc, plan_at(alloc, answers, below)?)?,
            )),
            KidPlaces::Two(first, second) => Ok(Plan::Two(
                kept.node,
                Box::new(alloc, plan_at(alloc, answers, first)?)?,
                Box::new(alloc, plan_at(alloc, answers, second)?)?,
            )),
        },
        None => unreachable!(),
    }
}
