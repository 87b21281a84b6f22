//! Plans by cost, and then by the numbers of their nodes.
use plan_tree::Plan;
use std::alloc::{AllocError, Global};

// A plan's cost, and the numbers of its nodes, each before those below it.
#[derive(Debug, Drop, PartialEq, Eq)]
pub struct Ranked {
    pub cost: u64,
    pub code: Vec<u64>,
}

pub fn rank_of(alloc: Global, plan: &Plan, cost: u64) -> Result<Ranked, AllocError> {
    let mut code = Vec::new(alloc);
    push_code(plan, &mut code)?;
    Ok(Ranked { cost, code })
}

impl Ranked {
    // Whether it is less in cost, or at the same cost at the first number in which the codes differ.
    pub fn is_less(&self, other: &Ranked) -> bool {
        if self.cost != other.cost {
            return self.cost < other.cost;
        }
        for (number, its) in self.code.iter().zip(other.code.iter()) {
            if number != its {
                return number < its;
            }
        }
        false
    }
}

fn push_code(plan: &Plan, code: &mut Vec<u64>) -> Result<(), AllocError> {
    match plan {
        Plan::Leaf(node) => code.push(node.0)?,
        Plan::Over(node, kid) => {
            code.push(node.0)?;
            push_code(kid, code)?;
        }
        Plan::Two(node, left, right) => {
            code.push(node.0)?;
            push_code(left, code)?;
            push_code(right, code)?;
        }
    }
    Ok(())
}
