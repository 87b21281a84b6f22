//! The codes of plans, by which plans of one cost are compared.
ghost use Rattle.std.specs.Prelude.{◌≡◌, ◌++◌, IfOk, OnOk};
ghost use Rattle.plan_space.specs.Nodes.{Tree, code_of as the_code_of};
ghost use Rattle.plan_tree.specs.Spells.{Spells};

use plan_tree::Plan;
use std::alloc::{AllocError, Global};

/// The numbers of a plan's nodes, each before those below it.
pub fn code_of(alloc: Global, plan: &Plan) -> Result<Vec<u64>, AllocError>
    ensures { IfOk result (λ code. (tree : Tree) → Spells plan.now tree →
        code.items ≡ the_code_of tree) }
{
    let mut code = Vec::new(alloc);
    push_code(plan, &mut code)?;
    Ok(code)
}

fn push_code(plan: &Plan, code: &mut Vec<u64>) -> Result<(), AllocError>
    ensures { OnOk result ((tree : Tree) → Spells plan.now tree →
        code.new.items ≡ code.old.items ++ the_code_of tree) }
{
    match plan {
        Plan::Leaf(node) => code.push(node.0)?,
        Plan::Over(node, kid) => {
            code.push(node.0)?;
            push_code(kid, code)?;
        }
        Plan::Two(node, left, right) => {
            code.push(node.0)?;
            push_code(left, code)?;
            push_code(right, code)?;
        }
    }
    Ok(())
}
