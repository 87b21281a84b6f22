//! The stages that have run so far, none of which was the last.
ghost use Rattle.std.specs.Prelude.{◌≡◌, ◌≤◌, ◌↔◌, [], ℕ, List as AnyList, IfOk, OnOk, IsTrue, length};
ghost use Rattle.query_core.specs.declared.query.Query.{Query};
ghost use Rattle.plan_space.specs.Nodes.{Tree};
ghost use Rattle.plan_space.specs.Least.{IsLess};
ghost use Rattle.query_stage.specs.declared.stage.Stage.{Stage as AnyStage};
ghost use Rattle.stage_plan.specs.StagedRuns.{IsStagedRun};
ghost use Rattle.stage_plan.specs.SoFar.{IsPlanOf, HaveRun, Keeps, TakesIn, staged_of};

use crate::codes::code_of;
use crate::staged::{Staged, StagedRun};
use orca_base::List;
use plan_space::least_is_one;
use plan_tree::{Found, Plan};
use query_stage::Stage;
use std::alloc::{AllocError, Global};

/// The least plan of a stage, its cost, and the number of the stage.
#[derive(Drop)]
pub struct Chosen {
    pub stage: u32,
    pub plan: Plan,
    pub cost: u64,
}

/// What the least plan of each stage costs, and the least of these plans.
#[derive(Drop)]
pub struct SoFar {
    pub ran: List<Option<u64>>,
    pub least: Option<Chosen>,
}

impl SoFar {
    /// Before the first stage.
    pub fn new(alloc: Global) -> SoFar
        ensures { (q : Query) (capacity : ℕ) → HaveRun q capacity [] result.ran result.least }
    {
        SoFar {
            ran: List::new(alloc),
            least: None,
        }
    }

    /// Takes in what was found in the next stage, which has this number. The answer, where no stage runs after it.
    pub fn take_in(
        &mut self,
        alloc: Global,
        stage: Stage,
        number: u32,
        found: Option<Found>,
    ) -> Result<Option<Staged>, AllocError>
        ensures { IfOk result (TakesIn self.old stage number found self.new) }
    {
        // For the proof: a stage has one least plan.
        least_is_one();
        match found {
            None => Ok(Some(Staged::Full { stage: number })),
            Some(Found::NoPlan) => {
                self.ran.push(None)?;
                Ok(None)
            }
            Some(Found::Least { plan, cost }) => {
                self.ran.push(Some(cost))?;
                let chosen = Chosen {
                    stage: number,
                    plan,
                    cost,
                };
                if stage.is_enough(cost) {
                    return Ok(Some(answer_of(chosen)));
                }
                keep_lesser(alloc, &mut self.least, chosen)?;
                Ok(None)
            }
        }
    }

    /// The answer where none of the stages was the last but for being the last one there is.
    pub fn end(self) -> StagedRun
        ensures { (q : Query) (capacity : ℕ) (stages : AnyList AnyStage) → 1 ≤ length stages →
            HaveRun q capacity stages self.ran self.least → IsStagedRun q capacity stages result }
    {
        let SoFar { ran, least } = self;
        StagedRun {
            found: answer_in(least),
            ran,
        }
    }
}

// The plan is the answer, if there is one.
fn answer_in(least: Option<Chosen>) -> Staged
    ensures { result ≡ staged_of least }
{
    match least {
        Some(chosen) => answer_of(chosen),
        None => Staged::NoPlan,
    }
}

fn answer_of(chosen: Chosen) -> Staged
    ensures { result ≡ Staged.Least chosen.stage chosen.plan chosen.cost }
{
    let Chosen { stage, plan, cost } = chosen;
    Staged::Least { stage, plan, cost }
}

// Keeps the lesser one of the two, and that of the earlier stage where neither is less.
fn keep_lesser(alloc: Global, least: &mut Option<Chosen>, chosen: Chosen) -> Result<(), AllocError>
    ensures { OnOk result (Keeps least.old chosen least.new) }
{
    let changes = match least {
        Some(kept) => is_less(alloc, &chosen, kept)?,
        None => true,
    };
    if changes {
        *least = Some(chosen);
    }
    Ok(())
}

// Whether the one plan costs less than the other, or the same with a code that comes first.
fn is_less(alloc: Global, one: &Chosen, other: &Chosen) -> Result<bool, AllocError>
    ensures { IfOk result (λ less. (q : Query) (plan its : Tree) →
        IsPlanOf q one.now plan → IsPlanOf q other.now its → IsTrue less ↔ IsLess q plan its) }
{
    if one.cost != other.cost {
        return Ok(one.cost < other.cost);
    }
    let code = code_of(alloc, &one.plan)?;
    let its = code_of(alloc, &other.plan)?;
    Ok(code.as_slice().cmp(&its.as_slice()).is_lt())
}
