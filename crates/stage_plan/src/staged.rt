//! What stages give.
use orca_base::List;
use plan_tree::Plan;

/// The answer of stages.
#[derive(Drop)]
pub enum Staged {
    /// The plan of the stage that was enough, or else the least plan of all stages that ran, with the number of the
    /// first stage that has it, from 0.
    Least { stage: u32, plan: Plan, cost: u64 },
    /// No stage that ran has a plan.
    NoPlan,
    /// In the stage of this number the query has more entries than the capacity.
    Full { stage: u32 },
}

/// The answer of stages, and of each stage that ran the cost of its least plan, or that there is none. A stage in which
/// the query has too many entries has no cost.
#[derive(Drop)]
pub struct StagedRun {
    pub found: Staged,
    pub ran: List<Option<u64>>,
}
