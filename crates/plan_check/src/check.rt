//! The check of a plan that is given. No call here takes memory.
#![tactic(auto)]

ghost use Rattle.std.specs.Prelude.{ℕ, ◌≡◌, ◌↔◌, Ok, Err};
ghost use Rattle.request_props.specs.Numbered.{IsProps};
ghost use Rattle.plan_check.specs.Outcome.{IsGood, IsTooLarge, HasShapeFault, HasKidsFault, HasNeedsFault};
ghost use Rattle.plan_check.specs.Outcome.{IsUnsatisfied, IsOutcome};

use crate::fault::PlanFault;
use crate::walk::{count, walk};
use plan_tree::{Plan, given_satisfies, nodes_are_one};
use query_core::Query;
use request_props::{Props, Request};

/// How many nodes a plan may have.
const MOST_NODES: u64 = 1000;

/// What the plan costs, if it is one of the query that meets the request. The whole plan is looked
/// through for a fault of one kind before the next. Whether the rules lead to its expressions isn't
/// asked.
pub fn check_plan(
    query: &Query,
    props: &Props,
    plan: &Plan,
    request: Request,
) -> Result<u64, PlanFault>
    requires { IsProps query.now props.now }
    ensures ok { (cost : ℕ) →
        (result ≡ Ok cost) ↔ IsGood query.now plan.now request cost }

    // The faults, in the order in which they are looked for.
    ensures too_large { (nodes : ℕ) →
        (result ≡ Err (PlanFault.TooLarge nodes)) ↔ IsTooLarge plan.now nodes }
    ensures shape { (node : ℕ) →
        (result ≡ Err (PlanFault.Shape node)) ↔ HasShapeFault query.now plan.now node }
    ensures kids { (node : ℕ) →
        (result ≡ Err (PlanFault.Kids node)) ↔ HasKidsFault query.now plan.now node }
    ensures needs { (node : ℕ) →
        (result ≡ Err (PlanFault.Needs node)) ↔ HasNeedsFault query.now plan.now node }
    ensures unsatisfied { (result ≡ Err PlanFault.Unsatisfied) ↔
        IsUnsatisfied query.now plan.now request }
{
    // For the proof: no two nodes have one number, so the plan is one tree.
    nodes_are_one();
    outcome(query, props, plan, request)
}

// The cost or the fault of the plan.
fn outcome(query: &Query, props: &Props, plan: &Plan, request: Request) -> Result<u64, PlanFault>
    requires { IsProps query.now props.now }
    ensures { IsOutcome query.now plan.now request result }
{
    let nodes = count(plan);
    if nodes > MOST_NODES {
        return Err(PlanFault::TooLarge { nodes });
    }
    let walked = walk(query, props, plan);
    let findings = walked.findings;
    if let Some(node) = findings.unknown {
        return Err(PlanFault::Shape { node });
    }
    if let Some(node) = findings.wrong {
        return Err(PlanFault::Kids { node });
    }
    if let Some(node) = findings.unfit {
        return Err(PlanFault::Needs { node });
    }
    if given_satisfies(query, props, walked.kid.given, request) {
        Ok(findings.cost)
    } else {
        Err(PlanFault::Unsatisfied)
    }
}
