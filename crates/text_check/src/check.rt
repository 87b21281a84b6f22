//! The check of a text that is given.
#![tactic(auto)]

ghost use Rattle.std.specs.Prelude.{ℕ, ◌≡◌, ◌≤◌, List, Ok, Err, IfOk, IfErr, length};
ghost use Rattle.request_props.specs.Numbered.{IsProps};
ghost use Rattle.plan_space.specs.Nodes.{Tree};
ghost use Rattle.plan_tree.specs.Spells.{Spells};
ghost use Rattle.plan_check.specs.Outcome.{most_nodes};
ghost use Rattle.text_check.specs.Blocks.{AreLinesOf};
ghost use Rattle.text_check.specs.Outcome.{IsExactly, IsOutcome, HasLines, IsGoodText, IsTooLong, IsUnformed};
ghost use Rattle.text_check.specs.Outcome.{IsTooLarge};
ghost use Rattle.text_check.specs.Outcome.{HasMisfit, HasOutsider, HasUnfit, IsUnsatisfied, HasNumberFault};
ghost use Rattle.text_check.specs.Outcome.{AreOwnNumbers, IsNumberFault};

use crate::grow::plan_of;
use crate::laws::outcomes_are_one;
use crate::own::{OwnLine, own_lines};
use crate::passes::{first_other, first_outside};
use crate::text_fault::TextFault;
use plan_check::{PlanFault, check_plan};
use plan_reading::{Lines, plans_are_read, read_lines};
use plan_space::root_request_is_collected;
use plan_tree::{Plan, nodes_are_one};
use query_core::Query;
use request_props::Props;
use std::alloc::Global;

/// How many bytes a text may have.
const MOST_BYTES: usize = 1048576;

/// How many lines of nodes it may have.
const MOST_NODES: usize = 1000;

/// How many lines stand before those of nodes.
const FIRST_NODE: u32 = 2;

/// What the plan costs whose text this is, as it would be printed: a valid plan of the query's root,
/// of expressions to which the rules lead, that gives what is asked of the whole plan. Whether they
/// lead to one is asked without a memo.
pub fn check_text(
    alloc: Global,
    query: &Query,
    props: &Props,
    text: &[u8],
) -> Result<u64, TextFault>
    requires { IsProps query.now props.now }
    ensures outcome { IsOutcome query.now text.now result }

    // Each answer comes exactly where its cause holds. None before it in this order does then.
    ensures too_long { IsExactly result (Err TextFault.TooLong) (IsTooLong text.now) }
    ensures form { (line : ℕ) →
        IsExactly result (Err (TextFault.Form line)) (IsUnformed query.now text.now line) }
    ensures too_large { (nodes : ℕ) →
        IsExactly result (Err (TextFault.TooLarge nodes)) (IsTooLarge query.now text.now nodes) }
    ensures kids { (line : ℕ) →
        IsExactly result (Err (TextFault.Kids line)) (HasMisfit query.now text.now line) }
    ensures member { (line : ℕ) →
        IsExactly result (Err (TextFault.Member line)) (HasOutsider query.now text.now line) }
    ensures needs { (line : ℕ) →
        IsExactly result (Err (TextFault.Needs line)) (HasUnfit query.now text.now line) }
    ensures request { IsExactly result (Err TextFault.Request) (IsUnsatisfied query.now text.now) }
    ensures number { (line : ℕ) →
        IsExactly result (Err (TextFault.Number line)) (HasNumberFault query.now text.now line) }
    ensures ok { (cost : ℕ) → IsExactly result (Ok cost) (IsGoodText query.now text.now cost) }
{
    outcomes_are_one();
    outcome(alloc, query, props, text)
}

// The cost or the fault of the text.
fn outcome(alloc: Global, query: &Query, props: &Props, text: &[u8]) -> Result<u64, TextFault>
    requires { IsProps query.now props.now }
    ensures { IsOutcome query.now text.now result }
{
    if text.len() > MOST_BYTES {
        return Err(TextFault::TooLong);
    }
    let lines = read_lines(alloc, query, props, text)?;
    let nodes = lines.nodes.len();
    if nodes > MOST_NODES {
        return Err(TextFault::TooLarge {
            nodes: nodes as u64,
        });
    }
    let plan = plan_of(alloc, query, props, lines.nodes.as_slice())?;
    plan_outcome(alloc, query, props, &lines, &plan)
}

// The same of a plan of the query's root, but for its numbers.
fn plan_outcome(
    alloc: Global,
    query: &Query,
    props: &Props,
    lines: &Lines,
    plan: &Plan,
) -> Result<u64, TextFault>
    requires props { IsProps query.now props.now }
    requires few { length lines.now.nodes.items ≤ most_nodes }
    requires spelled { (t : Tree) × Spells plan.now t × AreLinesOf query.now lines.now.nodes.items t }
    ensures { (text : List ℕ) → HasLines query.now text lines.now.cost lines.now.nodes.items →
        IsOutcome query.now text result }
{
    // For the proof: the plan is one tree, and its text is read as its own lines.
    nodes_are_one();
    plans_are_read();
    root_request_is_collected();
    let own = own_lines(alloc, query, props, plan)?;
    if let Some(place) = first_outside(query, own.as_slice()) {
        return Err(TextFault::Member {
            line: FIRST_NODE + place,
        });
    }
    match check_plan(query, props, plan, props.root) {
        Ok(cost) => number_outcome(lines, own.as_slice(), cost),
        Err(PlanFault::Needs { node }) => Err(TextFault::Needs {
            line: FIRST_NODE + node,
        }),
        Err(PlanFault::Unsatisfied) => Err(TextFault::Request),
        Err(PlanFault::TooLarge { .. }) => unreachable!(),
        Err(PlanFault::Shape { .. }) => unreachable!(),
        Err(PlanFault::Kids { .. }) => unreachable!(),
    }
}

// The same by the numbers of a plan that has this cost and these lines.
fn number_outcome(lines: &Lines, own: &[OwnLine], cost: u64) -> Result<u64, TextFault>
    requires few { length own.now ≤ most_nodes }
    requires as_many { length lines.now.nodes.items ≡ length own.now }
    ensures ok { IfOk result (λ found. (found ≡ cost)
        × AreOwnNumbers lines.now.cost lines.now.nodes.items cost own.now) }
    ensures fault { IfErr result
        (IsNumberFault lines.now.cost lines.now.nodes.items cost own.now) }
{
    if lines.cost != cost {
        return Err(TextFault::Number { line: 0 });
    }
    match first_other(lines.nodes.as_slice(), own) {
        Some(place) => Err(TextFault::Number {
            line: FIRST_NODE + place,
        }),
        None => Ok(cost),
    }
}
