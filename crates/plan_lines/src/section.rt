//! The text of a plan: its cost, the query's output, and a line for each node.
#![tactic(auto)]

ghost use Rattle.std.specs.Prelude.{◌≡◌, ◌++◌, IfOk, OnOk, string_bytes};
ghost use Rattle.std.specs.List.{concat};
ghost use Rattle.request_props.specs.Numbered.{IsProps};
ghost use Rattle.plan_lines.specs.Text as texts;
ghost use Rattle.plan_lines.specs.Found.{IsFoundText, IsLeastText};
ghost use Rattle.plan_lines.specs.Lines.{IsLinesText};

use crate::lines::push_plan;
use plan_tree::{Found, Plan};
use query_core::{OutItem, Query};
use query_text::computed_text;
use request_props::Props;
use std::alloc::{AllocError, Global};
use xform_rules::members_are_candidates;

/// The bytes of a plan's text, each line with its newline.
pub fn plan_text(
    alloc: Global,
    query: &Query,
    props: &Props,
    found: &Found,
) -> Result<Vec<u8>, AllocError>
    requires { IsProps query.now props.now }
    ensures { IfOk result (λ text. IsFoundText query.now found.now text.items) }
{
    match found {
        Found::Least { plan, cost } => least_text(alloc, query, props, plan, *cost),
        Found::NoPlan => no_plan_text(alloc),
    }
}

fn no_plan_text(alloc: Global) -> Result<Vec<u8>, AllocError>
    ensures { IfOk result (λ text. text.items ≡ concat texts.no_plan_section) }
{
    "no plan\n".as_bytes().to_vec(alloc)
}

fn least_text(
    alloc: Global,
    query: &Query,
    props: &Props,
    plan: &Plan,
    cost: u64,
) -> Result<Vec<u8>, AllocError>
    requires { IsProps query.now props.now }
    ensures { IfOk result (λ text. IsLeastText query.now plan.now cost text.items) }
{
    members_are_candidates();
    let mut text = first_lines(alloc, query, cost)?;
    let lines = lines_text(alloc, query, props, plan)?;
    text.extend_from_slice(lines.as_slice())?;
    Ok(text)
}

// The lines of the nodes.
fn lines_text(
    alloc: Global,
    query: &Query,
    props: &Props,
    plan: &Plan,
) -> Result<Vec<u8>, AllocError>
    requires { IsProps query.now props.now }
    ensures { IfOk result (λ text. IsLinesText query.now plan.now text.items) }
{
    let mut text = Vec::new(alloc);
    push_plan(alloc, query, props, "", plan, &mut text)?;
    text.as_mut_slice().reverse();
    Ok(text)
}

// The line of the cost, and that of the output.
fn first_lines(alloc: Global, query: &Query, cost: u64) -> Result<Vec<u8>, AllocError>
    ensures { IfOk result (λ text.
        text.items ≡ texts.cost_line cost ++ texts.output_line query.now) }
{
    let output = output_line(alloc, query)?;
    let lines = format!(in alloc; "cost {cost}\n{output}")?;
    let mut text = Vec::new(alloc);
    text.extend_from_slice(lines.as_bytes())?;
    Ok(text)
}

/// The line of the query's output, with its newline.
pub fn output_line(alloc: Global, query: &Query) -> Result<String, AllocError>
    ensures { IfOk result (λ line. string_bytes line ≡ texts.output_line query.now) }
{
    let outputs = outputs_text(alloc, query, query.output.as_slice())?;
    Ok(format!(in alloc; "output {outputs}\n")?)
}

// The items of the output with a comma and a space between each two.
fn outputs_text(alloc: Global, query: &Query, output: &[OutItem]) -> Result<String, AllocError>
    ensures { IfOk result (λ text. string_bytes text ≡ texts.outputs_text query.now output.now) }
{
    match output.split_first() {
        Some((first, others)) => {
            let mut text = output_item_text(alloc, query, first)?;
            push_outputs(alloc, query, others, &mut text)?;
            Ok(text)
        }
        None => Ok(String::new(alloc)),
    }
}

// Adds the items, each with a comma and a space in front.
fn push_outputs(
    alloc: Global,
    query: &Query,
    output: &[OutItem],
    text: &mut String,
) -> Result<(), AllocError>
    ensures ok { OnOk result
        (string_bytes text.new ≡ string_bytes text.old ++ texts.other_outputs_text query.now output.now) }
{
    for out in output {
        let item = output_item_text(alloc, query, out)?;
        text.push_str(", ")?;
        text.push_str(&item)?;
    }
    Ok(())
}

// A column or an aggregate, and its output name where it has one.
fn output_item_text(alloc: Global, query: &Query, out: &OutItem) -> Result<String, AllocError>
    ensures { IfOk result (λ text. string_bytes text ≡ texts.output_item_text query.now out.now) }
{
    let mut text = computed_text(alloc, query, out.item)?;
    if let Some(name) = &out.name {
        text.push_str(" AS ")?;
        text.push_str(name.as_str())?;
    }
    Ok(text)
}
