//! The answers that the engine finds to the goals of small queries, beside what the plain search finds, and the plans
//! made of them.

ghost use Rattle.std.specs.Prelude.{All};
ghost use Rattle.request_props.specs.Numbered.{IsProps};
ghost use Rattle.goal_space.specs.Answers.{TellsAnswer};

use crate::searches::search;
use goal_children::known_goal;
use goal_space::{GoalKind, goals_are_known};
use plan_report::{extract, plan_text};
use plan_search::{plain_least, plain_least_of};
use plan_tree::{Answered, Found, Node, Plan};
use query_core::Query;
use request_props::Props;
use std::alloc::{AllocError, Global};
use std::process::Abort;
use std::test::Fail;
use worked_queries::{
    chain, grouped, implied, large_and_small, one_table, two_tables, without_a_plan,
};

fn root_of(plan: &Plan) -> Node {
    match plan {
        Plan::Leaf(node) => *node,
        Plan::Over(node, _) => *node,
        Plan::Two(node, _, _) => *node,
    }
}

// What the least plan costs and its root, where the plain search finds one.
fn pair_of(found: &Found) -> (Option<u64>, Node) {
    match found {
        Found::Least { plan, cost } => (Some(*cost), root_of(plan)),
        Found::NoPlan => (None, Node(0)),
    }
}

// Whether the answer is what the plain search finds, if its goal is that of a group for a request.
fn is_plain_answer(
    alloc: Global,
    query: &Query,
    props: &Props,
    told: Answered,
) -> Result<bool, AllocError>
    requires props { IsProps query.now props.now }
    requires answer { TellsAnswer query.now told }
{
    // For the proof: the goal has a word, and its request fits the group.
    goals_are_known();
    match known_goal(told.goal) {
        GoalKind::Opt(group, wanted) => {
            let found = plain_least_of(alloc, query, props, group, wanted)?;
            Ok((told.cost, told.node) == pair_of(&found))
        }
        _ => Ok(true),
    }
}

// Whether all of these are.
fn are_plain_answers(
    alloc: Global,
    query: &Query,
    props: &Props,
    answers: &[Answered],
) -> Result<bool, AllocError>
    requires props { IsProps query.now props.now }
    requires answers { All (TellsAnswer query.now) answers.now }
{
    let mut same = true;
    for told in answers {
        if !is_plain_answer(alloc, query, props, *told)? {
            same = false;
        }
    }
    Ok(same)
}

// Whether all answers of the query are.
fn has_plain_answers(alloc: Global, query: &Query, props: &Props) -> Result<bool, Fail>
    requires { IsProps query.now props.now }
{
    let found = search(alloc, query, props)?;
    Ok(are_plain_answers(alloc, query, props, found.answers.list.as_slice())?)
}

fn assert_plain_answers(
    rt: &impl Abort,
    alloc: Global,
    query: Result<Query, Fail>,
) -> Result<(), Fail> {
    let (query, props) = implied(alloc, query?)?;
    assert!(rt; has_plain_answers(alloc, &query, &props)?);
    Ok(())
}

// The text of the plan that is made of the answers, and of the one that the plain search finds.
fn both_texts(alloc: Global, query: &Query, props: &Props) -> Result<(Vec<u8>, Vec<u8>), Fail>
    requires { IsProps query.now props.now }
{
    let found = search(alloc, query, props)?;
    let extracted = extract(alloc, query, props, &found.searched)?;
    let text = plan_text(alloc, query, props, &extracted)?;
    let least = plain_least(alloc, query, props)?;
    Ok((text, plan_text(alloc, query, props, &least)?))
}

// Both of a query.
fn texts_of(alloc: Global, query: Result<Query, Fail>) -> Result<(Vec<u8>, Vec<u8>), Fail> {
    let (query, props) = implied(alloc, query?)?;
    both_texts(alloc, &query, &props)
}

// Asserts that both are one text, which begins so.
fn assert_one_text(
    rt: &impl Abort,
    alloc: Global,
    query: Result<Query, Fail>,
    start: &str,
) -> Result<(), Fail> {
    let (extracted, plain) = texts_of(alloc, query)?;
    assert!(rt; extracted == plain && extracted.starts_with(start.as_bytes()));
    Ok(())
}

#[test]
fn best_pairs_are_those_of_the_plain_search(rt: HostRuntime) -> Result<(), Fail> {
    let alloc = rt.alloc();
    assert_plain_answers(&rt, alloc, one_table(alloc, 100))?;
    assert_plain_answers(&rt, alloc, large_and_small(alloc))?;
    assert_plain_answers(&rt, alloc, two_tables(alloc))?;
    assert_plain_answers(&rt, alloc, chain(alloc))?;
    assert_plain_answers(&rt, alloc, grouped(alloc))?;
    assert_plain_answers(&rt, alloc, without_a_plan(alloc))
}

#[test]
fn the_least_plan_is_made_of_the_answers(rt: HostRuntime) -> Result<(), Fail> {
    let alloc = rt.alloc();
    assert_one_text(&rt, alloc, one_table(alloc, 100), "cost ")?;
    assert_one_text(&rt, alloc, large_and_small(alloc), "cost ")?;
    assert_one_text(&rt, alloc, chain(alloc), "cost ")?;
    assert_one_text(&rt, alloc, grouped(alloc), "cost ")
}

// The worked example of two tables that are joined in an order.
#[test]
fn an_order_is_made_on_each_segment_and_kept_by_the_merge(rt: HostRuntime) -> Result<(), Fail> {
    let alloc = rt.alloc();
    assert_one_text(&rt, alloc, two_tables(alloc), "cost 7506\n")
}

#[test]
fn no_plan_is_made_where_there_is_none(rt: HostRuntime) -> Result<(), Fail> {
    let alloc = rt.alloc();
    let (extracted, plain) = texts_of(alloc, without_a_plan(alloc))?;
    assert!(rt; extracted == plain && extracted.as_slice() == "no plan\n".as_bytes());
    Ok(())
}
