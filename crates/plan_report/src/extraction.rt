//! The least plan of a query, made of the answers that a search gave to its goals.
#![tactic(auto)]

ghost use Rattle.std.specs.Prelude.{◌≡◌, IfOk};
ghost use Rattle.query_core.specs.declared.query.Query.{Query as AnyQuery};
ghost use Rattle.request_props.specs.Numbered.{IsProps};
ghost use Rattle.plan_space.specs.Nodes.{Tree};
ghost use Rattle.plan_tree.specs.Found.{IsFound};
ghost use Rattle.best_answers.specs.Best.{IsBest};
ghost use Rattle.best_answers.specs.Nodes.{all_nodes};
ghost use Rattle.goal_space.specs.Answers.{Tells};
ghost use Rattle.goal_space.specs.declared.goals.GoalKind.{GoalKind as AnyGoalKind};
ghost use Rattle.goal_space.specs.Goals.{IsGoal};
ghost use Rattle.plan_report.specs.Sources.{HasAnswers};
ghost use Rattle.plan_report.specs.PlansAsked.{IsLeastAt, IsLeastFor, goal_of};

use crate::plans_asked::{PlanAsked, PlansAsked, plans_asked_at};
use crate::source::AnswerSource;
use best_answers::{Best, answers_are_best, best_is_least};
use goal_space::{GoalKind, goal_kinds_are_one, goals_are_known};
use plan_space::{least_is_one, root_request_is_collected};
use plan_tree::{Answered, Found, Plan};
use query_core::Query;
use request_props::Props;
use std::alloc::{AllocError, Global};

/// The least plan of the query, or that there is none. It looks up the answers that the plan is made of, and no
/// others.
pub fn extract<S: AnswerSource>(
    alloc: Global,
    query: &Query,
    props: &Props,
    source: &S,
) -> Result<Found, AllocError>
    requires props { IsProps query.now props.now }
    requires answers { HasAnswers query.now (S.answers source.now) }
    ensures { IfOk result (IsFound query.now) }
{
    // For the proof: the root's goal is that of the whole query, and its answer is of the one least
    // plan.
    root_request_is_collected();
    goals_are_known();
    best_is_least();
    answers_are_best();
    least_is_one();
    let root = PlanAsked {
        group: query.group(query.root()),
        wanted: props.root,
    };
    match best_at(query, props, source, root) {
        Some(best) => Ok(Found::Least {
            plan: plan_at(alloc, query, props, source, root)?,
            cost: best.cost,
        }),
        None => Ok(Found::NoPlan),
    }
}

// The least plan of the group for the request: the node of its answer, over the plans that it is
// linked to.
fn plan_at<S: AnswerSource>(
    alloc: Global,
    query: &Query,
    props: &Props,
    source: &S,
    at: PlanAsked,
) -> Result<Plan, AllocError>
    requires props { IsProps query.now props.now }
    requires answers { HasAnswers query.now (S.answers source.now) }
    requires goal { IsGoal query.now (goal_of at) }
    requires there { (plan : Tree) × IsLeastAt query.now at plan }
    ensures { IfOk result (IsLeastFor query.now at) }
{
    // For the proof: the answer is that of the one least plan, which is a choice.
    goals_are_known();
    best_is_least();
    answers_are_best();
    least_is_one();
    match best_at(query, props, source, at) {
        Some(best) => match plans_asked_at(query, props, at, best.node) {
            PlansAsked::Zero => Ok(Plan::Leaf(best.node)),
            PlansAsked::One(below) => Ok(Plan::Over(
                best.node,
                Box::new(alloc, plan_at(alloc, query, props, source, below)?)?,
            )),
            PlansAsked::Two(left, right) => Ok(Plan::Two(
                best.node,
                Box::new(alloc, plan_at(alloc, query, props, source, left)?)?,
                Box::new(alloc, plan_at(alloc, query, props, source, right)?)?,
            )),
        },
        None => unreachable!(),
    }
}

// The answer to the goal of the group for the request.
fn best_at<S: AnswerSource>(query: &Query, props: &Props, source: &S, at: PlanAsked) -> Option<Best>
    requires props { IsProps query.now props.now }
    requires answers { HasAnswers query.now (S.answers source.now) }
    requires goal { IsGoal query.now (goal_of at) }
    ensures { IsBest query.now at.group at.wanted all_nodes result }
{
    // For the proof: the goal has a word, and no other goal has it.
    goals_are_known();
    goal_kinds_are_one();
    let goal = GoalKind::Opt(at.group, at.wanted).word();
    match source.answer(goal) {
        Some(told) => best_in(told),
        None => unreachable!(),
    }
}

// The answer that is told.
fn best_in(told: Answered) -> Option<Best>
    ensures { (q : AnyQuery) (goal : AnyGoalKind) → (tells : Tells q told goal) → result ≡ tells.answer }
{
    match told.cost {
        Some(cost) => Some(Best {
            cost,
            node: told.node,
        }),
        None => None,
    }
}
