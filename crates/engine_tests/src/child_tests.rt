//! The children of each goal of a table that is read, by their places.

ghost use Rattle.std.specs.Prelude.{All};
ghost use Rattle.std.specs.List.Sorted.{IsStrictlyIncreasing};
ghost use Rattle.query_core.specs.Expressions.{IsCandidateWord};
ghost use Rattle.request_props.specs.Numbered.{IsProps};
ghost use Rattle.goal_children.specs.Over.{AreGoalWords, IsGoalWordOver};

use crate::searches::search;
use goal_children::{child, goal_lists_are_known};
use orca_base::List;
use query_core::{Goal, Query};
use request_props::Props;
use std::alloc::{AllocError, Global};
use std::test::Fail;
use worked_queries::{SCAN_ROOT, implied, one_table};
use xform_rules::members_are_known;

// The words of a goal's first three children.
type FirstThree = (Option<u64>, Option<u64>, Option<u64>);

fn child_word(query: &Query, props: &Props, members: &[u64], goal: u64, n: u32) -> Option<u64>
    requires props { IsProps query.now props.now }
    requires candidates { All (IsCandidateWord query.now) members.now }
    requires ascending { IsStrictlyIncreasing members.now }
    requires goal { IsGoalWordOver query.now goal }
{
    Some(child(query, props, members, Goal(goal), n)?.0)
}

// Adds the first children of each goal.
fn push_children(
    query: &Query,
    props: &Props,
    members: &[u64],
    goals: &[u64],
    children: &mut Vec<FirstThree>,
) -> Result<(), AllocError>
    requires props { IsProps query.now props.now }
    requires candidates { All (IsCandidateWord query.now) members.now }
    requires ascending { IsStrictlyIncreasing members.now }
    requires goals { AreGoalWords query.now goals.now }
{
    for goal in goals {
        children.push((
            child_word(query, props, members, *goal, 0),
            child_word(query, props, members, *goal, 1),
            child_word(query, props, members, *goal, 2),
        ))?;
    }
    Ok(())
}

// The goals of the query, and the first children of each.
fn goals_with_children(
    alloc: Global,
    query: &Query,
    props: &Props,
) -> Result<(List<u64>, Vec<FirstThree>), Fail>
    requires { IsProps query.now props.now }
{
    // For the proof: members are words of candidates, and goals those of goals over the query.
    members_are_known();
    goal_lists_are_known();
    let found = search(alloc, query, props)?;
    let members = found.members.as_slice();
    let mut children = Vec::new(alloc);
    push_children(query, props, members, found.goals.as_slice(), &mut children)?;
    Ok((found.goals, children))
}

// Whether these are the eight goals, Exp, ExpE, Xf, Imp and ImpE, Opt in one segment and on each, and OptE, with the
// children that each has.
fn are_those_of_a_table(goals: &[u64], children: &[FirstThree]) -> bool {
    match goals {
        [exp, exp_e, xf, imp, imp_e, opt_one, opt_spread, opt_e] => {
            let expected = [
                (Some(*exp_e), None, None),
                (None, None, None),
                (None, None, None),
                (Some(*exp), Some(*imp_e), None),
                (Some(*xf), None, None),
                (Some(*imp), Some(*opt_spread), None),
                (Some(*imp), Some(*opt_e), None),
                (None, None, None),
            ];
            *opt_one == SCAN_ROOT && children == expected.as_slice()
        }
        _ => false,
    }
}

#[test]
fn a_child_is_given_by_its_place_among_the_words(rt: HostRuntime) -> Result<(), Fail> {
    let (query, props) = implied(rt.alloc(), one_table(rt.alloc(), 1)?)?;
    let (goals, children) = goals_with_children(rt.alloc(), &query, &props)?;
    assert!(rt; are_those_of_a_table(goals.as_slice(), &children));
    Ok(())
}
