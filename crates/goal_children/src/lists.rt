//! All children of a goal, as a list.
#![tactic(auto)]

ghost use Rattle.std.specs.Prelude.{◌≡◌, OnOk};
ghost use Rattle.std.specs.List.{All};
ghost use Rattle.std.specs.List.Sorted.{IsStrictlyIncreasing};
ghost use Rattle.query_core.specs.Keys.{IsGroup};
ghost use Rattle.query_core.specs.Expressions.{IsCandidateWord};
ghost use Rattle.request_props.specs.Numbered.{IsProps};
ghost use Rattle.goal_space.specs.Words.{IsGoalInRange};
ghost use Rattle.goal_children.specs.Over.{IsGoalOver};
ghost use Rattle.goal_children.specs.Memo.{IsListedMemo};
ghost use Rattle.goal_children.specs.Children.{AreChildren, IsChildIn};
ghost use Rattle.goal_children.specs.Choices.{IsBesideMembers};
ghost use Rattle.goal_children.specs.Finding.{AppendsGoals};
ghost use Rattle.goal_children.specs.GroupMembers.{AreHeldFor};

use crate::asked::{insert_asked, insert_enforced};
use crate::expressions::{insert_left, insert_transformed};
use crate::group_members::GroupMembers;
use crate::jobs::MemberJob;
use crate::laws::children_are_over_the_query;
use crate::members::push_member_goals;
use crate::memo::Memo;
use goal_space::{GoalKind, Phase, goal_kinds_are_one};
use query_core::{KeyParts, Query, candidates_are_known, groups_are_known};
use request_props::{Props, Request};
use std::alloc::AllocError;

/// Puts the children of the goal into the list, ascending by their words, in place of what it held. The members of a
/// group are held for its next goal, since goals of one group for its requests come one after the other.
pub fn list_children_by_group(
    query: &Query,
    props: &Props,
    members: &[u64],
    goal: GoalKind,
    held: &mut GroupMembers,
    list: &mut Vec<GoalKind>,
) -> Result<(), AllocError>
    requires props { IsProps query.now props.now }
    requires candidates { All (IsCandidateWord query.now) members.now }
    requires ascending { IsStrictlyIncreasing members.now }
    requires goal { IsGoalOver query.now goal }
    requires held { AreHeldFor members.now held.old }
    ensures ok { OnOk result (AreChildren query.now members.now goal list.new.items) }
    ensures held { OnOk result (AreHeldFor members.now held.new) }
{
    list.clear();
    let memo = Memo {
        query,
        props,
        members,
    };
    add_children(memo, goal, held, list)
}

// Adds the children of the goal: the table of children, one row a kind of goal.
fn add_children(
    memo: Memo<'_>,
    goal: GoalKind,
    held: &mut GroupMembers,
    goals: &mut Vec<GoalKind>,
) -> Result<(), AllocError>
    requires memo { IsListedMemo memo }
    requires goal { IsGoalOver memo.query.now goal }
    requires held { AreHeldFor memo.members.now held.old }
    requires listed { All IsGoalInRange goals.old.items }
    ensures ok { OnOk result (AppendsGoals (IsChildIn memo.entry.query.now memo.entry.members.now goal)
        goals.old.items goals.new.items) }
    ensures held { OnOk result (AreHeldFor memo.entry.members.now held.new) }
{
    // For the proof: the words of candidates fit.
    candidates_are_known();
    let query = memo.query;
    match goal {
        GoalKind::Exp(group) => {
            let job = MemberJob::Transform(Phase::Exploration);
            push_member_goals(memo, group, job, held, goals)
        }
        GoalKind::ExpE(e) => insert_transformed(query, e, Phase::Exploration, goals),
        GoalKind::Xf(e, rule) => insert_left(e, rule, goals),
        GoalKind::Imp(group) => add_implemented(memo, group, held, goals),
        GoalKind::ImpE(e) => insert_transformed(query, e, Phase::Implementation, goals),
        GoalKind::Opt(group, wanted) => add_chosen(memo, group, wanted, held, goals),
        GoalKind::OptE(e, wanted) => insert_asked(memo, e, wanted, goals),
    }
}

// Adds the children of the implementation of a group.
fn add_implemented(
    memo: Memo<'_>,
    group: KeyParts,
    held: &mut GroupMembers,
    goals: &mut Vec<GoalKind>,
) -> Result<(), AllocError>
    requires memo { IsListedMemo memo }
    requires known { IsGroup memo.query.now group }
    requires held { AreHeldFor memo.members.now held.old }
    ensures ok { OnOk result (AppendsGoals
        (IsChildIn memo.entry.query.now memo.entry.members.now (GoalKind.Imp group))
        goals.old.items goals.new.items) }
    ensures held { OnOk result (AreHeldFor memo.entry.members.now held.new) }
{
    // For the proof: groups have keys, and words fit.
    groups_are_known();
    goal_kinds_are_one();
    // Words go by kind: the group's exploration, and then its members.
    goals.push(GoalKind::Exp(group))?;
    let job = MemberJob::Transform(Phase::Implementation);
    push_member_goals(memo, group, job, held, goals)?;
    Ok(())
}

// Adds the children of a group for a request.
fn add_chosen(
    memo: Memo<'_>,
    group: KeyParts,
    wanted: Request,
    held: &mut GroupMembers,
    goals: &mut Vec<GoalKind>,
) -> Result<(), AllocError>
    requires memo { IsListedMemo memo }
    requires goal { IsGoalOver memo.query.now (GoalKind.Opt group wanted) }
    requires held { AreHeldFor memo.members.now held.old }
    requires listed { All IsGoalInRange goals.old.items }
    ensures ok { OnOk result (AppendsGoals
        (IsChildIn memo.entry.query.now memo.entry.members.now (GoalKind.Opt group wanted))
        goals.old.items goals.new.items) }
    ensures held { OnOk result (AreHeldFor memo.entry.members.now held.new) }
{
    // For the proof: groups have keys, and children have words that fit.
    groups_are_known();
    goal_kinds_are_one();
    children_are_over_the_query();
    // Words go by kind: those beside the group's members, and then these.
    add_beside(memo, group, wanted, goals)?;
    push_member_goals(memo, group, MemberJob::Serve(wanted), held, goals)?;
    Ok(())
}

// Adds what a group waits for beside its members: its implementation, and its other requests.
fn add_beside(
    memo: Memo<'_>,
    group: KeyParts,
    wanted: Request,
    goals: &mut Vec<GoalKind>,
) -> Result<(), AllocError>
    requires memo { IsListedMemo memo }
    requires goal { IsGoalOver memo.query.now (GoalKind.Opt group wanted) }
    requires listed { All IsGoalInRange goals.old.items }
    ensures ok { OnOk result (AppendsGoals (IsBesideMembers memo.entry.query.now group wanted)
        goals.old.items goals.new.items) }
{
    // For the proof: groups have keys, and words fit.
    groups_are_known();
    goal_kinds_are_one();
    goals.push(GoalKind::Imp(group))?;
    insert_enforced(memo, group, wanted, goals)?;
    Ok(())
}
