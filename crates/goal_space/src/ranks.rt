//! The ranks of goals.
#![tactic(auto)]

ghost use Rattle.std.specs.Prelude.{◌≡◌, ◌≤◌, ◌<◌};
ghost use Rattle.query_core.specs.Sets.{bit as the_bit};
ghost use Rattle.xform_rules.specs.Counts.{table_count as the_table_count};
ghost use Rattle.goal_space.specs.Ranks.{asked_rank as the_asked_rank, dist_rank as the_dist_rank};
ghost use Rattle.goal_space.specs.Ranks.{kind_rank as the_kind_rank, level_of, order_rank as the_order_rank};
ghost use Rattle.goal_space.specs.Ranks.{rank_of};

use crate::goals::GoalKind;
use plan_space::motion_to;
use query_core::{KeyParts, sets};
use request_props::Dist;

/// The rank of the goal.
pub fn rank(goal: GoalKind) -> u64
    ensures value { result ≡ rank_of goal }
    ensures few { result < 2000 }
{
    100 * level(goal.group()) + 10 * kind_rank(goal) + asked_rank(goal)
}

// The level of the group.
fn level(group: KeyParts) -> u64
    ensures value { result ≡ level_of group }
    ensures few { result ≤ 13 }
{
    match group {
        KeyParts::Get(_) => 1,
        KeyParts::Filter(_) => 2,
        KeyParts::Join(set) => 1 + table_count(set),
        KeyParts::Partial => 12,
        KeyParts::Agg => 13,
    }
}

/// How many of the first ten tables the set has.
pub fn table_count(set: u32) -> u64
    ensures value { result ≡ the_table_count set }
    ensures few { result ≤ 10 }
{
    bit(set, 0)
        + bit(set, 1)
        + bit(set, 2)
        + bit(set, 3)
        + bit(set, 4)
        + bit(set, 5)
        + bit(set, 6)
        + bit(set, 7)
        + bit(set, 8)
        + bit(set, 9)
}

fn bit(set: u32, table: u32) -> u64
    ensures value { result ≡ the_bit set table }
    ensures few { result ≤ 1 }
{
    if sets::has(set, table) { 1 } else { 0 }
}

// The rank of the goal among those of its group.
fn kind_rank(goal: GoalKind) -> u64
    ensures value { result ≡ the_kind_rank goal }
    ensures few { result ≤ 6 }
{
    match goal {
        GoalKind::Xf(_, _) => 0,
        GoalKind::ExpE(_) => 1,
        GoalKind::Exp(_) => 2,
        GoalKind::ImpE(_) => 3,
        GoalKind::Imp(_) => 4,
        GoalKind::OptE(_, _) => 5,
        GoalKind::Opt(_, _) => 6,
    }
}

// The rank of what is asked of the group.
fn asked_rank(goal: GoalKind) -> u64
    ensures value { result ≡ the_asked_rank goal }
    ensures few { result ≤ 2 }
{
    match goal {
        GoalKind::Opt(_, wanted) => dist_rank(wanted.dist) + order_rank(wanted.order),
        GoalKind::Exp(_) => 0,
        GoalKind::ExpE(_) => 0,
        GoalKind::Xf(_, _) => 0,
        GoalKind::Imp(_) => 0,
        GoalKind::ImpE(_) => 0,
        GoalKind::OptE(_, _) => 0,
    }
}

fn dist_rank(dist: Dist) -> u64
    ensures value { result ≡ the_dist_rank dist }
    ensures few { result ≤ 1 }
{
    match motion_to(dist) {
        None => 0,
        Some(_) => 1,
    }
}

fn order_rank(order: u32) -> u64
    ensures value { result ≡ the_order_rank order }
    ensures few { result ≤ 1 }
{
    if order == 0 { 0 } else { 1 }
}
