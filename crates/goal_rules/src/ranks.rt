//! The ranks of goals by their words.
#![tactic(auto)]

ghost use Rattle.std.specs.Prelude.{◌≡◌, ◌≤◌, ◌+◌};
ghost use Rattle.query_core.specs.Keys.{key_number, IsGroupInRange};
ghost use Rattle.request_props.specs.Requests.{dist_field as the_dist_field, order_field as the_order_field};
ghost use Rattle.goal_space.specs.Ranks.{order_rank as the_order_rank};
ghost use Rattle.goal_rules.specs.WordRanks.{dist_rank_by, expr_level_by, level_by, rank_of_word as the_rank_of_word};

use goal_space::table_count;
use query_core::{Expr, Goal, GoalParts, Key, KeyParts};
use request_props::{Dist, dist_code, dist_field, order_field};

/// The rank of the goal of this word.
pub fn rank_of_word(word: u64) -> u64
    ensures { result ≡ the_rank_of_word word }
{
    match Goal(word).fields() {
        GoalParts::Exp(key) => 100 * level(key) as u64 + 20,
        GoalParts::ExpE(expr) => 100 * expr_level(expr) as u64 + 10,
        GoalParts::Xf(expr, _) => 100 * expr_level(expr) as u64,
        GoalParts::Imp(key) => 100 * level(key) as u64 + 40,
        GoalParts::ImpE(expr) => 100 * expr_level(expr) as u64 + 30,
        GoalParts::Opt(key, request) => 100 * level(key) as u64 + 60 + request_rank(request),
        GoalParts::OptE(expr, _) => 100 * expr_level(expr) as u64 + 50,
    }
}

// The level of the group of this key.
fn level(key: Key) -> u32
    ensures { result ≡ level_by key.0 }
{
    if key.0 < number_of_key(KeyParts::Filter(0)) {
        return 1;
    }
    if key.0 < number_of_key(KeyParts::Join(0)) {
        return 2;
    }
    if key.0 < number_of_key(KeyParts::Partial) {
        return 1 + table_count(key.0 - number_of_key(KeyParts::Join(0))) as u32;
    }
    12 + (key.0 - number_of_key(KeyParts::Partial))
}

// The number of the key of this group.
fn number_of_key(group: KeyParts) -> u32
    requires { IsGroupInRange group }
    ensures { result ≡ key_number group }
{
    Key::make(group).0
}

// The level of the group of this expression.
fn expr_level(expr: Expr) -> u32
    ensures { result ≡ expr_level_by expr.0 }
{
    level(expr.key_field())
}

// The rank of the request of this code.
fn request_rank(code: u32) -> u64
    ensures value { result ≡ dist_rank_by (the_dist_field code) + the_order_rank (the_order_field code) }
    ensures few { result ≤ 2 }
{
    let dist = if dist_field(code) == dist_code(Dist::Spread) {
        0
    } else {
        1
    };
    let order = if order_field(code) == 0 { 0 } else { 1 };
    dist + order
}
