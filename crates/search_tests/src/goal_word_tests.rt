//! The words of goals at worked examples.

ghost use Rattle.goal_space.specs.Words.{IsGoalInRange};

use goal_space::GoalKind;
use query_core::{ExprParts, Goal, KeyParts, Logical, Physical, PhysicalExpr};
use request_props::{Dist, Request};
use std::process::Abort;
use xform_rules::Rule;

fn has_word(rt: &impl Abort, goal: GoalKind, word: u64)
    requires { IsGoalInRange goal }
{
    let packed = Goal(word);
    assert!(rt;
        goal.word() == packed && GoalKind::of(packed) == Some(goal),
        "{word}"
    );
}

// Goals of a join of two tables, the root's first.
#[test]
fn goals_have_the_words_of_the_format(rt: HostRuntime) {
    let (join, table) = (KeyParts::Join(3), KeyParts::Get(1));
    let sorted = Request {
        dist: Dist::One,
        order: 1,
    };
    let hashed = Request {
        dist: Dist::Hashed(2),
        order: 0,
    };
    let sides = ExprParts::logical(join, Logical::Join(KeyParts::Get(0), table));
    let scan = PhysicalExpr::new(table, Physical::Scan);
    has_word(&rt, GoalKind::Opt(join, sorted), 14987979559893217281);
    has_word(&rt, GoalKind::Exp(KeyParts::Get(0)), 0x8000000000000000);
    has_word(&rt, GoalKind::ExpE(sides), 0x9403400002002000);
    has_word(
        &rt,
        GoalKind::Xf(sides, Rule::JoinCommute),
        0xa403400002002002,
    );
    has_word(&rt, GoalKind::Imp(KeyParts::Agg), 0xb000000000801000);
    has_word(
        &rt,
        GoalKind::ImpE(ExprParts::logical(table, Logical::Get)),
        0xc001080000000000,
    );
    has_word(&rt, GoalKind::OptE(scan, hashed), 0xe001100000000140);
}

// An order 61, a logical expression for a request, a rule at no expression, and an expression.
#[test]
fn other_words_are_those_of_no_goal(rt: HostRuntime) {
    for word in &[
        0xd00000000040303d,
        0xe403400002002001,
        0xa000000000000002,
        0x403400002002,
    ] {
        assert!(rt; GoalKind::of(Goal(*word)).is_none(), "{word}");
    }
}
