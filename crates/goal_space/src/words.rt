//! Goals as numbers: what a goal's word stands for. Nothing else packs or unpacks a goal.
#![tactic(auto)]

ghost use Rattle.std.specs.Prelude.{◌≡◌, ◌↔◌, ◌<◌, ◌≤◌, ◌^◌, Some, MatchOption};
ghost use Rattle.query_core.specs.declared.words.GoalParts.{GoalParts};
ghost use Rattle.query_core.specs.Goals.{goal_bit, goal_number, FitsGoal};
ghost use Rattle.query_core.specs.Expressions.{expr_of, HasWord as HasExprWord};
ghost use Rattle.request_props.specs.Requests.{code_of, IsRequestInRange};
ghost use Rattle.xform_rules.specs.Rules.{rule_number};
ghost use Rattle.goal_space.specs.declared.goals.GoalKind.{GoalKind};
ghost use Rattle.goal_space.specs.Words.{goal_word, parts_of, HasWord, IsGoalInRange};

use crate::goals::GoalKind;
use query_core::{
    Expr, Goal, GoalParts, Key, PhysicalExpr, expressions_are_one, goals_are_one, groups_are_known,
};
use request_props::{Dist, Request, code, request_of};
use xform_rules::{Rule, rule_of, rules_are_known};

impl GoalKind {
    /// The word of the goal.
    #[inline(always)]
    pub fn word(self) -> Goal
        requires { IsGoalInRange self }
        ensures number { result.0 ≡ goal_word self }
        ensures high { goal_bit ≤ result.0 }
    {
        Goal::make(self.parts())
    }

    /// The goal of this word; none for a number that is the word of no goal.
    #[inline(always)]
    pub fn of(word: Goal) -> Option<GoalKind>
        ensures exact { (k : GoalKind) → HasWord k word.0 ↔ (result ≡ Some k) }
    {
        goal_kinds_are_one();
        goals_are_one();
        match word.parts() {
            Some(parts) => kind_of(parts),
            None => None,
        }
    }

    /// The goal that the word is known to have.
    #[inline(always)]
    pub fn known(word: Goal) -> GoalKind
        requires { (k : GoalKind) × HasWord k word.0 }
        ensures only { (k : GoalKind) → HasWord k word.0 → k ≡ result }
    {
        // For the proof: a word has the fields of its goal.
        goal_kinds_are_one();
        goals_are_one();
        match word.fields() {
            GoalParts::Exp(key) => GoalKind::Exp(key.known_parts()),
            GoalParts::ExpE(expr) => GoalKind::ExpE(expr.known_parts()),
            GoalParts::Xf(expr, number) => GoalKind::Xf(expr.known_parts(), known_rule(number)),
            GoalParts::Imp(key) => GoalKind::Imp(key.known_parts()),
            GoalParts::ImpE(expr) => GoalKind::ImpE(expr.known_parts()),
            GoalParts::Opt(key, code) => GoalKind::Opt(key.known_parts(), known_request(code)),
            GoalParts::OptE(expr, code) => {
                GoalKind::OptE(known_physical(expr), known_request(code))
            }
        }
    }

    #[inline(always)]
    fn parts(self) -> GoalParts
        requires { IsGoalInRange self }
        ensures fits { FitsGoal result }
        ensures number { goal_number result ≡ goal_word self }
    {
        match self {
            GoalKind::Exp(group) => GoalParts::Exp(Key::make(group)),
            GoalKind::ExpE(e) => GoalParts::ExpE(Expr::make(e)),
            GoalKind::Xf(e, rule) => GoalParts::Xf(Expr::make(e), rule.number()),
            GoalKind::Imp(group) => GoalParts::Imp(Key::make(group)),
            GoalKind::ImpE(e) => GoalParts::ImpE(Expr::make(e)),
            GoalKind::Opt(group, wanted) => GoalParts::Opt(Key::make(group), code(wanted)),
            GoalKind::OptE(e, wanted) => GoalParts::OptE(Expr::make(e.parts()), code(wanted)),
        }
    }
}

/// No two goals have one word, and each word fits.
pub fn goal_kinds_are_one()
    ensures one { (k l : GoalKind) → IsGoalInRange k → IsGoalInRange l → goal_word k ≡ goal_word l →
        k ≡ l }
    ensures fits { (k : GoalKind) → IsGoalInRange k → FitsGoal (parts_of k) }
    ensures high { (k : GoalKind) → goal_bit ≤ goal_word k }
    ensures small { (k : GoalKind) → IsGoalInRange k → goal_word k < 2 ^ 64 }
{
    expressions_are_one();
    groups_are_known();
    rules_are_known();
    goals_are_one();
}

// The rule of this number, where one has it.
fn known_rule(number: u32) -> Rule
    ensures { (rule : Rule) → rule_number rule ≡ number → rule ≡ result }
{
    match rule_of(number) {
        Some(rule) => rule,
        None => Rule::ExpandNAry,
    }
}

// The request of this code, where one has it.
fn known_request(code: u32) -> Request
    ensures { (wanted : Request) → IsRequestInRange wanted → code_of wanted ≡ code → wanted ≡ result }
{
    match request_of(code) {
        Some(wanted) => wanted,
        None => Request {
            dist: Dist::One,
            order: 0,
        },
    }
}

// The physical expression of this word.
#[inline(always)]
fn known_physical(word: Expr) -> PhysicalExpr
    requires { (e : PhysicalExpr) × HasExprWord word.0 (expr_of e) }
    ensures { (e : PhysicalExpr) → HasExprWord word.0 (expr_of e) → e ≡ result }
{
    match word.known_parts().as_physical() {
        Some(e) => e,
        None => unreachable!(),
    }
}

// The goal with these keys, words, numbers and codes.
fn kind_of(parts: GoalParts) -> Option<GoalKind>
    ensures { MatchOption result
        ((k : GoalKind) → IsGoalInRange k → parts_of k ≡ parts → ⊥)
        (λ k. IsGoalInRange k × (parts_of k ≡ parts)) }
{
    // For the proof: a word is that of one expression.
    expressions_are_one();
    match parts {
        GoalParts::Exp(key) => Some(GoalKind::Exp(key.parts()?)),
        GoalParts::ExpE(expr) => Some(GoalKind::ExpE(expr.parts()?)),
        GoalParts::Xf(expr, number) => Some(GoalKind::Xf(expr.parts()?, rule_of(number)?)),
        GoalParts::Imp(key) => Some(GoalKind::Imp(key.parts()?)),
        GoalParts::ImpE(expr) => Some(GoalKind::ImpE(expr.parts()?)),
        GoalParts::Opt(key, code) => Some(GoalKind::Opt(key.parts()?, request_of(code)?)),
        GoalParts::OptE(expr, code) => {
            let expr = expr.parts()?;
            Some(GoalKind::OptE(expr.as_physical()?, request_of(code)?))
        }
    }
}
