//! Goals of the search as numbers. Nothing else packs or unpacks a goal.
#![tactic(auto)]

ghost use Rattle.std.specs.Prelude.{ℕ, ◌≡◌, ◌<◌, ◌≤◌, ◌+◌, ◌*◌, ◌^◌, ◌↔◌, IsTrue, MatchOption};
ghost use Rattle.query_core.specs.declared.words.GoalParts.{GoalParts};
ghost use Rattle.query_core.specs.Goals.{goal_bit, goal_fields, goal_number, has_goal_bit, kind_of, FitsCode};
ghost use Rattle.query_core.specs.Goals.{FitsExpr, FitsGoal, FitsKey, HasGoalWord};

use crate::words::{Expr, Goal, GoalParts, Key};

// The bit that words of goals have and words of expressions lack.
const GOAL_BIT: u64 = 1 << 63;

// The numbers of the kinds of goals.
const EXP: u64 = 0;

const EXP_E: u64 = 1;

const XF: u64 = 2;

const IMP: u64 = 3;

const IMP_E: u64 = 4;

const OPT: u64 = 5;

const OPT_E: u64 = 6;

impl Goal {
    /// The word of a goal: the kind from bit 60 on, the key or the expression from bit 12 on, and the number of the
    /// rule or the code of the request.
    #[inline(always)]
    pub fn make(parts: GoalParts) -> Goal
        requires { FitsGoal parts }
        ensures { result.0 ≡ goal_number parts }
    {
        match parts {
            GoalParts::Exp(key) => packed(EXP, key.0 as u64, 0),
            GoalParts::ExpE(expr) => packed(EXP_E, expr.0, 0),
            GoalParts::Xf(expr, rule) => packed(XF, expr.0, rule),
            GoalParts::Imp(key) => packed(IMP, key.0 as u64, 0),
            GoalParts::ImpE(expr) => packed(IMP_E, expr.0, 0),
            GoalParts::Opt(key, request) => packed(OPT, key.0 as u64, request),
            GoalParts::OptE(expr, request) => packed(OPT_E, expr.0, request),
        }
    }

    /// The goal of this word, if it is that of one.
    pub fn parts(&self) -> Option<GoalParts>
        ensures { MatchOption result
            ((parts : GoalParts) → HasGoalWord self.now.0 parts → ⊥)
            (HasGoalWord self.now.0) }
    {
        let parts = self.fields();
        if fits(parts) && Goal::make(parts).0 == self.0 {
            Some(parts)
        } else {
            None
        }
    }

    /// The goal whose fields the word has, which is its own goal where it is the word of one.
    #[inline(always)]
    pub fn fields(self) -> GoalParts
        ensures { result ≡ goal_fields self.0 }
    {
        let key = Key(((self.0 >> 12) % (1 << 12)) as u32);
        let expr = Expr((self.0 >> 12) % (1 << 48));
        let detail = (self.0 % (1 << 12)) as u32;
        match (self.0 >> 60) % 8 {
            EXP => GoalParts::Exp(key),
            EXP_E => GoalParts::ExpE(expr),
            XF => GoalParts::Xf(expr, detail),
            IMP => GoalParts::Imp(key),
            IMP_E => GoalParts::ImpE(expr),
            OPT => GoalParts::Opt(key, detail),
            _ => GoalParts::OptE(expr, detail),
        }
    }

    /// Whether a word of a goal or of an expression is that of a goal.
    #[inline(always)]
    pub fn is_word(word: u64) -> bool
        ensures { result ≡ has_goal_bit word }
    {
        word >= GOAL_BIT
    }
}

/// A number is the word of one goal at most, which its fields tell.
pub fn goals_are_one()
    ensures one { (first second : GoalParts) → FitsGoal first → FitsGoal second →
        goal_number first ≡ goal_number second → first ≡ second }
    ensures fields { (parts : GoalParts) → FitsGoal parts → goal_fields (goal_number parts) ≡ parts }
    ensures small { (parts : GoalParts) → FitsGoal parts → goal_number parts < 2 ^ 64 }
    ensures kinds { (first second : GoalParts) → FitsGoal first →
        kind_of first < kind_of second → goal_number first < goal_number second }

    // The bit tells words of goals from words of expressions.
    ensures high { (parts : GoalParts) → goal_bit ≤ goal_number parts }
    ensures low { (word : ℕ) → FitsExpr word → word < goal_bit }
{}

#[inline(always)]
fn packed(kind: u64, subject: u64, detail: u32) -> Goal
    requires kind { kind < 8 }
    requires subject { FitsExpr subject }
    requires detail { FitsCode detail }
    ensures { result.0 ≡ goal_bit + kind * 2 ^ 60 + subject * 2 ^ 12 + detail }
{
    Goal(GOAL_BIT + (kind << 60) + (subject << 12) + detail as u64)
}

// Whether each part fits its field.
fn fits(parts: GoalParts) -> bool
    ensures { IsTrue result ↔ FitsGoal parts }
{
    match parts {
        GoalParts::Exp(key) => fits_key(key),
        GoalParts::ExpE(expr) => fits_expr(expr),
        GoalParts::Xf(expr, rule) => fits_expr(expr) && 1 <= rule && rule <= 14,
        GoalParts::Imp(key) => fits_key(key),
        GoalParts::ImpE(expr) => fits_expr(expr),
        GoalParts::Opt(key, request) => fits_key(key) && request < 1 << 12,
        GoalParts::OptE(expr, request) => fits_expr(expr) && request < 1 << 12,
    }
}

fn fits_key(key: Key) -> bool
    ensures { IsTrue result ↔ FitsKey key.0 }
{
    key.0 < 1 << 12
}

fn fits_expr(expr: Expr) -> bool
    ensures { IsTrue result ↔ FitsExpr expr.0 }
{
    expr.0 < 1 << 48
}
