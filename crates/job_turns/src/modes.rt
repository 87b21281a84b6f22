//! The turn of a goal that chooses a mode of an expression for a request.
#![tactic(auto)]

ghost use Rattle.goal_space.specs.declared.goals.GoalKind.TheVariants.{OptE};
ghost use Rattle.job_turns.specs.Searches.{IsAtWork, StaysAtWork};
ghost use Rattle.job_turns.specs.Seats.{IsTurnOf, TurnWorks};
ghost use Rattle.job_turns.specs.Choices.{IsWantedNative, HasAlternative, IsAltOf};
ghost use Rattle.job_turns.specs.Finds.{IsTurnAsked, FindsBestMode, FindsBestInMode, FindsBestAsked};

use crate::board_search::BoardSearch;
use crate::job_turn::JobTurn;
use crate::known_best::{KnownBest, await_best, progress_of};
use crate::laws::words_are_known;
use crate::words::group_goal;
use best_answers::{answers_are_best, best_in_mode};
use board_moves::Progress;
use goal_board::Hints;
use goal_space::{GoalKind, goals_are_known};
use plan_space::Line;
use plan_tree::{
    Alt, ExprRows, alternative_at, expr_rows, modes_to_try, next_alternative, word_of_candidate,
};
use query_core::{Expr, Key, PhysicalExpr, groups_are_known};
use request_props::Request;
use xform_rules::members_are_candidates;

/// An expression in a mode, for a request, with its word, its line there and the rows of its groups.
#[derive(Clone, Copy)]
pub(crate) struct WantedNative<'l> {
    pub(crate) expr: PhysicalExpr,
    pub(crate) word: Expr,
    pub(crate) wanted: Request,
    pub(crate) rows: ExprRows,
    pub(crate) mode: u32,
    pub(crate) line: &'l Line,
}

/// The least plan for the request with the expression at its root is known once those are that its
/// modes ask for.
pub(crate) fn choose_mode<'q, H: Hints>(
    search: &BoardSearch<'_, 'q>,
    turn: &mut JobTurn<'_, 'q, H>,
    expr: PhysicalExpr,
    wanted: Request,
) -> Progress
    requires at_work { IsAtWork search.now turn.old (H.capacity turn.old.hints.now) }
    requires goal { IsTurnOf search.now turn.old (OptE expr wanted) }
    ensures at_work { StaysAtWork search.now turn.old turn.new (H.capacity turn.new.hints.now) }
    ensures works { TurnWorks search.now turn.old (OptE expr wanted) result turn.new }
{
    // For the proof: the goal's word says what its children are.
    words_are_known();
    let found = best_mode(search, turn, expr, wanted);
    progress_of(&turn.job, found)
}

// The best answer of the expression in all its modes. None where a goal found every cell taken.
fn best_mode<'q, H: Hints>(
    search: &BoardSearch<'_, 'q>,
    turn: &mut JobTurn<'_, 'q, H>,
    expr: PhysicalExpr,
    wanted: Request,
) -> Option<KnownBest>
    requires at_work { IsAtWork search.now turn.old (H.capacity turn.old.hints.now) }
    requires goal { IsTurnOf search.now turn.old (OptE expr wanted) }
    ensures at_work { StaysAtWork search.now turn.old turn.new (H.capacity turn.new.hints.now) }
    ensures chooses { FindsBestMode search.now turn.old expr wanted result turn.new }
{
    // For the proof: the expression is a member, the request fits, and the best of two sets is that
    // of both.
    goals_are_known();
    members_are_candidates();
    answers_are_best();
    let word = word_of_candidate(search.query, expr);
    let rows = expr_rows(search.query, search.props, expr);
    let mut known_best = KnownBest::Known(None);
    let modes = modes_to_try(search.query, search.props, expr, wanted);
    let mut from = 0;
    'modes: while let Some((mode, line)) = next_alternative(
        search.query,
        search.props,
        expr,
        wanted,
        modes,
        from,
    ) {
        let native = WantedNative {
            expr,
            word,
            wanted,
            rows,
            mode,
            line: &line,
        };
        let other = await_mode(search, turn, &native)?;
        known_best = known_best.or(other);
        from = mode + 1;
    }
    Some(known_best)
}

// The best answer of the expression in the mode, which is there for the request.
#[inline(always)]
fn await_mode<'q, H: Hints>(
    search: &BoardSearch<'_, 'q>,
    turn: &mut JobTurn<'_, 'q, H>,
    native: &WantedNative<'_>,
) -> Option<KnownBest>
    requires at_work { IsAtWork search.now turn.old (H.capacity turn.old.hints.now) }
    requires native { IsWantedNative search.now.query.now native.now }
    requires alternative { HasAlternative search.now.query.now native.now }
    requires goal { IsTurnOf search.now turn.old (OptE native.now.expr native.now.wanted) }
    ensures at_work { StaysAtWork search.now turn.old turn.new (H.capacity turn.new.hints.now) }
    ensures chooses { FindsBestInMode search.now turn.old native.now result turn.new }
{
    // For the proof: members are candidates.
    members_are_candidates();
    let alt = alternative_at(
        search.query,
        native.expr,
        native.word,
        native.wanted,
        native.mode,
        native.line,
    );
    await_alternative(search, turn, native, alt)
}

// The best answer of the expression in the mode.
#[inline(always)]
fn await_alternative<'q, H: Hints>(
    search: &BoardSearch<'_, 'q>,
    turn: &mut JobTurn<'_, 'q, H>,
    native: &WantedNative<'_>,
    alt: Alt,
) -> Option<KnownBest>
    requires at_work { IsAtWork search.now turn.old (H.capacity turn.old.hints.now) }
    requires native { IsWantedNative search.now.query.now native.now }
    requires alternative { IsAltOf search.now.query.now native.now alt }
    requires goal { IsTurnOf search.now turn.old (OptE native.now.expr native.now.wanted) }
    ensures at_work { StaysAtWork search.now turn.old turn.new (H.capacity turn.new.hints.now) }
    ensures chooses { FindsBestInMode search.now turn.old native.now result turn.new }
{
    let left = await_asked(search, turn, alt.left)?;
    let right = await_asked(search, turn, alt.right)?;
    match (left, right) {
        (KnownBest::Known(left), KnownBest::Known(right)) => {
            let best = best_in_mode(
                search.query,
                native.expr,
                native.rows,
                native.line,
                native.wanted,
                alt,
                (left, right),
            );
            Some(KnownBest::Known(best))
        }
        (KnownBest::Known(_), KnownBest::Open) => Some(KnownBest::Open),
        (KnownBest::Open, _) => Some(KnownBest::Open),
    }
}

// The best answer for what is asked of a child, if something is.
#[inline(always)]
fn await_asked<'q, H: Hints>(
    search: &BoardSearch<'_, 'q>,
    turn: &mut JobTurn<'_, 'q, H>,
    asked: Option<(Key, Request)>,
) -> Option<KnownBest>
    requires at_work { IsAtWork search.now turn.old (H.capacity turn.old.hints.now) }
    requires asked { IsTurnAsked search.now turn.old asked }
    ensures at_work { StaysAtWork search.now turn.old turn.new (H.capacity turn.new.hints.now) }
    ensures chooses { FindsBestAsked search.now turn.old asked result turn.new }
{
    // For the proof: a group has a small key, and a child of a goal has a word.
    groups_are_known();
    words_are_known();
    match asked {
        Some((key, wanted)) => {
            let child = GoalKind::Opt(search.query.group(key), wanted);
            let word = group_goal(key, wanted);
            await_best(search, turn, child, word)
        }
        None => Some(KnownBest::Known(None)),
    }
}
