//! The turns of goals that explore an expression, and that implement one.
#![tactic(auto)]

ghost use Rattle.std.specs.Prelude.{◌≡◌, ◌↔◌, Some};
ghost use Rattle.query_core.specs.Expressions.{children_of, HasWord, IsPacked};
ghost use Rattle.goal_space.specs.declared.goals.GoalKind.{GoalKind as AnyGoalKind};
ghost use Rattle.goal_space.specs.Phases.{phase_goal_of_expr, IsOfGroups, IsOfRule, IsRuleAt};
ghost use Rattle.job_turns.specs.Searches.{IsAtWork, StaysAtWork};
ghost use Rattle.job_turns.specs.Works.{IsOneOf};
ghost use Rattle.job_turns.specs.Seats.{IsTurnOf, AreTurnChildren, TurnAwaits, TurnWorks};

use crate::board_search::BoardSearch;
use crate::equated_joins::is_tried;
use crate::job_turn::JobTurn;
use crate::laws::words_are_known;
use crate::operator_rules::rules_to_try;
use crate::over_query::{await_both, await_word};
use crate::words::rule_goal;
use board_moves::Progress;
use goal_board::{Answer, Hints};
use goal_space::{GoalKind, Phase, goals_are_known};
use query_core::{Children, Expr, ExprParts, expressions_are_one};
use xform_rules::Rule;

/// The answer of a goal that chooses no plan.
pub(crate) const NO_CHOICE: Answer = Answer { cost: 0, node: 0 };

/// An expression is explored, or implemented, once its children's groups are, and the rules of the phase have
/// brought their results.
pub(crate) fn transform_expression<'q, H: Hints>(
    search: &BoardSearch<'_, 'q>,
    turn: &mut JobTurn<'_, 'q, H>,
    phase: Phase,
    e: ExprParts,
) -> Progress
    requires at_work { IsAtWork search.now turn.old (H.capacity turn.old.hints.now) }
    requires goal { IsTurnOf search.now turn.old (phase_goal_of_expr phase e) }
    ensures at_work { StaysAtWork search.now turn.old turn.new (H.capacity turn.new.hints.now) }
    ensures works { TurnWorks search.now turn.old (phase_goal_of_expr phase e) result turn.new }
{
    // For the proof: the goal's word says what its children are, and the goal has a word.
    words_are_known();
    goals_are_known();
    let groups = group_goals(phase, e);
    if !await_both(search, turn, groups) {
        return Progress::Full;
    }
    if !await_rules(search, turn, phase, e) {
        return Progress::Full;
    }
    turn.job.progress(NO_CHOICE)
}

// The goals of the children's groups in the phase.
#[inline(always)]
fn group_goals(phase: Phase, e: ExprParts) -> (Option<GoalKind>, Option<GoalKind>)
    ensures { (goal : AnyGoalKind) → IsOneOf result goal ↔ IsOfGroups phase (children_of e.operator) goal }
{
    match e.children() {
        Children::Zero => (None, None),
        Children::One(group) => (Some(phase.of_group(group)), None),
        Children::Two(left, right) => (Some(phase.of_group(left)), Some(phase.of_group(right))),
    }
}

// Awaits the rules of the phase at an expression. False where one found every cell taken.
fn await_rules<'q, H: Hints>(
    search: &BoardSearch<'_, 'q>,
    turn: &mut JobTurn<'_, 'q, H>,
    phase: Phase,
    e: ExprParts,
) -> bool
    requires at_work { IsAtWork search.now turn.old (H.capacity turn.old.hints.now) }
    requires packed { IsPacked e }
    requires children { AreTurnChildren search.now turn.old (IsRuleAt search.now.query.now phase e) }
    ensures at_work { StaysAtWork search.now turn.old turn.new (H.capacity turn.new.hints.now) }
    ensures awaits { TurnAwaits search.now turn.old (IsRuleAt search.now.query.now phase e) result turn.new }
{
    let word = Expr::make(e);
    let rules = rules_to_try(phase, e);
    for rule in rules {
        if !await_rule(search, turn, phase, e, word, *rule) {
            return false;
        }
    }
    true
}

// Awaits the rule at the expression of this word, if it is one of the phase and applies. False where it found every
// cell taken.
#[inline(always)]
fn await_rule<'q, H: Hints>(
    search: &BoardSearch<'_, 'q>,
    turn: &mut JobTurn<'_, 'q, H>,
    phase: Phase,
    e: ExprParts,
    word: Expr,
    rule: Rule,
) -> bool
    requires at_work { IsAtWork search.now turn.old (H.capacity turn.old.hints.now) }
    requires word { HasWord word.0 e }
    requires children { AreTurnChildren search.now turn.old (IsOfRule search.now.query.now phase e rule) }
    ensures at_work { StaysAtWork search.now turn.old turn.new (H.capacity turn.new.hints.now) }
    ensures awaits { TurnAwaits search.now turn.old (IsOfRule search.now.query.now phase e rule) result turn.new }
{
    // For the proof: an expression has a small word.
    expressions_are_one();
    if !is_tried(search.query, search.props, phase, e, rule) {
        return true;
    }
    let child = GoalKind::Xf(e, rule);
    match await_word(search, turn, child, rule_goal(word, rule)) {
        Progress::Full => false,
        Progress::Complete(_) => true,
        Progress::Waiting => true,
    }
}
