//! The logical expressions that a group may have as members, each with the goal of its exploration or of its
//! implementation.
#![tactic(auto)]

ghost use Rattle.std.specs.Prelude.{◌≡◌, ◌<◌, ◌^◌, ℕ};
ghost use Rattle.query_core.specs.Keys.{IsGroup};
ghost use Rattle.request_props.specs.Numbered.{IsProps};
ghost use Rattle.goal_space.specs.Words.{goal_word};
ghost use Rattle.goal_space.specs.declared.goals.GoalKind.TheVariants.{Exp};
ghost use Rattle.goal_rules.specs.Explored.{explored, origin_word, IsLogicalWord};
ghost use Rattle.board_moves.specs.Words.{IsNextOf};
ghost use Rattle.job_turns.specs.Groups.{implemented, as_expr};

use board_moves::{Group, Members, Words};
use query_core::{
    Expr, Goal, GoalParts, KeyParts, Query, candidates_are_in_order, candidates_are_known,
    expressions_are_one,
};
use request_props::Props;

/// A group that is explored.
#[derive(Clone, Copy)]
pub(crate) struct ExploredGroup<'q> {
    pub(crate) query: &'q Query,
    pub(crate) props: &'q Props,
    pub(crate) group: KeyParts,
}

impl<'q> Words for ExploredGroup<'q> {
    ghost has = { λ g word. IsLogicalWord g.query.now g.group word };

    ghost can_next = { λ g. IsGroup g.query.now g.group × IsProps g.query.now g.props.now };

    fn next(&self, before: Option<u64>) -> Option<u64> {
        next_logical(self.query, self.props, self.group, before)
    }
}

impl<'q> Members for ExploredGroup<'q> {
    ghost goal_of = { λ g word. explored word };

    fn goal_of(&self, word: u64) -> u64 {
        candidates_are_known();
        expressions_are_one();
        Goal::make(GoalParts::ExpE(Expr(word))).0
    }
}

impl<'q> Group for ExploredGroup<'q> {
    ghost goal = { λ g. goal_word (Exp g.group) };

    ghost origin = { λ g. origin_word g.query.now g.group };

    fn origin(&self) -> u64 {
        candidates_are_known();
        Expr::make(self.query.origin_of_group(self.group)).0
    }
}

/// A group that is implemented.
#[derive(Clone, Copy)]
pub(crate) struct ImplementedGroup<'q> {
    pub(crate) query: &'q Query,
    pub(crate) props: &'q Props,
    pub(crate) group: KeyParts,
}

impl<'q> Words for ImplementedGroup<'q> {
    ghost has = { λ g word. IsLogicalWord g.query.now g.group word };

    ghost can_next = { λ g. IsGroup g.query.now g.group × IsProps g.query.now g.props.now };

    fn next(&self, before: Option<u64>) -> Option<u64> {
        next_logical(self.query, self.props, self.group, before)
    }
}

impl<'q> Members for ImplementedGroup<'q> {
    ghost goal_of = { λ g word. implemented word };

    fn goal_of(&self, word: u64) -> u64 {
        candidates_are_known();
        expressions_are_one();
        Goal::make(GoalParts::ImpE(Expr(word))).0
    }
}

// The next logical expression that the group can hold. These come before the physical ones.
fn next_logical(query: &Query, props: &Props, group: KeyParts, before: Option<u64>) -> Option<u64>
    requires known { IsGroup query.now group }
    requires props { IsProps query.now props.now }
    ensures { IsNextOf (IsLogicalWord query.now group) before result }
{
    // For the proof: logical candidates come before physical ones.
    candidates_are_in_order();
    candidates_are_known();
    let after = expr_before(before);
    match props.next_candidate(query, group, after) {
        Some(next) => { if next.logical() { Some(next.0) } else { None } }
        None => None,
    }
}

fn expr_before(before: Option<u64>) -> Option<Expr>
    ensures { result ≡ as_expr before }
{
    match before {
        Some(word) => Some(Expr(word)),
        None => None,
    }
}
