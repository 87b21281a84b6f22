//! The members that rules bring: their results, each with the origins of the groups that it stands on.
#![tactic(auto)]

ghost use Rattle.std.specs.Prelude.{◌≡◌, ◌↔◌, Some, IfSome};
ghost use Rattle.query_core.specs.Keys.{IsGroup};
ghost use Rattle.query_core.specs.Expressions.{IsCandidate, IsPacked};
ghost use Rattle.query_core.specs.declared.words.KeyParts.{KeyParts as AnyKeyParts};
ghost use Rattle.goal_space.specs.Asked.{IsBroughtBy};
ghost use Rattle.goal_space.specs.declared.goals.GoalKind.TheVariants.{Xf};
ghost use Rattle.job_turns.specs.Searches.{HasJob, IsAtWork, StaysAtWork};
ghost use Rattle.job_turns.specs.Works.{AreGroupsBelow, HasPackedOrigin, IsOriginOf};
ghost use Rattle.job_turns.specs.Results.{IsFromRule, IsFromRuleAt, IsFromBound, IsLeftOf};
ghost use Rattle.job_turns.specs.Seats.{IsTurnOf, AsksForMember, AsksForAll, Puts, ShowsLogical, TurnWorks};

use crate::board_search::BoardSearch;
use crate::equated_joins::nth_result;
use crate::expressions::NO_CHOICE;
use crate::group_members::ExploredGroup;
use crate::job_turn::JobTurn;
use crate::laws::words_are_known;
use crate::over_query::await_goal;
use board_moves::{Job, Progress, next_entry};
use goal_board::{Hints, Inserted, Seat};
use goal_rules::{Rules, entries_are_known};
use goal_space::{GoalKind, goals_are_known};
use query_core::{Children, Expr, ExprParts, KeyParts, candidates_are_known};
use xform_rules::{Rule, members_are_candidates, results_are_candidates, results_are_known};

/// A rule at an expression, with the member that it binds or with none.
#[derive(Clone, Copy)]
pub(crate) struct RuleBinding {
    pub(crate) e: ExprParts,
    pub(crate) rule: Rule,
    pub(crate) bound: Option<ExprParts>,
}

/// Puts in a member that the goal asks for, with the origins of the groups that it stands on. False where one found
/// every cell taken.
#[inline(always)]
pub(crate) fn put_brought<'q>(
    search: &BoardSearch<'_, 'q>,
    seat: &mut Seat<Rules<'q>>,
    job: &Job,
    e: ExprParts,
) -> bool
    requires has_job { HasJob search.now seat.old job.now }
    requires candidate { IsCandidate search.now.query.now e }
    requires asked { AsksForAll search.now job.now (IsBroughtBy search.now.query.now e) }
    ensures has_job { HasJob search.now seat.new job.now }
    ensures puts { Puts search.now seat.old job.now (IsBroughtBy search.now.query.now e) result seat.new }
{
    // For the proof: a candidate has a word, and so have the origins of its children's groups.
    candidates_are_known();
    if !put_member(search, seat, job, e) {
        return false;
    }
    let (left, right) = groups_below(e);
    if !put_origin(search, seat, job, left) {
        return false;
    }
    put_origin(search, seat, job, right)
}

// Puts in a group's origin, if there is a group.
#[inline(always)]
fn put_origin<'q>(
    search: &BoardSearch<'_, 'q>,
    seat: &mut Seat<Rules<'q>>,
    job: &Job,
    group: Option<KeyParts>,
) -> bool
    requires has_job { HasJob search.now seat.old job.now }
    requires packed { HasPackedOrigin search.now.query.now group }
    requires asked { AsksForAll search.now job.now (IsOriginOf search.now.query.now group) }
    ensures has_job { HasJob search.now seat.new job.now }
    ensures puts { Puts search.now seat.old job.now (IsOriginOf search.now.query.now group) result seat.new }
{
    match group {
        Some(key) => put_member(search, seat, job, search.query.origin_of_group(key)),
        None => true,
    }
}

// Puts in a member that the goal asks for.
#[inline(always)]
fn put_member<'q>(
    search: &BoardSearch<'_, 'q>,
    seat: &mut Seat<Rules<'q>>,
    job: &Job,
    e: ExprParts,
) -> bool
    requires has_job { HasJob search.now seat.old job.now }
    requires packed { IsPacked e }
    requires asked { AsksForMember search.now job.now e }
    ensures has_job { HasJob search.now seat.new job.now }
    ensures puts { Puts search.now seat.old job.now (λ other. other ≡ e) result seat.new }
{
    match search.board.insert(seat, Expr::make(e).0) {
        Inserted::Full => false,
        _ => true,
    }
}

// The groups that an expression stands on.
#[inline(always)]
fn groups_below(e: ExprParts) -> (Option<KeyParts>, Option<KeyParts>)
    ensures { AreGroupsBelow e result }
{
    match e.children() {
        Children::Zero => (None, None),
        Children::One(group) => (Some(group), None),
        Children::Two(left, right) => (Some(left), Some(right)),
    }
}

/// The results of a rule at an expression are there once they are put in, each with the origins of the groups that it
/// stands on. A rule that binds a member waits for the exploration of the left child's group.
pub(crate) fn apply_rule<'q, H: Hints>(
    search: &BoardSearch<'_, 'q>,
    turn: &mut JobTurn<'_, 'q, H>,
    e: ExprParts,
    rule: Rule,
) -> Progress
    requires at_work { IsAtWork search.now turn.old (H.capacity turn.old.hints.now) }
    requires goal { IsTurnOf search.now turn.old (Xf e rule) }
    ensures at_work { StaysAtWork search.now turn.old turn.new (H.capacity turn.new.hints.now) }
    ensures works { TurnWorks search.now turn.old (Xf e rule) result turn.new }
{
    // For the proof: a rule has results with a bound member only where it binds one, and that is of the left child's
    // group.
    words_are_known();
    goals_are_known();
    results_are_known();
    match left_group(e, rule) {
        Some(left) => bind_members(search, turn, e, rule, left),
        None => {
            let binding = RuleBinding {
                e,
                rule,
                bound: None,
            };
            if put_results(search, turn.seat, &turn.job, binding) {
                turn.job.progress(NO_CHOICE)
            } else {
                Progress::Full
            }
        }
    }
}

// Puts in the results of a rule at an expression, with a bound member or without one. False where one found every
// cell taken.
fn put_results<'q>(
    search: &BoardSearch<'_, 'q>,
    seat: &mut Seat<Rules<'q>>,
    job: &Job,
    binding: RuleBinding,
) -> bool
    requires has_job { HasJob search.now seat.old job.now }
    requires e { IsCandidate search.now.query.now binding.e }
    requires bound { IfSome binding.bound (IsCandidate search.now.query.now) }
    requires asked { AsksForAll search.now job.now (IsFromRule search.now binding) }
    ensures has_job { HasJob search.now seat.new job.now }
    ensures puts { Puts search.now seat.old job.now (IsFromRule search.now binding) result seat.new }
{
    // For the proof: a rule has no more results than its limit.
    results_are_candidates();
    for n in 0..binding.rule.limit() {
        if !put_result(search, seat, job, binding, n) {
            return false;
        }
    }
    true
}

// Puts in the n-th result, if there are so many.
#[inline(always)]
fn put_result<'q>(
    search: &BoardSearch<'_, 'q>,
    seat: &mut Seat<Rules<'q>>,
    job: &Job,
    binding: RuleBinding,
    n: u32,
) -> bool
    requires has_job { HasJob search.now seat.old job.now }
    requires e { IsCandidate search.now.query.now binding.e }
    requires bound { IfSome binding.bound (IsCandidate search.now.query.now) }
    requires asked { AsksForAll search.now job.now (IsFromRuleAt search.now binding n) }
    ensures has_job { HasJob search.now seat.new job.now }
    ensures puts { Puts search.now seat.old job.now (IsFromRuleAt search.now binding n) result seat.new }
{
    // For the proof: a result of a candidate is one, and there is one of each number.
    results_are_candidates();
    candidates_are_known();
    match nth_result(search.query, search.props, binding, n) {
        Some(other) => put_brought(search, seat, job, other),
        None => true,
    }
}

// The left child's group, where the rule binds a member of it.
#[inline(always)]
fn left_group(e: ExprParts, rule: Rule) -> Option<KeyParts>
    ensures { (group : AnyKeyParts) → (result ≡ Some group) ↔ IsLeftOf e rule group }
{
    if !rule.binds() {
        return None;
    }
    match e.children() {
        Children::Zero => None,
        Children::One(group) => Some(group),
        Children::Two(left, _) => Some(left),
    }
}

// Awaits the exploration of the left child's group, and puts in the results with each of its logical members bound.
fn bind_members<'q, H: Hints>(
    search: &BoardSearch<'_, 'q>,
    turn: &mut JobTurn<'_, 'q, H>,
    e: ExprParts,
    rule: Rule,
    left: KeyParts,
) -> Progress
    requires at_work { IsAtWork search.now turn.old (H.capacity turn.old.hints.now) }
    requires goal { IsTurnOf search.now turn.old (Xf e rule) }
    requires left { IsLeftOf e rule left }
    ensures at_work { StaysAtWork search.now turn.old turn.new (H.capacity turn.new.hints.now) }
    ensures works { TurnWorks search.now turn.old (Xf e rule) result turn.new }
{
    // For the proof: a bound member is a logical one of the left child's group.
    words_are_known();
    goals_are_known();
    entries_are_known();
    results_are_known();
    members_are_candidates();
    match await_goal(search, turn, GoalKind::Exp(left)) {
        Progress::Full => Progress::Full,
        Progress::Waiting => Progress::Waiting,
        Progress::Complete(_) => {
            if put_with_members(search, turn.seat, &turn.job, e, rule, left) {
                turn.job.progress(NO_CHOICE)
            } else {
                Progress::Full
            }
        }
    }
}

// Puts in the results of a rule with each logical member of a group bound, where the looks show all of these in cells.
fn put_with_members<'q>(
    search: &BoardSearch<'_, 'q>,
    seat: &mut Seat<Rules<'q>>,
    job: &Job,
    e: ExprParts,
    rule: Rule,
    left: KeyParts,
) -> bool
    requires has_job { HasJob search.now seat.old job.now }
    requires known { IsGroup search.now.query.now left }
    requires e { IsCandidate search.now.query.now e }
    requires shown { ShowsLogical search.now seat.old left }
    requires asked { AsksForAll search.now job.now (IsFromBound search.now rule e left) }
    ensures has_job { HasJob search.now seat.new job.now }
    ensures puts { Puts search.now seat.old job.now (IsFromBound search.now rule e left) result seat.new }
{
    // For the proof: what is found in cells are members.
    entries_are_known();
    members_are_candidates();
    candidates_are_known();
    let members = ExploredGroup {
        query: search.query,
        props: search.props,
        group: left,
    };
    let mut before = None;
    while let Some(word) = next_entry(search.board, seat, &members, before) {
        let bound = Expr(word).known_parts();
        let binding = RuleBinding {
            e,
            rule,
            bound: Some(bound),
        };
        if !put_results(search, seat, job, binding) {
            return false;
        }
        before = Some(word);
    }
    true
}
