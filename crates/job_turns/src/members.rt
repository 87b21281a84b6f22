//! The members of a group that may serve a request, and the best answer of them.
#![tactic(auto)]

ghost use Rattle.std.specs.Prelude.{◌≡◌, None, slice_index_or};
ghost use Rattle.request_props.specs.Candidates.{IsPhysicalOf};
ghost use Rattle.request_props.specs.Requests.{IsRequestInRange};
ghost use Rattle.plan_tree.specs.ServingModes.{MayServe};
ghost use Rattle.goal_board.specs.Seats.{hands};
ghost use Rattle.board_moves.specs.Moves.{OnlyLooks};
ghost use Rattle.goal_space.specs.declared.goals.GoalKind.TheVariants.{Opt};
ghost use Rattle.job_turns.specs.Searches.{IsBoardSearch, IsSeat, IsAtWork, StaysAtWork};
ghost use Rattle.job_turns.specs.Seats.{IsTurnOf};
ghost use Rattle.job_turns.specs.Requests.{IsWordOfMember};
ghost use Rattle.job_turns.specs.Finds.{ShowsImplemented, FindsBestMember, FindsBestOfMember};

use crate::board_search::BoardSearch;
use crate::job_turn::JobTurn;
use crate::known_best::{KnownBest, await_best};
use crate::made_joins::is_made;
use crate::words::member_goal;
use best_answers::answers_are_best;
use goal_board::{Hints, Seat};
use goal_rules::{Rules, entries_are_known};
use goal_space::{GoalKind, goals_are_known};
use plan_tree::may_serve_by;
use query_core::{Expr, Goal, KeyParts, candidates_are_known, expressions_are_one};
use request_props::{JoinSets, PhysicalCandidate, Request};
use xform_rules::members_are_candidates;

/// The best answer of the group's members. None where a goal found every cell taken.
pub(crate) fn best_member<'q, H: Hints>(
    search: &BoardSearch<'_, 'q>,
    turn: &mut JobTurn<'_, 'q, H>,
    group: KeyParts,
    wanted: Request,
) -> Option<KnownBest>
    requires at_work { IsAtWork search.now turn.old (H.capacity turn.old.hints.now) }
    requires goal { IsTurnOf search.now turn.old (Opt group wanted) }
    requires implemented { ShowsImplemented search.now turn.old.seat.now group }
    ensures at_work { StaysAtWork search.now turn.old turn.new (H.capacity turn.new.hints.now) }
    ensures chooses { FindsBestMember search.now turn.old group wanted result turn.new }
{
    // For the proof: members are candidates, and the best of two sets is that of both.
    goals_are_known();
    members_are_candidates();
    answers_are_best();
    let (candidates, joins) = search.props.physical_of(search.query, group);
    let mut known_best = KnownBest::Known(None);
    for place in 0..candidates.len() {
        let candidate = &candidates[place];
        let sets = sets_at(joins, place);
        if may_serve_by(search.query, search.props, &candidate.expr, sets, wanted) {
            let other = await_candidate(search, turn, candidate, wanted)?;
            known_best = known_best.or(other);
        }
    }
    Some(known_best)
}

// The best answer of a candidate that may serve the request, if it is a member. None where its goal found every cell
// taken.
#[inline(always)]
fn await_candidate<'q, H: Hints>(
    search: &BoardSearch<'_, 'q>,
    turn: &mut JobTurn<'_, 'q, H>,
    candidate: &PhysicalCandidate,
    wanted: Request,
) -> Option<KnownBest>
    requires at_work { IsAtWork search.now turn.old (H.capacity turn.old.hints.now) }
    requires candidate { IsPhysicalOf search.now.query.now candidate.now.expr.group candidate.now }
    requires serves { MayServe search.now.query.now candidate.now.expr wanted }
    requires goal { IsTurnOf search.now turn.old (Opt candidate.now.expr.group wanted) }
    requires implemented { ShowsImplemented search.now turn.old.seat.now candidate.now.expr.group }
    ensures at_work { StaysAtWork search.now turn.old turn.new (H.capacity turn.new.hints.now) }
    ensures chooses { FindsBestOfMember search.now turn.old candidate.now.expr wanted result turn.new }
{
    // For the proof: the request is one of the query's, and the best of no nodes is none.
    goals_are_known();
    answers_are_best();
    match goal_here(search, turn.seat, candidate, wanted) {
        Some(goal) => {
            let child = GoalKind::OptE(candidate.expr, wanted);
            await_best(search, turn, child, goal)
        }
        None => Some(KnownBest::Known(None)),
    }
}

// The word of the goal of a candidate that may serve the request, if it is a member.
#[inline(always)]
fn goal_here<'q>(
    search: &BoardSearch<'_, 'q>,
    seat: &mut Seat<Rules<'q>>,
    candidate: &PhysicalCandidate,
    wanted: Request,
) -> Option<Goal>
    requires search { IsBoardSearch search.now }
    requires seat { IsSeat search.now.board.now seat.old }
    requires candidate { IsPhysicalOf search.now.query.now candidate.now.expr.group candidate.now }
    requires serves { MayServe search.now.query.now candidate.now.expr wanted }
    requires in_range { IsRequestInRange wanted }
    requires implemented { ShowsImplemented search.now seat.old candidate.now.expr.group }
    ensures seat { IsSeat search.now.board.now seat.new }
    ensures looks { OnlyLooks (hands seat.old) (hands seat.new) }
    ensures goal { IsWordOfMember search.now.query.now candidate.now.expr wanted result }
{
    // For the proof: expressions have small words, and what is in a cell is an entry.
    candidates_are_known();
    expressions_are_one();
    entries_are_known();
    let goal = member_goal(Expr(candidate.word), wanted);
    // Where the rules alone tell that it is a member, its cell needn't be found.
    if is_made(search.query, search.props, candidate.expr) {
        return Some(goal);
    }
    if search.board.holds(seat, candidate.word) {
        Some(goal)
    } else {
        None
    }
}

// What the candidate at this place can give as a join, if that was found.
#[inline(always)]
fn sets_at(joins: &[Option<JoinSets>], place: usize) -> Option<JoinSets>
    ensures { result ≡ slice_index_or joins.now place None }
{
    match joins.get(place) {
        Some(sets) => *sets,
        None => None,
    }
}
