//! The enforcers for a request, and the best answer of them.
#![tactic(auto)]

ghost use Rattle.goal_space.specs.declared.goals.GoalKind.TheVariants.{Opt};
ghost use Rattle.job_turns.specs.Searches.{IsAtWork, StaysAtWork};
ghost use Rattle.job_turns.specs.Seats.{IsTurnOf};
ghost use Rattle.job_turns.specs.Finds.{FindsBestEnforcer, FindsBestEnforcerAt, TurnPutsChildren};

use crate::board_search::BoardSearch;
use crate::job_turn::JobTurn;
use crate::known_best::{KnownBest, await_best, put_child};
use crate::laws::words_are_known;
use crate::words::request_goal;
use best_answers::{answers_are_best, best_of_enforcer};
use goal_board::Hints;
use goal_space::{GoalKind, goals_are_known};
use plan_tree::enforcer_for;
use query_core::KeyParts;
use request_props::Request;

/// The best answer of the enforcers for the request. None where a goal found every cell taken.
pub(crate) fn best_enforcer<'q, H: Hints>(
    search: &BoardSearch<'_, 'q>,
    turn: &mut JobTurn<'_, 'q, H>,
    group: KeyParts,
    wanted: Request,
) -> Option<KnownBest>
    requires at_work { IsAtWork search.now turn.old (H.capacity turn.old.hints.now) }
    requires goal { IsTurnOf search.now turn.old (Opt group wanted) }
    ensures at_work { StaysAtWork search.now turn.old turn.new (H.capacity turn.new.hints.now) }
    ensures chooses { FindsBestEnforcer search.now turn.old group wanted result turn.new }
{
    // For the proof: the best of two sets is that of both.
    goals_are_known();
    answers_are_best();
    let first = await_enforcer(search, turn, group, wanted, 0)?;
    let second = await_enforcer(search, turn, group, wanted, 1)?;
    Some(first.or(second))
}

/// Puts in what the enforcers for the request ask for. False where it found every cell taken.
pub(crate) fn put_enforcers<'q, H: Hints>(
    search: &BoardSearch<'_, 'q>,
    turn: &mut JobTurn<'_, 'q, H>,
    group: KeyParts,
    wanted: Request,
) -> bool
    requires at_work { IsAtWork search.now turn.old (H.capacity turn.old.hints.now) }
    requires goal { IsTurnOf search.now turn.old (Opt group wanted) }
    ensures at_work { StaysAtWork search.now turn.old turn.new (H.capacity turn.new.hints.now) }
    ensures puts { TurnPutsChildren search.now turn.old result turn.new }
{
    if !put_enforcer(search, turn, group, wanted, 0) {
        return false;
    }
    put_enforcer(search, turn, group, wanted, 1)
}

// Puts in what the enforcer at this place asks for, if there are so many.
fn put_enforcer<'q, H: Hints>(
    search: &BoardSearch<'_, 'q>,
    turn: &mut JobTurn<'_, 'q, H>,
    group: KeyParts,
    wanted: Request,
    place: u32,
) -> bool
    requires at_work { IsAtWork search.now turn.old (H.capacity turn.old.hints.now) }
    requires goal { IsTurnOf search.now turn.old (Opt group wanted) }
    ensures at_work { StaysAtWork search.now turn.old turn.new (H.capacity turn.new.hints.now) }
    ensures puts { TurnPutsChildren search.now turn.old result turn.new }
{
    // For the proof: the request fits the group, and a child of a goal has a word.
    goals_are_known();
    words_are_known();
    match enforcer_for(search.query, search.props, group, wanted, place) {
        Some(enforced) => {
            let child = GoalKind::Opt(group, enforced.below);
            let word = request_goal(group, enforced.below);
            put_child(search, turn, child, word)
        }
        None => true,
    }
}

// The best answer of the enforcer at this place, if there are so many.
fn await_enforcer<'q, H: Hints>(
    search: &BoardSearch<'_, 'q>,
    turn: &mut JobTurn<'_, 'q, H>,
    group: KeyParts,
    wanted: Request,
    place: u32,
) -> Option<KnownBest>
    requires at_work { IsAtWork search.now turn.old (H.capacity turn.old.hints.now) }
    requires goal { IsTurnOf search.now turn.old (Opt group wanted) }
    ensures at_work { StaysAtWork search.now turn.old turn.new (H.capacity turn.new.hints.now) }
    ensures chooses { FindsBestEnforcerAt search.now turn.old group wanted place result turn.new }
{
    // For the proof: the request fits the group, a child of a goal has a word, and no node has no answer.
    goals_are_known();
    words_are_known();
    answers_are_best();
    match enforcer_for(search.query, search.props, group, wanted, place) {
        Some(enforced) => {
            let child = GoalKind::Opt(group, enforced.below);
            let word = request_goal(group, enforced.below);
            let found = await_best(search, turn, child, word)?;
            match found {
                KnownBest::Known(below) => {
                    let best = best_of_enforcer(
                        search.query,
                        search.props,
                        group,
                        wanted,
                        enforced,
                        below,
                    );
                    Some(KnownBest::Known(best))
                }
                KnownBest::Open => Some(KnownBest::Open),
            }
        }
        None => Some(KnownBest::Known(None)),
    }
}
