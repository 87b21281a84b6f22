//! The turn of a goal that chooses a plan of a group for a request.
#![tactic(auto)]

ghost use Rattle.goal_space.specs.declared.goals.GoalKind.TheVariants.{Opt};
ghost use Rattle.job_turns.specs.Searches.{IsAtWork, StaysAtWork};
ghost use Rattle.job_turns.specs.Seats.{IsTurnOf, TurnWorks};
ghost use Rattle.job_turns.specs.Finds.{ShowsImplemented, FindsBestNode};

use crate::board_search::BoardSearch;
use crate::enforcers::{best_enforcer, put_enforcers};
use crate::job_turn::JobTurn;
use crate::known_best::{KnownBest, progress_of};
use crate::laws::words_are_known;
use crate::members::best_member;
use crate::over_query::await_goal;
use best_answers::answers_are_best;
use board_moves::Progress;
use goal_board::Hints;
use goal_space::{GoalKind, goals_are_known};
use query_core::KeyParts;
use request_props::Request;

/// The least plan of the group for the request is known once the group is implemented, and the
/// least plans are known with each node at their root that may serve.
pub(crate) fn choose_plan<'q, H: Hints>(
    search: &BoardSearch<'_, 'q>,
    turn: &mut JobTurn<'_, 'q, H>,
    group: KeyParts,
    wanted: Request,
) -> Progress
    requires at_work { IsAtWork search.now turn.old (H.capacity turn.old.hints.now) }
    requires goal { IsTurnOf search.now turn.old (Opt group wanted) }
    ensures at_work { StaysAtWork search.now turn.old turn.new (H.capacity turn.new.hints.now) }
    ensures works { TurnWorks search.now turn.old (Opt group wanted) result turn.new }
{
    // For the proof: the goal's word says what its children are.
    words_are_known();
    match await_goal(search, turn, GoalKind::Imp(group)) {
        Progress::Complete(_) => {
            let found = best_plan(search, turn, group, wanted);
            progress_of(&turn.job, found)
        }
        // What enforcers ask for needs no members, so it is put in at once.
        Progress::Waiting => {
            if put_enforcers(search, turn, group, wanted) {
                Progress::Waiting
            } else {
                Progress::Full
            }
        }
        Progress::Full => Progress::Full,
    }
}

// The best answer of all nodes. None where a goal found every cell taken.
fn best_plan<'q, H: Hints>(
    search: &BoardSearch<'_, 'q>,
    turn: &mut JobTurn<'_, 'q, H>,
    group: KeyParts,
    wanted: Request,
) -> Option<KnownBest>
    requires at_work { IsAtWork search.now turn.old (H.capacity turn.old.hints.now) }
    requires goal { IsTurnOf search.now turn.old (Opt group wanted) }
    requires implemented { ShowsImplemented search.now turn.old.seat.now group }
    ensures at_work { StaysAtWork search.now turn.old turn.new (H.capacity turn.new.hints.now) }
    ensures chooses { FindsBestNode search.now turn.old group wanted result turn.new }
{
    // For the proof: the best of two sets is that of both, and these are all nodes that may serve.
    goals_are_known();
    answers_are_best();
    // What enforcers ask for waits for more, so it is waited for first.
    let enforced = best_enforcer(search, turn, group, wanted)?;
    let member = best_member(search, turn, group, wanted)?;
    Some(enforced.or(member))
}
