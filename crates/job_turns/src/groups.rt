//! The turns of goals that explore a group, and that implement one.
#![tactic(auto)]

ghost use Rattle.std.specs.Prelude.{◌≡◌};
ghost use Rattle.query_core.specs.Keys.{IsGroup};
ghost use Rattle.goal_space.specs.declared.goals.GoalKind.TheVariants.{Exp, Imp};
ghost use Rattle.job_turns.specs.Searches.{IsBoardSearch, IsSeat, IsAtWork, StaysAtWork};
ghost use Rattle.job_turns.specs.Seats.{IsTurnOf, ShowsOrigin, SeatSettles, TurnWorks};

use crate::board_search::BoardSearch;
use crate::expressions::NO_CHOICE;
use crate::group_members::{ExploredGroup, ImplementedGroup};
use crate::job_turn::JobTurn;
use crate::laws::words_are_known;
use crate::over_query::await_goal;
use board_moves::{Progress, Settled, await_found, explore, settle};
use goal_board::{Hints, Seat};
use goal_rules::{Rules, entries_are_known, explorations_are_known};
use goal_space::{GoalKind, goals_are_known, goals_ask_for_members};
use query_core::{KeyParts, candidates_are_known};
use xform_rules::{members_are_candidates, results_are_known};

/// A group is explored once all its logical members are there and explored.
pub(crate) fn explore_group<'q, H: Hints>(
    search: &BoardSearch<'_, 'q>,
    turn: &mut JobTurn<'_, 'q, H>,
    group: KeyParts,
) -> Progress
    requires at_work { IsAtWork search.now turn.old (H.capacity turn.old.hints.now) }
    requires fresh { turn.old.job.right.waits ≡ 0 }
    requires goal { IsTurnOf search.now turn.old (Exp group) }
    ensures at_work { StaysAtWork search.now turn.old turn.new (H.capacity turn.new.hints.now) }
    ensures works { TurnWorks search.now turn.old (Exp group) result turn.new }
{
    // For the proof: the goal asks for what is found from the group's origin.
    explorations_are_known();
    goals_are_known();
    words_are_known();
    explore(
        search.board,
        turn.seat,
        &mut turn.job,
        &ExploredGroup {
            query: search.query,
            props: search.props,
            group,
        },
        turn.hints,
    )
}

/// A group is implemented once it is explored, and each of its logical members is implemented.
pub(crate) fn implement_group<'q, H: Hints>(
    search: &BoardSearch<'_, 'q>,
    turn: &mut JobTurn<'_, 'q, H>,
    group: KeyParts,
) -> Progress
    requires at_work { IsAtWork search.now turn.old (H.capacity turn.old.hints.now) }
    requires goal { IsTurnOf search.now turn.old (Imp group) }
    ensures at_work { StaysAtWork search.now turn.old turn.new (H.capacity turn.new.hints.now) }
    ensures works { TurnWorks search.now turn.old (Imp group) result turn.new }
{
    // For the proof: what is found in cells are members, and physical ones are results at logical ones.
    goals_are_known();
    words_are_known();
    entries_are_known();
    members_are_candidates();
    results_are_known();
    match await_goal(search, turn, GoalKind::Exp(group)) {
        Progress::Full => Progress::Full,
        Progress::Waiting => Progress::Waiting,
        Progress::Complete(_) => {
            let members = ImplementedGroup {
                query: search.query,
                props: search.props,
                group,
            };
            match await_found(search.board, turn.seat, &mut turn.job, &members, turn.hints) {
                Some(_) => turn.job.progress(NO_CHOICE),
                None => Progress::Full,
            }
        }
    }
}

/// The double collection of a group that is explored: whether all its logical members are in cells, and the goals that
/// explore them finished.
pub fn settled<'q>(
    search: &BoardSearch<'_, 'q>,
    seat: &mut Seat<Rules<'q>>,
    group: KeyParts,
) -> Settled
    requires search { IsBoardSearch search.now }
    requires seat { IsSeat search.now.board.now seat.old }
    requires group { IsGroup search.now.query.now group }
    requires origin { ShowsOrigin search.now seat.old group }
    ensures seat { IsSeat search.now.board.now seat.new }
    ensures settles { SeatSettles search.now seat.old group result seat.new }
{
    // For the proof: the origin is a member, so the exploration of its group is a goal, and asks for what is found from
    // the origin.
    candidates_are_known();
    entries_are_known();
    goals_ask_for_members();
    explorations_are_known();
    settle(
        search.board,
        seat,
        &ExploredGroup {
            query: search.query,
            props: search.props,
            group,
        },
    )
}
