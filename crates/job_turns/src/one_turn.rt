//! One turn of the job whose goal was claimed.
#![tactic(auto)]

ghost use Rattle.std.specs.Prelude.{◌≡◌, ◌<◌};
ghost use Rattle.goal_space.specs.Entries.{NamesGoal};
ghost use Rattle.job_turns.specs.Searches.{IsBoardSearch, IsSeat, HasRight, IsAtWork, StaysAtWork};
ghost use Rattle.job_turns.specs.Seats.{IsTurnOf, TurnWorks};
ghost use Rattle.job_turns.specs.Turns.{SeatTurns};

use crate::board_search::BoardSearch;
use crate::expressions::transform_expression;
use crate::groups::{explore_group, implement_group};
use crate::job_turn::JobTurn;
use crate::modes::choose_mode;
use crate::requests::choose_plan;
use crate::rule_results::apply_rule;
use board_moves::{Job, Progress, Turned};
use goal_board::{Hints, Right, Seat};
use goal_rules::Rules;
use goal_space::{GoalKind, Phase, goals_are_known};
use query_core::Goal;
use xform_rules::members_are_known;

/// One turn of the job whose goal was claimed: it finishes the goal, or suspends it with a wait, or finds no cell for
/// an entry. The worker's number is below 64. It claims no other goal.
pub fn turn<'q, H: Hints>(
    search: &BoardSearch<'_, 'q>,
    seat: &mut Seat<Rules<'q>>,
    right: Right,
    worker: u32,
    hints: &mut H,
) -> Turned
    requires search { IsBoardSearch search.now }
    requires seat { IsSeat search.now.board.now seat.old }
    requires right { HasRight search.now.board.now seat.old right }
    requires fresh { right.waits ≡ 0 }
    requires worker { worker < 64 }
    requires hints { H.capacity hints.old ≡ search.now.board.now.setup.capacity }
    ensures seat { IsSeat search.now.board.now seat.new }
    ensures turns { SeatTurns search.now seat.old right worker result seat.new }
    ensures hints { H.capacity hints.new ≡ H.capacity hints.old }
{
    let job = Job::of(right);
    let goal = goal_of(search, seat, &job);
    let mut turn = JobTurn { seat, job, hints };
    let progress = work(search, &mut turn, goal);
    let JobTurn { seat, job, hints } = turn;
    job.end(search.board, seat, worker, progress, hints)
}

// The goal of a job.
#[inline(always)]
fn goal_of<'q>(search: &BoardSearch<'_, 'q>, seat: &Seat<Rules<'q>>, job: &Job) -> GoalKind
    requires search { IsBoardSearch search.now }
    requires right { HasRight search.now.board.now seat.now job.now.right }
    ensures { NamesGoal search.now.query.now job.now.right.goal result }
{
    // For the proof: a goal of the query has a word, and no member has it.
    goals_are_known();
    members_are_known();
    GoalKind::known(Goal(job.goal()))
}

// The work of the goal.
fn work<'q, H: Hints>(
    search: &BoardSearch<'_, 'q>,
    turn: &mut JobTurn<'_, 'q, H>,
    goal: GoalKind,
) -> Progress
    requires at_work { IsAtWork search.now turn.old (H.capacity turn.old.hints.now) }
    requires fresh { turn.old.job.right.waits ≡ 0 }
    requires goal { IsTurnOf search.now turn.old goal }
    ensures at_work { StaysAtWork search.now turn.old turn.new (H.capacity turn.new.hints.now) }
    ensures works { TurnWorks search.now turn.old goal result turn.new }
{
    match goal {
        GoalKind::Exp(group) => explore_group(search, turn, group),
        GoalKind::ExpE(e) => { transform_expression(search, turn, Phase::Exploration, e) }
        GoalKind::Xf(e, rule) => apply_rule(search, turn, e, rule),
        GoalKind::Imp(group) => implement_group(search, turn, group),
        GoalKind::ImpE(e) => { transform_expression(search, turn, Phase::Implementation, e) }
        GoalKind::Opt(group, wanted) => choose_plan(search, turn, group, wanted),
        GoalKind::OptE(e, wanted) => choose_mode(search, turn, e, wanted),
    }
}
