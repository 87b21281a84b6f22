ghost use Rattle.std.specs.Prelude.{◌≡◌, ◌≢◌, ℕ};
ghost use Rattle.goal_board.specs.Seats.{IsSeatOf};
ghost use Rattle.goal_board.specs.SeatCalls.{HasSeenEntry};
ghost use Rattle.board_moves.specs.Collects.{IsExploration};
ghost use Rattle.board_moves.specs.Seats.{SeatSeesGoal, SeatSees, SeatCounts, SeatCollects, SeatCollectsTwice};

use crate::settled::{Seen, Settled};
use crate::words::{Group, Words};
use goal_board::{Board, GoalRules, Seat};

/// Goes over the members of a group that are in cells, and if the goals of all of them are finished, counts them again.
/// The looks show the group's origin in a cell. Beside looks nothing changes.
pub fn settle<R: GoalRules, W: Group>(board: &Board<R>, seat: &mut Seat<R>, group: &W) -> Settled
    requires seat { IsSeatOf R.meaning board.now seat.old }
    requires can_next { W.can_next group.now }
    requires group { IsExploration (R.meaning board.now.setup.rules)
        (W.origin group.now) (W.has group.now) (W.goal_of group.now) (W.goal group.now) }
    requires origin { HasSeenEntry R.meaning board.now seat.old (W.origin group.now) }
    ensures seat { IsSeatOf R.meaning board.now seat.new }
    ensures settles { SeatCollectsTwice R.meaning board.now seat.old (W.has group.now) (W.goal_of group.now)
        (W.goal group.now) result seat.new }
{
    match collect(board, seat, group) {
        Err(goal) => Settled::Open { goal },
        Ok(first) => {
            let second = count(board, seat, group);
            if first == second {
                Settled::Yes
            } else {
                Settled::Grew { first, second }
            }
        }
    }
}

// The first pass: how many members are in cells, or a goal of one of them that isn't finished.
fn collect<R: GoalRules, W: Group>(
    board: &Board<R>,
    seat: &mut Seat<R>,
    group: &W,
) -> Result<u64, u64>
    requires seat { IsSeatOf R.meaning board.now seat.old }
    requires can_next { W.can_next group.now }
    requires group { IsExploration (R.meaning board.now.setup.rules)
        (W.origin group.now) (W.has group.now) (W.goal_of group.now) (W.goal group.now) }
    ensures seat { IsSeatOf R.meaning board.now seat.new }
    ensures collects { SeatCollects R.meaning board.now seat.old (W.has group.now) (W.goal_of group.now)
        result seat.new }
{
    let mut number = 0;
    let mut before = None;
    while let Some(word) = group.next(before) {
        match see(board, seat, group, word) {
            Seen::Absent => {}
            Seen::Explored => number += 1,
            Seen::Unexplored { goal } => return Err(goal),
        }
        before = Some(word);
    }
    Ok(number)
}

// The second pass: how many members are in cells.
fn count<R: GoalRules, W: Words>(board: &Board<R>, seat: &mut Seat<R>, group: &W) -> u64
    requires seat { IsSeatOf R.meaning board.now seat.old }
    requires can_next { W.can_next group.now }
    requires words { (word : ℕ) → W.has group.now word → word ≢ 0 }
    ensures seat { IsSeatOf R.meaning board.now seat.new }
    ensures counts { SeatCounts R.meaning board.now seat.old (W.has group.now) result seat.new }
{
    let mut number = 0;
    let mut before = None;
    while let Some(word) = group.next(before) {
        if board.holds(seat, word) {
            number += 1;
        }
        before = Some(word);
    }
    number
}

// Whether a word is in a cell, and its goal finished.
fn see<R: GoalRules, W: Group>(board: &Board<R>, seat: &mut Seat<R>, group: &W, word: u64) -> Seen
    requires seat { IsSeatOf R.meaning board.now seat.old }
    requires group { IsExploration (R.meaning board.now.setup.rules)
        (W.origin group.now) (W.has group.now) (W.goal_of group.now) (W.goal group.now) }
    requires word { W.has group.now word }
    ensures seat { IsSeatOf R.meaning board.now seat.new }
    ensures sees { SeatSees R.meaning board.now seat.old (W.has group.now) (W.goal_of group.now)
        word result seat.new }
{
    match board.find(seat, word) {
        Some(_) => see_goal(board, seat, group.goal_of(word)),
        None => Seen::Absent,
    }
}

// Whether a goal is finished.
fn see_goal<R: GoalRules>(board: &Board<R>, seat: &mut Seat<R>, goal: u64) -> Seen
    requires seat { IsSeatOf R.meaning board.now seat.old }
    requires some_goal { goal ≢ 0 }
    ensures seat { IsSeatOf R.meaning board.now seat.new }
    ensures sees { SeatSeesGoal R.meaning board.now seat.old goal result seat.new }
{
    match board.find(seat, goal) {
        Some(at) => match board.answer(seat, at) {
            Some(_) => Seen::Explored,
            None => Seen::Unexplored { goal },
        },
        None => Seen::Unexplored { goal },
    }
}
