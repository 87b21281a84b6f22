//! The double collection of a group of the running example, whose origin alone is in a cell.

ghost use Rattle.std.specs.Prelude.{All};
ghost use Rattle.request_props.specs.Numbered.{IsProps};
ghost use Rattle.goal_space.specs.Goals.{IsGoal};
ghost use Rattle.goal_space.specs.Entries.{IsGoalWord};
ghost use Rattle.goal_space.specs.declared.goals.GoalKind.TheVariants.{Exp};
ghost use Rattle.job_turns.specs.Searches.{IsBoardSearch, IsSeat};

use crate::searches::search;
use goal_board::{Board, Inserted, Seat};
use goal_rules::Rules;
use goal_space::{GoalKind, goal_kinds_are_one, goals_are_known};
use job_turns::{BoardSearch, Settled, settled};
use query_core::{Expr, Goal, KeyParts, Query, candidates_are_known};
use request_props::Props;
use std::alloc::Global;
use std::test::Fail;
use worked_queries::{implied, two_tables};

// What the collection says once the group's origin is in a cell.
fn settled_over_origin<'q>(
    search: &BoardSearch<'_, 'q>,
    seat: &mut Seat<Rules<'q>>,
    group: KeyParts,
) -> Option<Settled>
    requires search { IsBoardSearch search.now }
    requires seat { IsSeat search.now.board.now seat.old }
    requires goal { IsGoal search.now.query.now (Exp group) }
{
    // For the proof: the origin of a goal's group is a member, and has a word.
    goals_are_known();
    candidates_are_known();
    match search
        .board
        .insert(seat, Expr::make(search.query.origin_of_group(group)).0)
    {
        Inserted::Full => None,
        _ => Some(settled(search, seat, group)),
    }
}

// The same of the group that the goal of this word explores.
fn settled_of<'q>(
    search: &BoardSearch<'_, 'q>,
    seat: &mut Seat<Rules<'q>>,
    word: u64,
) -> Option<Settled>
    requires search { IsBoardSearch search.now }
    requires seat { IsSeat search.now.board.now seat.old }
    requires goal { IsGoalWord search.now.query.now word }
{
    // For the proof: goals of the query have words, and a word is that of one goal.
    goals_are_known();
    goal_kinds_are_one();
    match GoalKind::of(Goal(word)) {
        Some(GoalKind::Exp(group)) => settled_over_origin(search, seat, group),
        _ => None,
    }
}

// The goal Exp Get(T1): kind 0 and key 0.
const EXPLORED: u64 = 8 << 60;

// The same of that goal, if it is one of these.
fn settled_among<'q>(
    search: &BoardSearch<'_, 'q>,
    seat: &mut Seat<Rules<'q>>,
    goals: &[u64],
) -> Option<Settled>
    requires search { IsBoardSearch search.now }
    requires seat { IsSeat search.now.board.now seat.old }
    requires goals { All (IsGoalWord search.now.query.now) goals.now }
{
    for word in goals {
        if *word == EXPLORED {
            return settled_of(search, seat, *word);
        }
    }
    None
}

// The same over the query's goals, on a board with room for all entries.
fn settled_at_first(alloc: Global, query: &Query, props: &Props) -> Result<Option<Settled>, Fail>
    requires { IsProps query.now props.now }
{
    let found = search(alloc, query, props)?;
    let (board, mut seat) = Board::start(alloc, Rules::new(query, props), 79)?;
    let search = BoardSearch {
        query,
        props,
        board: &board,
    };
    Ok(settled_among(&search, &mut seat, found.goals.as_slice()))
}

// ExpE of the origin isn't finished. Its word has kind 1, key 0 and the operator Get.
#[test]
fn a_group_whose_origin_is_not_explored_is_open(rt: HostRuntime) -> Result<(), Fail> {
    let (query, props) = implied(rt.alloc(), two_tables(rt.alloc())?)?;
    let told = settled_at_first(rt.alloc(), &query, &props)?;
    let goal = 0x9000_0800_0000_0000;
    assert!(rt; told == Some(Settled::Open { goal }));
    Ok(())
}
