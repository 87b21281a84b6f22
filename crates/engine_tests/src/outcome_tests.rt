//! The entries of a query in the cells of a board.

ghost use Rattle.std.specs.Prelude.{◌≡◌, [], All};
ghost use Rattle.request_props.specs.Numbered.{IsProps};
ghost use Rattle.goal_space.specs.Entries.{IsEntry};
ghost use Rattle.goal_board.specs.Seats.{IsSeatOf, hands};

use crate::searches::search;
use goal_board::{Board, GoalRules, Inserted, Seat};
use goal_rules::Rules;
use query_core::Query;
use request_props::Props;
use std::alloc::{AllocError, Global};
use std::test::Fail;
use std::thread;
use std::thread::Threads;
use worked_queries::{implied, two_tables};

// Puts an entry in, and says whether it was new.
fn put_in<R: GoalRules>(board: &Board<R>, seat: &mut Seat<R>, word: u64) -> bool
    requires seat { IsSeatOf R.meaning board.now seat.old }
    requires enters { (R.meaning board.now.setup.rules).entry word }
    ensures seat { IsSeatOf R.meaning board.now seat.new }
    ensures parts { (hands seat.new).parts ≡ (hands seat.old).parts }
    ensures rights { (hands seat.new).rights ≡ (hands seat.old).rights }
{
    match board.insert(seat, word) {
        Inserted::Fresh { at: _at } => true,
        Inserted::Known { at: _at } => false,
        Inserted::Full => false,
    }
}

// Puts these entries in, and says how many of them were new.
fn put_all<R: GoalRules>(board: &Board<R>, seat: &mut Seat<R>, entries: &[u64]) -> usize
    requires seat { IsSeatOf R.meaning board.now seat.old }
    requires enter { All (R.meaning board.now.setup.rules).entry entries.now }
    ensures seat { IsSeatOf R.meaning board.now seat.new }
    ensures parts { (hands seat.new).parts ≡ (hands seat.old).parts }
    ensures rights { (hands seat.new).rights ≡ (hands seat.old).rights }
{
    let mut fresh = 0;
    for place in 0..entries.len() {
        if put_in(board, seat, entries[place]) {
            fresh += 1;
        }
    }
    fresh
}

// Puts the first entries in and then the others, and says how many of each were new.
fn put_both<R: GoalRules>(
    board: &Board<R>,
    mut seat: Seat<R>,
    first: &[u64],
    then: &[u64],
) -> (Seat<R>, usize, usize)
    requires seat { IsSeatOf R.meaning board.now seat }
    requires first { All (R.meaning board.now.setup.rules).entry first.now }
    requires then { All (R.meaning board.now.setup.rules).entry then.now }
    requires rights { (hands seat).rights ≡ [] }
    ensures seat { IsSeatOf R.meaning board.now result.0 }
    ensures parts { (hands result.0).parts ≡ (hands seat).parts }
    ensures rights { (hands result.0).rights ≡ [] }
{
    let fresh = put_all(board, &mut seat, first);
    let others = put_all(board, &mut seat, then);
    (seat, fresh, others)
}

// Two threads put the same entries in, in different orders. Says how many members were new, and how many goals.
fn put_by_two<R: GoalRules>(
    rt: &impl Threads,
    board: &Board<R>,
    mut seat: Seat<R>,
    members: &[u64],
    goals: &[u64],
) -> (Seat<R>, usize, usize)
    requires seat { IsSeatOf R.meaning board.now seat }
    requires members { All (R.meaning board.now.setup.rules).entry members.now }
    requires goals { All (R.meaning board.now.setup.rules).entry goals.now }
    requires parts { (hands seat).parts ≡ 64 }
    requires rights { (hands seat).rights ≡ [] }
    ensures seat { IsSeatOf R.meaning board.now result.0 }
    ensures parts { (hands result.0).parts ≡ 64 }
    ensures rights { (hands result.0).rights ≡ [] }
{
    let other = board.split(&mut seat);
    let ((other, new_members, new_goals), (mut seat, more_goals, more_members)) = thread::join(
        rt,
        ||
            requires seat { IsSeatOf R.meaning board.now other }
            requires members { All (R.meaning board.now.setup.rules).entry members.now }
            requires goals { All (R.meaning board.now.setup.rules).entry goals.now }
            requires rights { (hands other).rights ≡ [] }
        { put_both(board, other, members, goals) },
        ||
            requires seat { IsSeatOf R.meaning board.now seat }
            requires members { All (R.meaning board.now.setup.rules).entry members.now }
            requires goals { All (R.meaning board.now.setup.rules).entry goals.now }
            requires rights { (hands seat).rights ≡ [] }
        { put_both(board, seat, goals, members) },
    );
    board.join(&mut seat, other);
    (
        seat,
        new_members.wrapping_add(more_members),
        new_goals.wrapping_add(more_goals),
    )
}

// Whether the cells in ascending order are the members and then the goals.
fn are_those(
    alloc: Global,
    cells: &[u64],
    members: &[u64],
    goals: &[u64],
) -> Result<bool, AllocError> {
    let mut cells = Vec::from_slice(alloc, cells)?;
    cells.sort()?;
    let mut entries = Vec::from_slice(alloc, members)?;
    entries.extend_from_slice(goals)?;
    Ok(cells.as_slice() == entries.as_slice())
}

// Two threads put these entries of the query into a board. Says how many members were new, how many goals, and whether
// the cells are just these.
fn put_into_board(
    rt: &impl Threads,
    alloc: Global,
    query: &Query,
    props: &Props,
    members: &[u64],
    goals: &[u64],
) -> Result<(usize, usize, bool), AllocError>
    requires props { IsProps query.now props.now }
    requires members { All (IsEntry query.now) members.now }
    requires goals { All (IsEntry query.now) goals.now }
{
    let (board, seat) = Board::start(alloc, Rules::new(query, props), 79)?;
    let (seat, new_members, new_goals) = put_by_two(rt, &board, seat, members, goals);
    let cells = board.close(seat).cells(alloc)?;
    let same = are_those(alloc, &cells, members, goals)?;
    Ok((new_members, new_goals, same))
}

// The same for all entries of the query.
fn put_entries(
    rt: &impl Threads,
    alloc: Global,
    query: &Query,
    props: &Props,
) -> Result<(usize, usize, bool), Fail>
    requires { IsProps query.now props.now }
{
    let found = search(alloc, query, props)?;
    Ok(put_into_board(
        rt,
        alloc,
        query,
        props,
        found.members.as_slice(),
        found.goals.as_slice(),
    )?)
}

#[test]
fn two_threads_put_each_entry_of_a_query_once(rt: HostRuntime) -> Result<(), Fail> {
    let (query, props) = implied(rt.alloc(), two_tables(rt.alloc())?)?;
    let told = put_entries(&rt, rt.alloc(), &query, &props)?;
    assert_eq!(rt; told, (13, 66, true));
    Ok(())
}
