ghost use Rattle.std.specs.Prelude.{◌≡◌, ℕ, ◌<◌, ◌≤◌, [], ◌∷◌};
ghost use Rattle.board_rule.specs.Looks.{ShowsFinished};
ghost use Rattle.board_tests.specs.Numbers.{HasOnly};
ghost use Rattle.board_tests.specs.Idle.{IsIdleAt, StaysIdle, KeepsSeat, HasLooked};
ghost use Rattle.goal_board.specs.Seats.{IsSeatOf, hands};
ghost use Rattle.goal_board.specs.Calls.{Inserts};
ghost use Rattle.goal_board.specs.RightCalls.{waited};
ghost use Rattle.goal_board.specs.SeatCalls.{HasRightTo, HasSeenPromise};

use crate::Numbers;
use goal_board::{
    Answer, Awaited, Board, ClosedBoard, Finished, GoalRules, Hints, Inserted, Right, Seat,
    Suspended, Woken,
};
use std::alloc::{AllocError, Global};
use std::process::Abort;
use std::test::Fail;
use std::thread;
use std::thread::Threads;

// Hears no hint.
#[derive(Drop)]
struct Deaf {
    below: u32,
}

impl Hints for Deaf {
    ghost capacity = { λ d. d.below };

    fn hint(&mut self, _place: u32) {}
}

// An insert, after which the seat has the parts and rights that it had.
fn put_in<R: GoalRules>(board: &Board<R>, seat: &mut Seat<R>, word: u64) -> Inserted
    requires seat { IsSeatOf R.meaning board.now seat.old }
    requires enters { (R.meaning board.now.setup.rules).entry word }
    ensures seat { KeepsSeat R.meaning board.now seat.old seat.new }
    ensures answer { Inserts board.now.setup.capacity (hands seat.old) word result (hands seat.new) }
{
    board.insert(seat, word)
}

// The right to a goal that is ready, for a seat with no right.
fn claim_goal<R: GoalRules>(
    rt: &impl Abort,
    board: &Board<R>,
    seat: &mut Seat<R>,
    at: u32,
    goal: u64,
) -> Right
    requires seat { IsSeatOf R.meaning board.now seat.old }
    requires near { at < board.now.setup.capacity }
    requires rights { (hands seat.old).rights ≡ [] }
    ensures seat { IsSeatOf R.meaning board.now seat.new }
    ensures right { HasRightTo R.meaning board.now seat.new result }
    ensures goal { result.goal ≡ goal }
    ensures waits { result.waits ≡ 0 }
    ensures only { HasOnly (hands seat.new).rights result.place }
    ensures parts { (hands seat.new).parts ≡ (hands seat.old).parts }
{
    let Some(right) = board.claim(seat, at) else {
        panic!(rt; "the goal is not ready");
    };
    if right.goal() != goal {
        board.suspend(seat, right);
        panic!(rt; "another goal stands there");
    }
    right
}

// A goal that is held or waits is not claimed.
fn find_busy<R: GoalRules>(rt: &impl Abort, board: &Board<R>, seat: &mut Seat<R>, at: u32)
    requires seat { IsSeatOf R.meaning board.now seat.old }
    requires near { at < board.now.setup.capacity }
    ensures seat { KeepsSeat R.meaning board.now seat.old seat.new }
    ensures looks { HasLooked (hands seat.old) (hands seat.new) }
{
    match board.claim(seat, at) {
        None => {}
        Some(right) => {
            board.suspend(seat, right);
            panic!(rt; "the goal is ready");
        }
    }
}

// A goal that is held is not claimed again.
fn claim_in_vain<R: GoalRules>(
    rt: &impl Abort,
    board: &Board<R>,
    seat: &mut Seat<R>,
    at: u32,
    right: &Right,
)
    requires seat { IsSeatOf R.meaning board.now seat.old }
    requires near { at < board.now.setup.capacity }
    requires right { HasRightTo R.meaning board.now seat.old right.now }
    ensures seat { KeepsSeat R.meaning board.now seat.old seat.new }
    ensures right { HasRightTo R.meaning board.now seat.new right.now }
{
    find_busy(rt, board, seat, at);
}

// Waits for a child that stands in the cell.
fn wait_on<R: GoalRules>(
    rt: &impl Abort,
    board: &Board<R>,
    seat: &mut Seat<R>,
    right: &mut Right,
    at: u32,
    child: u64,
) -> Awaited
    requires seat { IsSeatOf R.meaning board.now seat.old }
    requires near { at < board.now.setup.capacity }
    requires right { HasRightTo R.meaning board.now seat.old right.old }
    requires only { HasOnly (hands seat.old).rights right.old.place }
    requires child { (R.meaning board.now.setup.rules).child right.old.goal child }
    requires fewer { right.old.waits < 8 }
    ensures seat { IsSeatOf R.meaning board.now seat.new }
    ensures right { HasRightTo R.meaning board.now seat.new right.new }
    ensures only { HasOnly (hands seat.new).rights right.new.place }
    ensures waited { right.new ≡ waited result right.old }
    ensures parts { (hands seat.new).parts ≡ (hands seat.old).parts }
{
    let Some(word) = board.word_at(seat, at) else {
        panic!(rt; "the cell is empty");
    };
    if word != child {
        panic!(rt; "another word stands there");
    }
    board.wait_for(seat, right, at)
}

// Gives up the only right of a seat.
fn pause<R: GoalRules>(board: &Board<R>, seat: &mut Seat<R>, right: Right) -> Suspended
    requires seat { IsSeatOf R.meaning board.now seat.old }
    requires right { HasRightTo R.meaning board.now seat.old right }
    requires only { HasOnly (hands seat.old).rights right.place }
    ensures seat { IsSeatOf R.meaning board.now seat.new }
    ensures rights { (hands seat.new).rights ≡ [] }
    ensures parts { (hands seat.new).parts ≡ (hands seat.old).parts }
{
    board.suspend(seat, right)
}

// Finishes a goal, by the only right of a seat.
fn finish_one<R: GoalRules>(
    board: &Board<R>,
    seat: &mut Seat<R>,
    right: Right,
    worker: u32,
    answer: Answer,
) -> Woken
    requires seat { IsSeatOf R.meaning board.now seat.old }
    requires right { HasRightTo R.meaning board.now seat.old right }
    requires only { HasOnly (hands seat.old).rights right.place }
    requires waits { right.waits ≡ 0 }
    requires worker { worker < 64 }
    requires promise { HasSeenPromise R.meaning board.now seat.old right.goal }
    requires answer { (R.meaning board.now.setup.rules).answer right.goal answer.cost answer.node }
    ensures seat { IsSeatOf R.meaning board.now seat.new }
    ensures rights { (hands seat.new).rights ≡ [] }
    ensures parts { (hands seat.new).parts ≡ (hands seat.old).parts }
{
    let mut deaf = Deaf {
        below: board.capacity(),
    };
    board.finish(seat, right, worker, answer, &mut deaf)
}

// The answer of the goal at a place, if it is finished.
fn answer_at<R: GoalRules>(board: &Board<R>, seat: &mut Seat<R>, at: u32) -> Option<Answer>
    requires seat { IsSeatOf R.meaning board.now seat.old }
    requires near { at < board.now.setup.capacity }
    ensures seat { KeepsSeat R.meaning board.now seat.old seat.new }
{
    board.answer(seat, at)
}

// The answer of a finished goal, which the seat has seen from then on.
fn see_finished<R: GoalRules>(
    rt: &impl Abort,
    board: &Board<R>,
    seat: &mut Seat<R>,
    at: u32,
    goal: u64,
    right: &Right,
) -> Answer
    requires seat { IsSeatOf R.meaning board.now seat.old }
    requires near { at < board.now.setup.capacity }
    requires right { HasRightTo R.meaning board.now seat.old right.now }
    ensures seat { KeepsSeat R.meaning board.now seat.old seat.new }
    ensures right { HasRightTo R.meaning board.now seat.new right.now }
    ensures finished { ShowsFinished (R.meaning board.now.setup.rules) board.now.setup.capacity
        (hands seat.new).looks goal }
{
    let Some(word) = board.word_at(seat, at) else {
        panic!(rt; "the cell is empty");
    };
    if word != goal {
        panic!(rt; "another word stands there");
    }
    let Some(answer) = board.answer(seat, at) else {
        panic!(rt; "the goal is not finished");
    };
    answer
}

// One of 79 words as members and goals have them.
fn word_of(number: u64) -> u64
    requires { number ≤ 78 }
    ensures { 1 ≤ result }
{
    if number < 30 {
        (number + 1) << 36
    } else {
        (1 << 63) + (number << 12)
    }
}

// Puts all of these words in, and says how many of them were new.
fn put_all(board: &Board<Numbers>, mut seat: Seat<Numbers>) -> (Seat<Numbers>, u64)
    requires seat { IsSeatOf ⟦<Numbers as GoalRules>⟧.meaning board.now seat }
    requires limit { board.now.setup.rules.limit ≡ 18446744073709551615 }
    requires rights { (hands seat).rights ≡ [] }
    ensures seat { IsSeatOf ⟦<Numbers as GoalRules>⟧.meaning board.now result.0 }
    ensures parts { (hands result.0).parts ≡ (hands seat).parts }
    ensures rights { (hands result.0).rights ≡ [] }
{
    let mut fresh = 0;
    for number in 0..79 {
        if let Inserted::Fresh { at: _ } = put_in(board, &mut seat, word_of(number)) {
            fresh += 1;
        }
    }
    (seat, fresh)
}

// The place of a word that wasn't there.
fn place_of(rt: &impl Abort, board: &Board<Numbers>, seat: &mut Seat<Numbers>, word: u64) -> u32
    requires idle { IsIdleAt board.now seat.old }
    requires enters { (1 ≤ word) × (word ≤ 4) }
    ensures idle { StaysIdle board.now seat.old seat.new }
    ensures near { result < board.now.setup.capacity }
{
    match put_in(board, seat, word) {
        Inserted::Fresh { at } => at,
        Inserted::Known { .. } => panic!(rt; "the word was there"),
        Inserted::Full => panic!(rt; "the board is full"),
    }
}

// Finishes 3, which has no children.
fn finish_three(
    rt: &impl Abort,
    board: &Board<Numbers>,
    seat: &mut Seat<Numbers>,
    three: u32,
) -> Woken
    requires idle { IsIdleAt board.now seat.old }
    requires near { three < board.now.setup.capacity }
    ensures idle { StaysIdle board.now seat.old seat.new }
{
    let right = claim_goal(rt, board, seat, three, 3);
    finish_one(board, seat, right, 5, Answer { cost: 30, node: 3 })
}

// Finishes 4, once 3 is finished.
fn finish_four(
    rt: &impl Abort,
    board: &Board<Numbers>,
    seat: &mut Seat<Numbers>,
    three: u32,
    four: u32,
) -> Woken
    requires idle { IsIdleAt board.now seat.old }
    requires near { (three < board.now.setup.capacity) × (four < board.now.setup.capacity) }
    ensures idle { StaysIdle board.now seat.old seat.new }
{
    let right = claim_goal(rt, board, seat, four, 4);
    let answer = see_finished(rt, board, seat, three, 3, &right);
    assert_eq!(rt; answer, Answer { cost: 30, node: 3 });
    finish_one(board, seat, right, 63, Answer { cost: 40, node: 4 })
}

// Claims 3, which nobody else can claim then, and gives it up.
fn claim_and_give_up(
    rt: &impl Abort,
    board: &Board<Numbers>,
    seat: &mut Seat<Numbers>,
    three: u32,
) -> Suspended
    requires idle { IsIdleAt board.now seat.old }
    requires near { three < board.now.setup.capacity }
    ensures idle { StaysIdle board.now seat.old seat.new }
{
    let right = claim_goal(rt, board, seat, three, 3);
    claim_in_vain(rt, board, seat, three, &right);
    pause(board, seat, right)
}

// Lets 4, which nobody else can claim then, wait for 3, and gives it up.
fn wait_and_give_up(
    rt: &impl Abort,
    board: &Board<Numbers>,
    seat: &mut Seat<Numbers>,
    three: u32,
    four: u32,
) -> (Awaited, Suspended)
    requires idle { IsIdleAt board.now seat.old }
    requires near { (three < board.now.setup.capacity) × (four < board.now.setup.capacity) }
    ensures idle { StaysIdle board.now seat.old seat.new }
{
    let mut right = claim_goal(rt, board, seat, four, 4);
    claim_in_vain(rt, board, seat, four, &right);
    let awaited = wait_on(rt, board, seat, &mut right, three, 3);
    (awaited, pause(board, seat, right))
}

// Finishes 4, whose wait for 3 finds it finished.
fn wait_and_finish(
    rt: &impl Abort,
    board: &Board<Numbers>,
    seat: &mut Seat<Numbers>,
    three: u32,
    four: u32,
) -> Woken
    requires idle { IsIdleAt board.now seat.old }
    requires near { (three < board.now.setup.capacity) × (four < board.now.setup.capacity) }
    ensures idle { StaysIdle board.now seat.old seat.new }
{
    let mut right = claim_goal(rt, board, seat, four, 4);
    if wait_on(rt, board, seat, &mut right, three, 3) == Awaited::Registered {
        pause(board, seat, right);
        panic!(rt; "3 is not finished");
    }
    see_finished(rt, board, seat, three, 3, &right);
    finish_one(board, seat, right, 63, Answer { cost: 40, node: 4 })
}

// What a closed board held: so many cells and finished goals, a goal that is ready, and whether it was full.
fn holds(
    alloc: Global,
    board: &ClosedBoard,
    cells: usize,
    finished: u32,
    ready: Option<u64>,
    full: bool,
) -> Result<bool, AllocError> {
    Ok(
        board.cells(alloc)?.len() == cells
            && board.finished_count() == finished
            && board.ready(&Numbers { limit: 4 }) == ready
            && board.is_full() == full,
    )
}

// Whether the word was found.
fn finds(board: &Board<Numbers>, seat: &mut Seat<Numbers>, word: u64) -> bool
    requires idle { IsIdleAt board.now seat.old }
    ensures idle { StaysIdle board.now seat.old seat.new }
{
    board.holds(seat, word)
}

fn put_three_words(rt: &impl Abort, board: &Board<Numbers>, seat: &mut Seat<Numbers>)
    requires idle { IsIdleAt board.now seat.old }
    ensures idle { StaysIdle board.now seat.old seat.new }
{
    place_of(rt, board, seat, 4);
    place_of(rt, board, seat, 3);
    assert!(rt; matches!(put_in(board, seat, 3), Inserted::Known { .. }));
}

#[test]
fn a_word_is_in_one_cell(rt: HostRuntime) -> Result<(), Fail> {
    let (board, mut seat) = Board::start(rt.alloc(), Numbers { limit: 4 }, 4)?;
    put_three_words(&rt, &board, &mut seat);
    let mut other = board.split(&mut seat);
    place_of(&rt, &board, &mut other, 1);
    assert!(rt; finds(&board, &mut seat, 1));
    board.join(&mut seat, other);
    let closed = board.close(seat);
    assert!(rt; closed.cells(rt.alloc())?.len() == 3 && closed.finished_count() == 0);
    assert!(rt; !closed.is_full() && closed.answer(4).is_none());
    Ok(())
}

fn claim_in_turn(rt: &impl Abort, board: &Board<Numbers>, seat: &mut Seat<Numbers>)
    requires idle { IsIdleAt board.now seat.old }
    ensures idle { StaysIdle board.now seat.old seat.new }
{
    let three = place_of(rt, board, seat, 3);
    let four = place_of(rt, board, seat, 4);
    assert_eq!(rt; claim_and_give_up(rt, board, seat, three), Suspended::Ready);
    assert_eq!(rt; finish_three(rt, board, seat, three).count, 0);
    assert_eq!(rt; answer_at(board, seat, four), None);
    finish_four(rt, board, seat, three, four);
}

#[test]
fn a_goal_is_claimed_by_one_at_a_time(rt: HostRuntime) -> Result<(), Fail> {
    let (board, mut seat) = Board::start(rt.alloc(), Numbers { limit: 4 }, 4)?;
    claim_in_turn(&rt, &board, &mut seat);
    let closed = board.close(seat);
    assert!(rt; holds(rt.alloc(), &closed, 2, 2, None, false)?);
    assert_eq!(rt; closed.answer(4), Some(Answer { cost: 40, node: 4 }));
    Ok(())
}

// Lets 4 wait for 3, finishes 3 and then 4. Tells whether 4 stands before 3.
fn wait_for_three(rt: &impl Abort, board: &Board<Numbers>, seat: &mut Seat<Numbers>) -> bool
    requires idle { IsIdleAt board.now seat.old }
    ensures idle { StaysIdle board.now seat.old seat.new }
{
    let four = place_of(rt, board, seat, 4);
    let three = place_of(rt, board, seat, 3);
    assert!(rt; matches!(put_in(board, seat, 3), Inserted::Known { .. }));
    let waited = wait_and_give_up(rt, board, seat, three, four);
    assert_eq!(rt; waited, (Awaited::Registered, Suspended::Waiting));
    find_busy(rt, board, seat, four);
    let woken = finish_three(rt, board, seat, three);
    assert_eq!(rt;
        woken,
        Woken {
            count: 1,
            one: Some(four)
        }
    );
    assert_eq!(rt;
        wait_and_finish(rt, board, seat, three, four),
        Woken {
            count: 0,
            one: None
        }
    );
    assert_eq!(rt;
        answer_at(board, seat, three),
        Some(Answer { cost: 30, node: 3 })
    );
    four < three
}

// What came out of 3 or 4, and which worker finished it.
fn outcome_of(goal: u64) -> Finished {
    if goal == 3 {
        let answer = Answer { cost: 30, node: 3 };
        Finished {
            goal,
            answer,
            who: 5,
        }
    } else {
        let answer = Answer { cost: 40, node: 4 };
        Finished {
            goal,
            answer,
            who: 63,
        }
    }
}

#[test]
fn a_goal_waits_for_its_child(rt: HostRuntime) -> Result<(), Fail> {
    let (board, mut seat) = Board::start(rt.alloc(), Numbers { limit: 4 }, 4)?;
    let four_first = wait_for_three(&rt, &board, &mut seat);
    let other = board.split(&mut seat);
    board.join(&mut seat, other);
    let closed = board.close(seat);
    let (one, two) = if four_first { (4, 3) } else { (3, 4) };
    assert!(rt; closed.cells(rt.alloc())?.as_slice() == [one, two].as_slice());
    let finished = closed.finished(rt.alloc())?;
    assert!(rt; finished.as_slice() == [outcome_of(one), outcome_of(two)].as_slice());
    assert!(rt; holds(rt.alloc(), &closed, 2, 2, None, false)?);
    Ok(())
}

#[test]
fn a_goal_that_is_ready_is_told_at_the_end(rt: HostRuntime) -> Result<(), Fail> {
    let (board, mut seat) = Board::start(rt.alloc(), Numbers { limit: 4 }, 4)?;
    place_of(&rt, &board, &mut seat, 4);
    let closed = board.close(seat);
    assert!(rt; holds(rt.alloc(), &closed, 1, 0, Some(4), false)?);
    Ok(())
}

// Gives up a goal that was claimed beside another, and then that one.
fn give_up_both<R: GoalRules>(
    rt: &impl Abort,
    board: &Board<R>,
    seat: &mut Seat<R>,
    first: Right,
    at: u32,
) -> (Suspended, Suspended)
    requires seat { IsSeatOf R.meaning board.now seat.old }
    requires near { at < board.now.setup.capacity }
    requires right { HasRightTo R.meaning board.now seat.old first }
{
    let Some(second) = board.claim(seat, at) else {
        board.suspend(seat, first);
        panic!(rt; "the other goal is not ready");
    };
    let given = board.suspend(seat, second);
    (given, board.suspend(seat, first))
}

#[test]
fn a_seat_may_hold_two_goals(rt: HostRuntime) -> Result<(), Fail> {
    let (board, mut seat) = Board::start(rt.alloc(), Numbers { limit: 4 }, 4)?;
    let three = place_of(&rt, &board, &mut seat, 3);
    let four = place_of(&rt, &board, &mut seat, 4);
    let first = claim_goal(&rt, &board, &mut seat, three, 3);
    let given = give_up_both(&rt, &board, &mut seat, first, four);
    assert_eq!(rt; given, (Suspended::Ready, Suspended::Ready));
    Ok(())
}

fn fill_the_only_cell(rt: &impl Abort, board: &Board<Numbers>, seat: &mut Seat<Numbers>)
    requires idle { IsIdleAt board.now seat.old }
    ensures idle { StaysIdle board.now seat.old seat.new }
{
    assert!(rt; !board.full_seen(seat));
    let three = place_of(rt, board, seat, 3);
    assert!(rt; matches!(put_in(board, seat, 4), Inserted::Full));
    assert!(rt; matches!(put_in(board, seat, 3), Inserted::Known { .. }));
    assert!(rt; !board.holds(seat, 4) && board.full_seen(seat));
    assert_eq!(rt; finish_three(rt, board, seat, three).count, 0);
}

#[test]
fn a_board_of_one_cell_is_full_at_the_second_word(rt: HostRuntime) -> Result<(), Fail> {
    let (board, mut seat) = Board::start(rt.alloc(), Numbers { limit: 4 }, 1)?;
    fill_the_only_cell(&rt, &board, &mut seat);
    let closed = board.close(seat);
    assert!(rt; holds(rt.alloc(), &closed, 1, 1, None, true)?);
    assert!(rt; closed.cells(rt.alloc())?.as_slice() == [3].as_slice());
    Ok(())
}

#[test]
fn two_threads_put_each_word_once(rt: HostRuntime) -> Result<(), Fail> {
    let rules = Numbers { limit: u64::MAX };
    let (made, mut seat) = Board::start(rt.alloc(), rules, 79)?;
    let board = &made;
    let other = board.split(&mut seat);
    let ((other, first), (mut seat, second)) = thread::join(
        &rt,
        || put_all(board, other),
        || put_all(board, seat),
    );
    board.join(&mut seat, other);
    assert_eq!(rt; first.wrapping_add(second), 79);
    let closed = made.close(seat);
    assert_eq!(rt; closed.cells(rt.alloc())?.len(), 79);
    Ok(())
}
