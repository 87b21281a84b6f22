// One private call for each kind of step by which a wait is put in, and by which a closed list is walked.
ghost use Rattle.std.specs.Prelude.{◌≡◌, ℕ, ◌+◌, ◌-◌, ◌*◌, ◌/◌, ◌%◌, ◌^◌, ◌<◌};
ghost use Rattle.board_rule.specs.Words.{next_word};
ghost use Rattle.board_rule.specs.Waiters.{pushed};
ghost use Rattle.board_rule.specs.May.{MayBegin, MaySee, MayLink, MayPush, MayDrop, MayWalk};
ghost use Rattle.board_rule.specs.Plays.{BeginsAt, SeesHeadAt, PushesWait, DropsWaitOf, ReadsNextOf, ClearsBitOf};
ghost use Rattle.board_rule.specs.Seats.{next_stored};
ghost use Rattle.goal_board.specs.Seats.{IsInCall, hands, the_wait};
ghost use Rattle.goal_board.specs.RightCalls.{waiting_right};

use crate::board::{Board, Seat};
use crate::steps::{head_at, run_at};
use board_rule::{BeginWait, ClearBit, DropWait, GoalRules, PutWait, ReadNext, SeeHead, StoreNext};

/// How many bits of a word name a waiter.
const NAME_BITS: u32 = 24;

// The number of a waiter's next word.
fn next_at(waiter: u32) -> usize
    ensures { result ≡ next_word waiter }
{
    14 * (waiter / 8) as usize + 7 + (waiter % 8) as usize
}

// The bit of a wait in a run word.
pub fn bit_of(number: u32) -> u64
    requires { number < 8 }
    ensures { result ≡ 2 ^ number }
{
    1 << number
}

// What a head or a next word names first: a waiter plus 1, or 0 for none.
pub fn first_name(word: u64) -> u64
    ensures { result ≡ word % 2 ^ 24 }
{
    word % (1 << NAME_BITS)
}

// The run word's bits but for that of a wait.
fn all_but(number: u32) -> u64
    requires { number < 8 }
    ensures { result ≡ 2 ^ 64 - 1 - 2 ^ number }
{
    u64::MAX - bit_of(number)
}

impl<R: GoalRules> Board<R> {
    // Sets the bit of a right's next wait. Gives the run word as it was.
    pub(crate) fn begin_wait(&self, seat: &mut Seat<R>, place: u32, waits: u32) -> u64
        requires seat { IsInCall R.meaning self.now seat.old }
        requires may { MayBegin self.now.setup.capacity (hands seat.old) (waiting_right place waits) }
        ensures seat { IsInCall R.meaning self.now seat.new }
        ensures told { BeginsAt R.meaning (hands seat.old) place result (hands seat.new) }
    {
        self.table
            .shared
            .fetch_or::<BeginWait>(&mut seat.seat, run_at(place), bit_of(waits))
    }

    // Looks at a child's head, for the wait that is being put in.
    pub(crate) fn see_head(&self, seat: &mut Seat<R>, child: u32) -> u64
        requires seat { IsInCall R.meaning self.now seat.old }
        requires may { MaySee (R.meaning self.now.setup.rules) self.now.setup.capacity (hands seat.old)
            (the_wait (hands seat.old)) child }
        ensures seat { IsInCall R.meaning self.now seat.new }
        ensures told { SeesHeadAt R.meaning (hands seat.old) (the_wait (hands seat.old)) child
            result (hands seat.new) }
    {
        self.table
            .shared
            .load::<SeeHead>(&mut seat.seat, head_at(child))
    }

    // Stores the waiter's next word, for the child's head as last seen.
    pub(crate) fn store_next(&self, seat: &mut Seat<R>, waiter: u32, head: u64)
        requires seat { IsInCall R.meaning self.now seat.old }
        requires may { MayLink (hands seat.old) (the_wait (hands seat.old)) head }
        requires waiter { (the_wait (hands seat.old)).waiter ≡ waiter }
        requires near { waiter / 8 < self.now.setup.capacity }
        ensures seat { IsInCall R.meaning self.now seat.new }
        ensures hands { hands seat.new ≡ next_stored (hands seat.old) (the_wait (hands seat.old)) head }
    {
        self.table
            .shared
            .store::<StoreNext>(&mut seat.seat, next_at(waiter), first_name(head));
    }

    // Puts the waiter first into the child's list, where the head is as last seen. Gives the head as it was.
    pub(crate) fn put_wait(&self, seat: &mut Seat<R>, waiter: u32, child: u32, head: u64) -> u64
        requires seat { IsInCall R.meaning self.now seat.old }
        requires may { MayPush self.now.setup.capacity (hands seat.old) (the_wait (hands seat.old)) head }
        requires waiter { (the_wait (hands seat.old)).waiter ≡ waiter }
        requires child { (the_wait (hands seat.old)).child ≡ child }
        requires near { child < self.now.setup.capacity }
        requires fits { pushed head waiter < 2 ^ 64 }
        ensures seat { IsInCall R.meaning self.now seat.new }
        ensures told { PushesWait R.meaning (hands seat.old) (the_wait (hands seat.old)) head
            result (hands seat.new) }
    {
        let new = ((head >> NAME_BITS) + 1) * (1 << NAME_BITS) + (waiter as u64 + 1);
        self.table
            .shared
            .compare_exchange::<PutWait>(&mut seat.seat, head_at(child), head, new)
    }

    // Clears the bit of the wait that was being put in, whose child is finished. Gives the run word before.
    pub(crate) fn drop_wait(&self, seat: &mut Seat<R>, waiter: u32) -> u64
        requires seat { IsInCall R.meaning self.now seat.old }
        requires may { MayDrop (hands seat.old) (the_wait (hands seat.old)) }
        requires waiter { (the_wait (hands seat.old)).waiter ≡ waiter }
        requires near { waiter / 8 < self.now.setup.capacity }
        ensures seat { IsInCall R.meaning self.now seat.new }
        ensures told { DropsWaitOf R.meaning (hands seat.old) (the_wait (hands seat.old))
            result (hands seat.new) }
    {
        self.table
            .shared
            .fetch_and::<DropWait>(&mut seat.seat, run_at(waiter / 8), all_but(waiter % 8))
    }

    // Looks at the next word of the first waiter of the list that the seat walks.
    pub(crate) fn read_next(&self, seat: &mut Seat<R>, waiter: u32) -> u64
        requires seat { IsInCall R.meaning self.now seat.old }
        requires may { MayWalk (hands seat.old) waiter }
        requires near { waiter / 8 < self.now.setup.capacity }
        ensures seat { IsInCall R.meaning self.now seat.new }
        ensures told { ReadsNextOf R.meaning (hands seat.old) waiter result (hands seat.new) }
    {
        self.table
            .shared
            .load::<ReadNext>(&mut seat.seat, next_at(waiter))
    }

    // Clears the bit of the first waiter of the list that the seat walks. Gives the run word as it was.
    pub(crate) fn clear_bit(&self, seat: &mut Seat<R>, waiter: u32) -> u64
        requires seat { IsInCall R.meaning self.now seat.old }
        requires may { MayWalk (hands seat.old) waiter }
        requires near { waiter / 8 < self.now.setup.capacity }
        ensures seat { IsInCall R.meaning self.now seat.new }
        ensures told { ClearsBitOf R.meaning (hands seat.old) waiter result (hands seat.new) }
    {
        self.table
            .shared
            .fetch_and::<ClearBit>(&mut seat.seat, run_at(waiter / 8), all_but(waiter % 8))
    }
}
