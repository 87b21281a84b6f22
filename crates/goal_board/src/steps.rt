// One private call for each kind of step. All that is above speaks of hands.
ghost use Rattle.std.specs.Prelude.{◌≡◌, ℕ, ◌+◌, ◌*◌, ◌<◌};
ghost use Rattle.board_rule.specs.Words.{cell_word, run_word, head_word, cost_word, node_word, who_word};
ghost use Rattle.board_rule.specs.May.{HasRight, MaySuspend};
ghost use Rattle.board_rule.specs.Plays.{LooksAt, PutsIn, ClaimsAt, SuspendsAt, ClosesHead};
ghost use Rattle.board_rule.specs.Seats.{cost_stored, node_stored, who_stored, filled};
ghost use Rattle.goal_board.specs.Seats.{IsSeatOf, IsInCall, hands};
ghost use Rattle.goal_board.specs.SeatCalls.{SeatMayPut, SeatMayFill, SeatMayClaim, SeatMayClose};

use crate::board::{Board, Seat};
use board_rule::{
    Claim, Close, Fill, GoalRules, Look, Put, StoreCost, StoreNode, StoreWho, Suspend,
};

/// The held bit of a run word, alone.
pub const HELD: u64 = 1 << 8;

/// A run word without its held bit.
const NOT_HELD: u64 = u64::MAX - HELD;

/// A closed head.
pub const CLOSED: u64 = 1 << 63;

// The numbers of a place's words.
pub fn cell_at(place: u32) -> usize
    ensures { result ≡ cell_word place }
{
    14 * place as usize + 1
}

pub fn run_at(place: u32) -> usize
    ensures { result ≡ run_word place }
{
    14 * place as usize + 2
}

pub fn head_at(place: u32) -> usize
    ensures { result ≡ head_word place }
{
    14 * place as usize + 3
}

pub fn cost_at(place: u32) -> usize
    ensures { result ≡ cost_word place }
{
    14 * place as usize + 4
}

pub fn node_at(place: u32) -> usize
    ensures { result ≡ node_word place }
{
    14 * place as usize + 5
}

pub fn who_at(place: u32) -> usize
    ensures { result ≡ who_word place }
{
    14 * place as usize + 6
}

impl<R: GoalRules> Board<R> {
    // A load of any word.
    pub(crate) fn look(&self, seat: &mut Seat<R>, word: usize) -> u64
        requires seat { IsSeatOf R.meaning self.now seat.old }
        requires word { word < 14 * self.now.setup.capacity + 1 }
        ensures seat { IsSeatOf R.meaning self.now seat.new }
        ensures told { LooksAt R.meaning (hands seat.old) word result (hands seat.new) }
    {
        self.table.shared.load::<Look>(&mut seat.seat, word)
    }

    // Puts an entry into a cell, where it is empty. Gives what it found there.
    pub(crate) fn put(&self, seat: &mut Seat<R>, place: u32, word: u64) -> u64
        requires seat { IsSeatOf R.meaning self.now seat.old }
        requires may { SeatMayPut R.meaning self.now seat.old place word }
        ensures seat { IsSeatOf R.meaning self.now seat.new }
        ensures told { PutsIn R.meaning (hands seat.old) place word result (hands seat.new) }
    {
        self.table
            .shared
            .compare_exchange::<Put>(&mut seat.seat, cell_at(place), 0, word)
    }

    // Claims a goal, where its run word is 0. Gives what it found there.
    pub(crate) fn hold(&self, seat: &mut Seat<R>, place: u32) -> u64
        requires seat { IsSeatOf R.meaning self.now seat.old }
        requires may { SeatMayClaim R.meaning self.now seat.old place }
        ensures seat { IsSeatOf R.meaning self.now seat.new }
        ensures told { ClaimsAt R.meaning (hands seat.old) place result (hands seat.new) }
    {
        self.table
            .shared
            .compare_exchange::<Claim>(&mut seat.seat, run_at(place), 0, HELD)
    }

    // Gives up a right. Gives the run word as it was.
    pub(crate) fn release(&self, seat: &mut Seat<R>, place: u32) -> u64
        requires seat { IsSeatOf R.meaning self.now seat.old }
        requires may { MaySuspend self.now.setup.capacity (hands seat.old) place }
        ensures seat { IsSeatOf R.meaning self.now seat.new }
        ensures told { SuspendsAt R.meaning (hands seat.old) place result (hands seat.new) }
    {
        self.table
            .shared
            .fetch_and::<Suspend>(&mut seat.seat, run_at(place), NOT_HELD)
    }

    // Closes the head of a goal whose answer is stored. Gives the head as it was.
    pub(crate) fn close_head(
        &self,
        seat: &mut Seat<R>,
        place: u32,
        _worker: u32,
        _cost: u64,
        _node: u64,
    ) -> u64
        requires seat { IsSeatOf R.meaning self.now seat.old }
        requires may { SeatMayClose R.meaning self.now seat.old place _worker _cost _node }
        ensures seat { IsInCall R.meaning self.now seat.new }
        ensures told { ClosesHead R.meaning (hands seat.old) place _worker _cost _node
            result (hands seat.new) }
    {
        self.table
            .shared
            .swap::<Close>(&mut seat.seat, head_at(place), CLOSED)
    }

    // Stores of an answer, by the holder of its goal's right.
    pub(crate) fn store_cost(&self, seat: &mut Seat<R>, place: u32, cost: u64)
        requires seat { IsSeatOf R.meaning self.now seat.old }
        requires may { HasRight self.now.setup.capacity (hands seat.old).rights place }
        ensures seat { IsSeatOf R.meaning self.now seat.new }
        ensures hands { hands seat.new ≡ cost_stored (hands seat.old) place cost }
    {
        self.table
            .shared
            .store::<StoreCost>(&mut seat.seat, cost_at(place), cost);
    }

    pub(crate) fn store_node(&self, seat: &mut Seat<R>, place: u32, node: u64)
        requires seat { IsSeatOf R.meaning self.now seat.old }
        requires may { HasRight self.now.setup.capacity (hands seat.old).rights place }
        ensures seat { IsSeatOf R.meaning self.now seat.new }
        ensures hands { hands seat.new ≡ node_stored (hands seat.old) place node }
    {
        self.table
            .shared
            .store::<StoreNode>(&mut seat.seat, node_at(place), node);
    }

    pub(crate) fn store_who(&self, seat: &mut Seat<R>, place: u32, who: u64)
        requires seat { IsSeatOf R.meaning self.now seat.old }
        requires may { HasRight self.now.setup.capacity (hands seat.old).rights place }
        ensures seat { IsSeatOf R.meaning self.now seat.new }
        ensures hands { hands seat.new ≡ who_stored (hands seat.old) place who }
    {
        self.table
            .shared
            .store::<StoreWho>(&mut seat.seat, who_at(place), who);
    }

    // Sets the full word, where every cell was found taken by another word than this entry.
    pub(crate) fn fill(&self, seat: &mut Seat<R>)
        requires seat { IsSeatOf R.meaning self.now seat.old }
        requires may { SeatMayFill R.meaning self.now seat.old }
        ensures seat { IsSeatOf R.meaning self.now seat.new }
        ensures hands { hands seat.new ≡ filled (hands seat.old) }
    {
        self.table.shared.store::<Fill>(&mut seat.seat, 0, 1);
    }
}
