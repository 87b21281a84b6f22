ghost use Rattle.std.specs.Prelude.{◌≡◌, ℕ, ◌+◌, ◌*◌, ◌^◌, ◌<◌, ◌≤◌, [], List, IfOk, replicate};
ghost use Rattle.std.specs.Coded.{Coded-set, coded_ℕ, coded_list, coded×};
ghost use base.Stored.{coded_unit};

use atomic_table::Table;
use board_rule::{GoalRules, Hands, Law, Setup};
use std::alloc::{AllocError, Global};

/// One caller's token: what it saw and did, which only its own calls change. It has no bytes.
#[derive(Drop)]
pub struct Seat<R> {
    pub(crate) seat: atomic_table::Seat<(), Hands<R>>,
    ghost bare: { seat.me.1 ≡ [] } by { Coded-set (coded_list (coded× coded_ℕ coded_unit)) seat.me.1 [] },
    ghost awake: { 0 < seat.me.0.parts },
}

/// The right to a goal that was claimed. It must be spent by `suspend` or `finish`.
pub struct Right {
    pub(crate) place: u32,
    pub(crate) goal: u64,
    // How many waits were registered under it.
    pub(crate) waits: u32,
}

/// A table of words that changes by single atomic steps, without a lock.
#[derive(Drop)]
pub struct Board<R: GoalRules> {
    pub(crate) table: Table<(), Hands<R>, Setup<R>, Law, Global>,
    pub(crate) setup: Setup<R>,
    ghost keyed: { table.shared.key ≡ setup } by { Coded-set setup-code table.shared.key setup },
    ghost sized: { (table.shared.table_id.words ≡ 14 * setup.capacity + 1) × (table.shared.table_id.slots ≡ 0)
        × (0 < setup.capacity) × (setup.capacity ≤ 2 ^ 20) },
}

impl<R: GoalRules> Board<R> {
    ghost use Rattle.goal_board.specs.Seats.{IsSeatOf, hands};
    ghost use Rattle.board_rule.specs.Seats.{opening_hands};

    /// An empty board of `capacity` cells, and the first seat. It takes the board's memory. Of the calls on seats none
    /// takes any, but for what the hints lent to `finish` take.
    pub fn start(alloc: Global, rules: R, capacity: u32) -> Result<(Board<R>, Seat<R>), AllocError>
    where
        R: Drop,
        requires { (1 ≤ capacity) × (capacity ≤ 2 ^ 20) }
        ensures board { IfOk result (λ made.
            (made.0.setup.rules ≡ rules) × (made.0.setup.capacity ≡ capacity)) }
        ensures seat { IfOk result (λ made.
            IsSeatOf R.meaning made.0 made.1 × (hands made.1 ≡ opening_hands rules capacity)) }
    {
        let words = vec![in alloc; 0; 14 * capacity as usize + 1]?;
        let setup = Setup { rules, capacity };
        let (table, seat) = Table::of_words(alloc, words.as_slice(), &setup)?;
        Ok((Board { table, setup }, Seat { seat }))
    }

    /// The number of cells.
    pub fn capacity(&self) -> u32
        ensures { result ≡ self.now.setup.capacity }
    {
        self.setup.capacity
    }
}

impl Right {
    /// The goal's word.
    pub fn goal(&self) -> u64
        ensures { result ≡ self.now.goal }
    {
        self.goal
    }

    /// The goal's place.
    pub fn place(&self) -> u32
        ensures { result ≡ self.now.place }
    {
        self.place
    }
}
