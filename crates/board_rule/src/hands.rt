ghost use Rattle.std.specs.Prelude.{ℕ, List, Option};
ghost use Rattle.std.specs.Borrow.{ftrue};
ghost use Rattle.std.specs.Coded.{coded_ℕ, coded_list, coded×, coded_option};
ghost use Rattle.board_rule.specs.Records.{Claimed, Paused, Ended, Pending, Walk, claimed_coded, paused_coded};
ghost use Rattle.board_rule.specs.Records.{ended_coded, pending_coded, walk_coded};

use std::marker::{Model, PhantomData};

/// What one seat knows and did, for the proofs. No value of it is made. Each list has the last one first.
pub struct Hands<R> {
    pub marker: PhantomData<R>,
    // The board's rules. A seat that was taken in by another has none.
    pub ghost rules: { Option R } by { coded_option R.code },
    // The number of the board's cells.
    pub ghost capacity: { ℕ },
    // Its share of 64 parts of the board.
    pub ghost parts: { ℕ },
    // All words of the board, while no other seat was ever made.
    pub ghost alone: { Option (List ℕ) } by { coded_option (coded_list coded_ℕ) },
    // The words that it looked at, each with what it found.
    pub ghost looks: { List (ℕ × ℕ) } by { coded_list (coded× coded_ℕ coded_ℕ) },
    // The words that it put into cells.
    pub ghost puts: { List ℕ },
    // The places of the goals that it claimed, suspended and finished.
    pub ghost claims: { List ℕ },
    pub ghost suspensions: { List Paused } by { coded_list paused_coded },
    pub ghost done: { List Ended } by { coded_list ended_coded },
    // The places of the goals that it made ready.
    pub ghost woken: { List ℕ },
    // What it has claimed and neither suspended nor finished.
    pub ghost rights: { List Claimed } by { coded_list claimed_coded },
    // The wait that it is putting in.
    pub ghost pending: { Option Pending } by { coded_option pending_coded },
    // What is left of the list that it closed last.
    pub ghost walk: { Walk } by { walk_coded },
}

impl<R> Model for Hands<R> {
    ghost also_owns = { λ _. ftrue };
}
