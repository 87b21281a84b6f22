ghost use Rattle.board_rule.specs.Soundness.{IsSound};
ghost use Rattle.board_rule.specs.Seats.{opening_hands, parted, part, joined, spent};

use crate::hands::Hands;
use crate::rules::GoalRules;
use atomic_table::{Join, Split, TableRule};

/// What a board is told once: its rules, and the number of its cells.
#[derive(Drop)]
pub struct Setup<R> {
    pub rules: R,
    pub capacity: u32,
}

/// Soundness, between any two steps of any seats.
pub struct Law;

impl<R: GoalRules> TableRule<(), Hands<R>, Setup<R>> for Law {
    ghost holds = { λ setup s. IsSound (R.meaning setup.rules) setup.rules setup.capacity s.words s.views };

    ghost first = { λ setup. opening_hands setup.rules setup.capacity };
}

/// A new seat is made of one.
pub struct Apart;

impl<R> Split<Hands<R>> for Apart {
    ghost left = { parted };

    ghost right = { part };
}

/// A seat takes in another.
pub struct Together;

impl<R> Join<Hands<R>> for Together {
    ghost both = { joined };

    ghost spent = { spent };
}
