//! What a join can give of distributions and orders, found once.
#![tactic(auto)]

ghost use Rattle.std.specs.Prelude.{◌↔◌, IsTrue};
ghost use Rattle.request_props.specs.JoinSets.{Allows, AllowsDist};

use crate::number_set::NumberSet;
use crate::request::{Dist, Request};
use query_core::KeyParts;

/// The lists and the orders that fit a group, by their numbers.
#[derive(Clone, Copy)]
pub struct FittingSets {
    pub group: KeyParts,
    pub lists: NumberSet,
    pub orders: NumberSet,
}

/// The lists that fit the left child of a join, and the orders that the join can give, by their numbers.
#[derive(Clone, Copy)]
pub struct JoinSets {
    pub lists: NumberSet,
    pub orders: NumberSet,
}

impl JoinSets {
    /// Whether the join can give what is asked for.
    #[inline(always)]
    pub fn allow(self, wanted: Request) -> bool
        ensures { IsTrue result ↔ Allows self wanted }
    {
        self.orders.has(wanted.order) && self.allow_dist(wanted.dist)
    }

    // Whether it can give the distribution.
    #[inline(always)]
    fn allow_dist(self, dist: Dist) -> bool
        ensures { IsTrue result ↔ AllowsDist self.lists dist }
    {
        match dist {
            Dist::One => true,
            Dist::Spread => true,
            Dist::Copies => false,
            Dist::Hashed(list) => self.lists.has(list),
        }
    }
}
