//! The order in which requests are answered.
#![tactic(auto)]

ghost use Rattle.std.specs.Prelude.{◌≡◌};
ghost use Rattle.plan_search.specs.Places.{dist_place as the_dist_place, place_at as the_place_at};

use query_core::Key;
use request_props::{Dist, Request};

/// How many places there are for distributions, and for the orders with each.
pub const DISTS: u32 = 64;

pub const ORDERS: u32 = 64;

/// The place of a request of the group with this key.
pub fn place_at(key: Key, wanted: Request) -> u64
    ensures { result ≡ the_place_at key.0 wanted }
{
    (key.0 as u64 * DISTS as u64 + dist_place(wanted.dist)) * ORDERS as u64 + wanted.order as u64
}

fn dist_place(dist: Dist) -> u64
    ensures { result ≡ the_dist_place dist }
{
    match dist {
        Dist::Spread => 0,
        Dist::One => 1,
        Dist::Copies => 2,
        Dist::Hashed(list) => 3 + list as u64,
    }
}

/// The distribution that has this place.
pub fn dist_at(place: u32) -> Dist
    ensures { the_dist_place result ≡ place }
{
    match place {
        0 => Dist::Spread,
        1 => Dist::One,
        2 => Dist::Copies,
        _ => Dist::Hashed(place - 3),
    }
}
