//! What may be asked of a plan and what it gives: numbered lists and orders, and which request
//! is met.
#![tactic(auto)]

mod dists;
mod fault;
mod found;
mod given;
mod number_set;
mod numbering;
mod numbers;
mod props;
mod request;
mod satisfaction;
mod sides;
mod tables;

pub use dists::{class_asked, class_of, classes_agree, list_asked, list_given};
pub use fault::PropsFault;
pub use given::{Given, GivenDist, GivenOrder};
pub use number_set::NumberSet;
pub use numbering::listing_is_one;
pub use props::Props;
pub use request::{
    Dist, Request, code, codes_are_one, dist_code, dist_field, order_field, request_of,
};
pub use satisfaction::{meets, satisfies};
pub use sides::Side;
pub use tables::join_sets::JoinSets;
pub use tables::physical::PhysicalCandidate;
