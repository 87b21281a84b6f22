//! What the nodes of a plan cost, and how many rows a segment has.
#![tactic(auto)]

mod cost;
mod shape;

pub use cost::{bits_are_digits, local, share};
pub use shape::{Class, CostShape};
