//! Estimates of how many rows a group of a query has.
#![tactic(auto)]

mod estimate;
mod factor;
mod histogram;

pub use estimate::rows;
