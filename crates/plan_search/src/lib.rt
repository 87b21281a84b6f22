//! The plain search: what the rules lead to, by passes over a set until nothing is new; and the
//! least plan, by the answers to all requests, each behind those that it stands on.
#![tactic(auto)]

mod below;
mod best;
mod choice;
mod closure;
mod enforcers;
mod kept_plans;
mod least;
mod native;
mod natives;
mod places;
mod plans;
mod requests;
mod word_set;

pub use closure::plain_closure;
pub use least::{plain_least, plain_least_of};
