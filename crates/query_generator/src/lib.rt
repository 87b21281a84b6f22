//! Makes catalogues and queries from a number, for anyone who measures without data of their own.
#![tactic(auto)]

mod catalog;
mod draws;
mod laws;
mod select;
mod shape;
mod texts;

pub use laws::generated_queries_are_bound;
pub use shape::GenShape;
pub use texts::generate;
