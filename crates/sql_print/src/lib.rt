//! The canonical text of a query.
#![tactic(auto)]

mod parts;
mod printer;

pub use printer::{print_sql, reads_again};
