//! The texts of what a query names: tables, columns, aggregates, orders and hashed lists. The names of operators.
#![tactic(auto)]

mod columns;
mod lists;
mod names;

pub use columns::{computed_text, push_computed, table_text};
pub use lists::{list_columns, list_text, order_keys, order_text, push_list, push_order};
pub use names::name_of_operator;
