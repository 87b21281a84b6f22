//! Binds a query that was read to a catalogue.
#![tactic(auto)]

mod binding;
mod columns;
mod conditions;
mod fault;
mod grouping;
mod laws;
mod meaning;
mod names;
mod numbers;
mod order;
mod parts;
mod query;
mod scope;
mod select_list;
mod sort_keys;
mod used;
mod written;

pub use binding::bind;
pub use fault::BindFault;
pub use laws::{bound_queries_are_there, faults_are_told, used_columns_are_known};
pub use meaning::one_meaning;
