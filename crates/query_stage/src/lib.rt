//! A stage in which a query is planned: which rules are off, and which cost is enough.
#![tactic(auto)]

mod stage;

pub use stage::Stage;
