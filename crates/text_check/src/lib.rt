//! Whether a text is a plan of a query as it would be printed, and what the plan costs.
#![tactic(auto)]

mod check;
mod fault;
mod grow;
mod kids;
mod laws;
mod node_over;
mod own;
mod passes;
mod text_fault;

pub use check::check_text;
pub use laws::outcomes_are_one;
pub use text_fault::TextFault;
