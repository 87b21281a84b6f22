//! The lines in which a plan is printed.
#![tactic(auto)]

mod lines;
mod nodes;
mod section;

pub use lines::node_kind;
pub use nodes::node_text;
pub use section::{output_line, plan_text};
