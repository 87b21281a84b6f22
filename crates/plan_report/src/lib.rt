//! The least plan, made of the answers of a search.
#![tactic(auto)]

mod extraction;
mod plans_asked;
mod source;

pub use extraction::extract;
pub use plan_lines::plan_text;
pub use source::AnswerSource;
