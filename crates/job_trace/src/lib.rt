//! The texts in which the search shows what it did.
#![tactic(auto)]

mod counts;
mod crew;
mod goals;
mod groups;
mod laws;
mod members;
mod memo;
mod pieces;
mod requests;
mod trace;

pub use crew::crew_text;
pub use laws::traces_are_known;
pub use memo::{memo_line, memo_text, memos_are_known};
pub use trace::{trace_line, trace_text};
