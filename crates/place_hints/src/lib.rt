//! Places where a goal may be ready: each worker has a deque of them, from which other workers steal.
#![tactic(auto)]

mod deque;
mod hints;
mod rule;
mod source;
mod sources;

pub use hints::PlaceHints;
