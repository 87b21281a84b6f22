//! Gates that hold the two workers of a crew up; for tests alone.
#![tactic(auto)]

mod holding;
mod meeting;

pub use holding::HoldingGate;
pub use meeting::MeetingGate;
