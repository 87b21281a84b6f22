//! What the turn of a goal does over a board, whatever its rules: entries put in, children awaited, the double
//! collection, and how it ends.
#![tactic(auto)]

mod awaiting;
mod collection;
mod entries;
mod exploring;
mod job;
mod progress;
mod settled;
mod words;

pub use awaiting::await_found;
pub use collection::settle;
pub use entries::{next_entry, put_goal};
pub use exploring::explore;
pub use job::Job;
pub use progress::{Progress, Turned};
pub use settled::Settled;
pub use words::{Group, Members, Words};
