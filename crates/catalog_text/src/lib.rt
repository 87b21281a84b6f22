//! Writes a catalogue as JSON in either version, so that it is read back as it was.
#![tactic(auto)]

mod histogram;
mod text;
mod version;

pub use text::write_catalog;
pub use version::can_say;
