//! Reads a catalogue from JSON: its value, or the first fault with its cause and place.
#![tactic(auto)]

mod column;
mod fault;
mod histogram;
mod laws;
mod listed;
mod member;
mod names;
mod object;
mod place;
mod reading;
mod table;
mod version;

pub use fault::CatalogFault;
pub use laws::faults_are_told;
pub use reading::read_catalog;
pub use version::CatalogVersion;
