//! Dumps: a query with all that its plan depends on, as one text, and the reader of such texts.
#![tactic(auto)]

mod copies;
mod dump;
mod laws;
mod line_ends;
mod lines;
mod named;
mod reading;
mod spelling;
mod writing;

pub use dump::{Dump, DumpFault, DumpOptions};
pub use laws::{dumps_are_one, dumps_bind_alike};
pub use reading::read_dump;
pub use writing::dump_text;
