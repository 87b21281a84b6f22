//! Where the optimiser's bytes come from and go to: traits, fakes in memory, and the host's files and output.
#![tactic(auto)]

mod count;
mod gate;
mod host;
mod mem_shelf;
mod mem_sink;
mod shelf;
mod sink;

pub use gate::{Gate, NoGate};
pub use host::{FileShelf, StdSink};
pub use mem_shelf::MemShelf;
pub use mem_sink::MemSink;
pub use shelf::{Shelf, ShelfError};
pub use sink::{Sink, SinkError};
