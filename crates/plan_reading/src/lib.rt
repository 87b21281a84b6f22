//! A printed plan read back.
#![tactic(auto)]

mod laws;
mod line;
mod line_ends;
mod named;
mod numbers;
mod operators;
mod reader;
mod text;
mod texts;

pub use laws::{
    nodes_are_meant, outlines_are_one, plans_are_one, plans_are_read, readings_are_one,
    texts_are_one,
};
pub use line::NodeLine;
pub use named::Named;
pub use operators::over_groups;
pub use text::{LineFault, Lines, read_lines};
