//! Lists and texts that contracts see as lists of what they hold, and the form of a name.
#![tactic(auto)]

mod list;
mod name;
mod text;

pub use list::List;
pub use name::is_name;
pub use text::Text;
