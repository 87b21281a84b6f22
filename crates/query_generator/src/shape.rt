//! Shapes of queries, by which of their tables are joined.

#[derive(Clone, Copy, Debug)]
pub enum GenShape {
    /// Each table with the next.
    Chain,
    /// The first table with each other.
    Star,
    /// Each table with each other.
    Clique,
}
