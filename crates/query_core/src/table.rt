use crate::histogram::Histogram;
use orca_base::{List, Text};

/// A column that a query uses.
#[derive(Drop)]
pub struct Item {
    /// The place of its table in the query's tables.
    pub table: u32,
    pub name: Text,
    /// How many distinct values it has: 0 to 10^12.
    pub ndv: u64,
    /// Which rows of its table have which of its numbers, where that is known.
    pub histogram: Option<Histogram>,
}

/// A table of a query, under its alias.
#[derive(Drop)]
pub struct QueryTable {
    pub alias: Text,
    /// How many rows it has: 0 to 10^12.
    pub rows: u64,
    /// The items by whose hash its rows are placed, where they are.
    pub hashed: Option<List<u32>>,
    /// Whether all its rows lie on each segment.
    pub replicated: bool,
    /// The items of each index.
    pub indexes: List<List<u32>>,
}
