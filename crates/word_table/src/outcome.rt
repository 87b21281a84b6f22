/// What came of putting a word in. `at` is the place of its cell.
#[derive(Debug, Clone, Copy, PartialEq, Eq)]
pub enum Inserted {
    /// The word was in no cell, and now stands in this one.
    Fresh { at: u32 },
    /// The word stood in this cell already.
    Known { at: u32 },
    /// Every cell is taken by another word.
    Full,
}
