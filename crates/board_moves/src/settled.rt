/// What came of the double collection.
#[derive(Debug, Clone, Copy, PartialEq, Eq)]
pub enum Settled {
    /// All members are in cells, and their goals are finished.
    Yes,
    /// This goal of a member that is in a cell isn't finished.
    Open { goal: u64 },
    /// The second pass found more members than the first.
    Grew { first: u64, second: u64 },
}

/// What was seen of a word that a group may have as a member.
#[derive(Clone, Copy)]
pub(crate) enum Seen {
    /// It was in no cell.
    Absent,
    /// It was in a cell, and its goal is finished.
    Explored,
    /// It was in a cell, and this goal isn't finished.
    Unexplored { goal: u64 },
}
