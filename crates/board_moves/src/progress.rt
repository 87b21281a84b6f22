use goal_board::{Answer, Woken};

/// How far a goal is.
#[derive(Debug, Clone, Copy, PartialEq, Eq)]
pub enum Progress {
    /// All that it has to wait for is finished, and this is its answer.
    Complete(Answer),
    /// Something that isn't finished is waited for.
    Waiting,
    /// An entry found every cell taken.
    Full,
}

/// How a turn of a goal ended.
#[derive(Debug, Clone, Copy, PartialEq, Eq)]
pub enum Turned {
    /// The goal is finished, and these were made ready by it.
    Finished(Woken),
    /// The goal waits for others.
    Suspended,
    /// An entry found every cell taken. The goal isn't finished.
    Full,
}
