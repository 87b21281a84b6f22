use goal_board::Right;

/// How a board was found to stand.
#[derive(Clone, Copy)]
pub enum Standing {
    /// The root goal isn't finished.
    Open,
    /// The root goal is finished.
    Done,
    /// The board is full.
    Full,
}

/// What came of looking for a goal that is ready.
pub enum Sought {
    Claimed(Right),
    /// No goal was found ready.
    Busy,
    /// The root goal was found finished.
    Done,
    /// The board was found full.
    Full,
}
