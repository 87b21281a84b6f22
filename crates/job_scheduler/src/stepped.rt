/// What a step of a worker came to.
#[derive(Debug, Clone, Copy, PartialEq, Eq)]
pub enum Stepped {
    /// It claimed one goal and made its turn.
    Ran,
    /// It found no goal that is ready.
    Idle,
    /// The root goal is finished.
    Done,
    /// The board is full.
    Full,
}
