/// What came out of a goal.
#[derive(Debug, Clone, Copy, PartialEq, Eq)]
pub struct Answer {
    /// 2^64 - 1 where there is no plan.
    pub cost: u64,
    pub node: u64,
}

/// What came of a wait for a child.
#[derive(Debug, Clone, Copy, PartialEq, Eq)]
pub enum Awaited {
    /// The goal is on the child's list.
    Registered,
    /// The child is finished.
    Finished,
}

/// Whether a goal that was suspended waits for another.
#[derive(Debug, Clone, Copy, PartialEq, Eq)]
pub enum Suspended {
    /// It may be claimed again at once.
    Ready,
    /// It is ready once what it waits for is finished.
    Waiting,
}

/// The goals that a finish made ready: how many, and the place of one of them.
#[derive(Debug, Clone, Copy, PartialEq, Eq)]
pub struct Woken {
    pub count: u32,
    pub one: Option<u32>,
}

/// A finished goal, with its answer and the worker that finished it.
#[derive(Debug, Clone, Copy, PartialEq, Eq)]
pub struct Finished {
    pub goal: u64,
    pub answer: Answer,
    pub who: u32,
}
