/// A place that each worker of a crew passes before each step, so that a test can hold workers up.
/// It changes no answer.
pub trait Gate: Sync {
    /// `turn` counts the steps of this worker from 0, and stays at `u64::MAX`.
    fn pass(&self, worker: u32, turn: u64);
}

/// A gate that lets everyone pass at once.
#[derive(Clone, Copy, Debug)]
pub struct NoGate;

impl Gate for NoGate {
    fn pass(&self, _worker: u32, _turn: u64) {}
}
