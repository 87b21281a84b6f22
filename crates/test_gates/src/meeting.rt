//! Where two workers wait for each other.

use orca_io::Gate;
use std::hint::spin_loop;
use std::sync::atomic::{AtomicU64, Ordering};

// How often a worker looks for the other's flag.
const MOST_LOOKS: u32 = 10_000_000;

const FIRST: u64 = 1;

const SECOND: u64 = 2;

const BOTH: u64 = 3;

/// In its turn 0 each of the workers 0 and 1 raises its flag, and looks for the other's.
#[derive(Drop)]
pub struct MeetingGate {
    raised: AtomicU64,
    met: AtomicU64,
}

impl MeetingGate {
    pub fn new() -> MeetingGate {
        MeetingGate {
            raised: AtomicU64::new(0),
            met: AtomicU64::new(0),
        }
    }

    /// Whether each saw the other's flag.
    pub fn have_met(&self) -> bool {
        self.met.load(Ordering::SeqCst) == BOTH
    }

    fn meet(&self, flag: u64) {
        self.raised.fetch_or(flag, Ordering::SeqCst);
        for _ in 0..MOST_LOOKS {
            if self.raised.load(Ordering::SeqCst) == BOTH {
                self.met.fetch_or(flag, Ordering::SeqCst);
                return;
            }
            spin_loop();
        }
    }
}

impl Gate for MeetingGate {
    fn pass(&self, worker: u32, turn: u64) {
        match (worker, turn) {
            (0, 0) => self.meet(FIRST),
            (1, 0) => self.meet(SECOND),
            _ => {}
        }
    }
}
