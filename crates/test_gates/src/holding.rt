//! Where one of two workers is held while the other goes on.

use orca_io::Gate;
use std::hint::spin_loop;
use std::sync::atomic::{AtomicU64, Ordering};

// How often the worker that is held looks whether it may go on.
const MOST_LOOKS: u32 = 1_000_000_000;

// The turn in which the other worker lets the first go on.
const LAST_TURN: u64 = 60;

/// Keeps a worker in its turn 0 until the other is in its turn 60.
#[derive(Drop)]
pub struct HoldingGate {
    held: u32,
    reached: AtomicU64,
    let_go: AtomicU64,
}

impl HoldingGate {
    /// Holds the worker of this number.
    pub fn of(held: u32) -> HoldingGate {
        HoldingGate {
            held,
            reached: AtomicU64::new(0),
            let_go: AtomicU64::new(0),
        }
    }

    /// Whether the worker went on since the other was so far, and not since it had looked too often.
    pub fn was_let_go(&self) -> bool {
        self.let_go.load(Ordering::SeqCst) == 1
    }

    fn hold(&self) {
        for _ in 0..MOST_LOOKS {
            if self.reached.load(Ordering::SeqCst) == 1 {
                self.let_go.store(1, Ordering::SeqCst);
                return;
            }
            spin_loop();
        }
    }
}

impl Gate for HoldingGate {
    fn pass(&self, worker: u32, turn: u64) {
        if worker == self.held && turn == 0 {
            self.hold();
        } else if worker != self.held && turn == LAST_TURN {
            self.reached.store(1, Ordering::SeqCst);
        }
    }
}
