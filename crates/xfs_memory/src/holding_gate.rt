//! A gate that holds a piece until another has come.

use std::sync::atomic::{AtomicBool, Ordering};
use xfs_disk::Gate;

/// A gate that holds the first piece until the second has come, for so many turns at most.
#[derive(Drop)]
pub struct HoldingGate {
    turns: u64,
    come: AtomicBool,
    met: AtomicBool,
}

impl HoldingGate {
    /// A gate to which no piece has come.
    pub fn new(turns: u64) -> HoldingGate {
        HoldingGate {
            turns,
            come: AtomicBool::new(false),
            met: AtomicBool::new(false),
        }
    }

    /// Whether the second piece came while the first was held.
    pub fn has_met(&self) -> bool {
        self.met.load(Ordering::SeqCst)
    }
}

impl Gate for HoldingGate {
    fn enter(&self, piece: usize) {
        if piece == 1 {
            self.come.store(true, Ordering::SeqCst);
        }
        if piece != 0 {
            return;
        }
        for _ in 0..self.turns {
            if self.come.load(Ordering::SeqCst) {
                self.met.store(true, Ordering::SeqCst);
                return;
            }
        }
    }
}
