use crate::gate::Gate;
use bp_faults::NodeId;
use std::sync::atomic::{AtomicBool, Ordering};
use std::thread;

/// A gate for tests of schedules: it holds one node of a pass until another node has entered.
///
/// Both are named by the number of their pass and their own. The first is let in after `limit` turns at the
/// latest, so that every pass ends.
#[derive(Drop)]
pub struct PairGate {
    first: (u32, NodeId),
    second: (u32, NodeId),
    limit: u32,
    held: AtomicBool,
    entered: AtomicBool,
    met: AtomicBool,
}

impl PairGate {
    /// A gate that neither node has entered.
    pub fn new(first: (u32, NodeId), second: (u32, NodeId), limit: u32) -> PairGate {
        PairGate {
            first,
            second,
            limit,
            held: AtomicBool::new(false),
            entered: AtomicBool::new(false),
            met: AtomicBool::new(false),
        }
    }

    /// Whether the second node entered while the first was held.
    pub fn met(&self) -> bool {
        self.met.load(Ordering::SeqCst)
    }

    /// Holds the first node until the second has entered, for so many turns at most.
    fn hold(&self) {
        self.held.store(true, Ordering::SeqCst);
        for _turn in 0..self.limit {
            if self.entered.load(Ordering::SeqCst) {
                break;
            }
            thread::yield_now();
        }
        self.held.store(false, Ordering::SeqCst);
    }
}

impl Gate for PairGate {
    fn enter(&self, pass: u32, n: NodeId) {
        if (pass, n) == self.second {
            if self.held.load(Ordering::SeqCst) {
                self.met.store(true, Ordering::SeqCst);
            }
            self.entered.store(true, Ordering::SeqCst);
        }
        if (pass, n) == self.first {
            self.hold();
        }
    }
}
