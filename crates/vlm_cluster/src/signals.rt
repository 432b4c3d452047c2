//! Signals between the hub's thread and the workers.

use std::sync::atomic::{AtomicBool, AtomicU64, Ordering};

/// The signals that the hub's thread and the workers share. No contract says what another thread has written here.
#[derive(Drop)]
pub(crate) struct Signals {
    // the number of workers that have finished
    over: AtomicU64,
    // whether the run is cancelled, since memory or a thread was refused
    cancelled: AtomicBool,
}

impl Signals {
    pub(crate) fn new() -> Signals {
        Signals {
            over: AtomicU64::new(0),
            cancelled: AtomicBool::new(false),
        }
    }

    pub(crate) fn end(&self) {
        self.over.fetch_add(1, Ordering::SeqCst);
    }

    pub(crate) fn over(&self) -> u64 {
        self.over.load(Ordering::SeqCst)
    }

    /// Tells every worker to stop.
    pub(crate) fn cancel(&self) {
        self.cancelled.store(true, Ordering::SeqCst);
    }

    pub(crate) fn is_cancelled(&self) -> bool {
        self.cancelled.load(Ordering::SeqCst)
    }
}
