//! How a thread waits when it finds nothing to do.

use std::thread;
use std::time::{Clock, Duration};

// After this many rounds with nothing to do, a thread sleeps.
const ROUNDS: u32 = 64;

// How long it sleeps, in microseconds.
const NAP: u64 = 50;

/// Counts the rounds in a row in which a thread found nothing to do.
#[derive(Drop)]
pub(crate) struct Pause {
    rounds: u32,
}

impl Pause {
    pub(crate) fn new() -> Pause {
        Pause { rounds: 0 }
    }

    pub(crate) fn end(&mut self) {
        self.rounds = 0;
    }

    /// The thread found nothing to do. It lets other threads run, or sleeps after many such rounds.
    pub(crate) fn rest(&mut self, clock: &impl Clock) {
        if self.rounds < ROUNDS {
            self.rounds += 1;
            thread::yield_now();
        } else {
            thread::sleep(clock, Duration::from_micros(NAP));
        }
    }
}
