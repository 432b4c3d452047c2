//! Gates.

ghost use Rattle.std.specs.Prelude.{false, true};

use std::alloc::{AllocError, Global};
use std::sync::Arc;
use std::sync::atomic::{AtomicU64, Ordering};
use vlm_cluster::{Gate, Go};
use vlm_journal::entries::Item;

// How often a gate looks for the others.
const LOOKS: u32 = 200_000_000;

/// Stops before a post.
#[derive(Drop)]
pub struct Closing {
    pub at: usize,
}

impl Gate for Closing {
    ghost never_stops = { false };

    fn before(&mut self, n: usize) -> Go {
        if n == self.at { Go::Stop } else { Go::Post }
    }

    fn after(&mut self, _item: &Item) {}
}

/// Before the second post it waits until this many gates have come there, and stops if they do not.
#[derive(Drop)]
pub struct Meeting {
    pub arrived: Arc<AtomicU64>,
    pub all: u64,
}

impl Gate for Meeting {
    ghost never_stops = { false };

    fn before(&mut self, n: usize) -> Go {
        if n != 1 {
            return Go::Post;
        }
        self.arrived.fetch_add(1, Ordering::SeqCst);
        for _ in 0..LOOKS {
            if self.arrived.load(Ordering::SeqCst) >= self.all {
                return Go::Post;
            }
        }
        Go::Stop
    }

    fn after(&mut self, _item: &Item) {}
}

/// A follower waits before a post until the other gate got an item, and stops if that got none.
#[derive(Drop)]
pub struct Following {
    pub told: Arc<AtomicU64>,
    pub follows: bool,
}

impl Gate for Following {
    ghost never_stops = { false };

    fn before(&mut self, _n: usize) -> Go {
        if !self.follows {
            return Go::Post;
        }
        for _ in 0..LOOKS {
            if self.told.load(Ordering::SeqCst) > 0 {
                return Go::Post;
            }
        }
        Go::Stop
    }

    fn after(&mut self, _item: &Item) {
        if !self.follows {
            self.told.fetch_add(1, Ordering::SeqCst);
        }
    }
}

/// The questions to a gate, and the items that it heard.
#[derive(Drop)]
pub struct Heard {
    pub first: AtomicU64,
    pub second: AtomicU64,
    pub items: AtomicU64,
}

impl Heard {
    pub fn new() -> Heard {
        Heard {
            first: AtomicU64::new(0),
            second: AtomicU64::new(0),
            items: AtomicU64::new(0),
        }
    }

    /// How often the gate was asked.
    pub fn asked(&self) -> u64 {
        self.first
            .load(Ordering::SeqCst)
            .wrapping_add(self.second.load(Ordering::SeqCst))
    }

    /// How many items it heard.
    pub fn told(&self) -> u64 {
        self.items.load(Ordering::SeqCst)
    }
}

/// Lets each post through when it is asked the third time.
#[derive(Drop)]
pub struct Slow {
    pub heard: Arc<Heard>,
    pub asked: u32,
}

impl Gate for Slow {
    ghost never_stops = { true };

    fn before(&mut self, n: usize) -> Go {
        let counter = if n == 0 {
            &self.heard.first
        } else {
            &self.heard.second
        };
        counter.fetch_add(1, Ordering::SeqCst);
        self.asked = self.asked.wrapping_add(1);
        if self.asked < 3 {
            return Go::Later;
        }
        self.asked = 0;
        Go::Post
    }

    fn after(&mut self, _item: &Item) {
        self.heard.items.fetch_add(1, Ordering::SeqCst);
    }
}

/// Gates of this kind, and what each hears.
pub fn slow_gates(alloc: Global, count: usize) -> Result<(Vec<Slow>, Vec<Arc<Heard>>), AllocError> {
    let mut gates = Vec::new(alloc);
    let mut all = Vec::new(alloc);
    for _ in 0..count {
        let heard = Arc::new(alloc, Heard::new())?;
        all.push(Arc::try_clone(&heard)?)?;
        gates.push(Slow { heard, asked: 0 })?;
    }
    Ok((gates, all))
}
