//! A walk over all queued locks.

ghost use Rattle.std.specs.Prelude.{◌≡◌, ℕ};
ghost use Rattle.std.specs.Iterator.{YieldsFirst, item_count};
ghost use Rattle.vlm_collections.specs.Lists.{IsIn};
ghost use Rattle.vlm_store.specs.Queued.{AreQueued, IsQueued};
ghost use Rattle.vlm_store.specs.Records.{IsSound};
ghost use Rattle.vlm_store.specs.Total.{queued_total};

use crate::store::Store;
use slab::Slab;
use std::marker::Model;
use vlm_collections::LinkedList;
use vlm_records::{InWaitList, Lock, LockAt};

/// A walk over the locks whose requests are queued. Its model is the list of the locks that are left.
#[derive(Drop)]
pub struct QueuedLocks<'a> {
    locks: &'a Slab<Lock>,
    wait_list: LinkedList<InWaitList>,
    // the next lock of the walk, if one is left
    next: Option<usize>,
}

impl<'a> Model for QueuedLocks<'a> {
    ghost use Rattle.std.specs.Prelude.{ℕ, List};

    ghost Value = { List ℕ };

    ghost use Rattle.vlm_records.specs.WaitList.{wait_list_handles};
    ghost use Rattle.vlm_store.specs.Queued.{IsOnWaitList, handles_on};

    ghost view = { λ w. handles_on w.next (wait_list_handles w.locks.now w.wait_list) };

    ghost invariant = { λ w. IsOnWaitList w.locks.now w.wait_list w.next };
}

impl<'a> Iterator for QueuedLocks<'a> {
    type Item = LockAt;

    ghost next_gives = { YieldsFirst (λ left. left) };

    ghost remaining = { item_count (λ left. left) };

    fn next(&mut self) -> Option<LockAt> {
        let at = self.next?;
        self.next = self.wait_list.next(self.locks, at);
        Some(LockAt::of(at))
    }
}

impl Store {
    /// All locks whose requests are queued, on any resource, in the order in which they were queued.
    pub fn queued_locks(&self) -> QueuedLocks<'_>
        ensures queued { AreQueued result self.now }
        ensures all { (at : ℕ) → IsQueued at self.now → IsIn at result }
        ensures sound { IsSound self.now }
    {
        QueuedLocks {
            locks: &self.queues.locks,
            wait_list: self.wait_list,
            next: self.wait_list.first(&self.queues.locks),
        }
    }

    /// How many requests are queued, on all resources. It takes constant time.
    pub fn queued_count(&self) -> usize
        ensures { result ≡ queued_total self.now }
    {
        self.wait_list.len(&self.queues.locks)
    }
}
