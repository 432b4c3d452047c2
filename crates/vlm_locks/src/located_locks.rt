//! Finds locks, with their resource and their queue.

ghost use Rattle.std.specs.Prelude.{◌≡◌, ◌≢◌, IfSome, is_some};
ghost use Rattle.std.specs.Bool.{OnFalse, OnTrue};
ghost use Rattle.vlm_words.specs.declared.locks.LockState.{LockState};
ghost use Rattle.vlm_words.specs.declared.resources.Queue.{Queue};
ghost use Rattle.std.specs.List.{list_any};
ghost use Rattle.vlm_model.specs.Checks.{holds_lock};
ghost use Rattle.vlm_store.specs.Plain.{plain_resources};
ghost use Rattle.vlm_store.specs.Records.{IsStored, Stores};
ghost use Rattle.vlm_locks.specs.Rest.{IsAtRest};
ghost use Rattle.vlm_locks.specs.Standing.{IsLockOf, IsLocated};

use vlm_store::{LockAt, ProcAt, ResAt, Store, StoredState};
use vlm_words::resources::Queue;

/// A lock, with its process, its row, its resource and its queue.
#[derive(Clone, Copy)]
pub struct LocatedLock {
    pub lock: LockAt,
    pub owner: ProcAt,
    pub row: StoredState,
    pub res: ResAt,
    pub queue: Queue,
}

impl LocatedLock {
    pub fn is_granted(&self) -> bool
        ensures granted { OnTrue result (self.now.queue ≡ Queue.Granted) }
        ensures queued { OnFalse result (self.now.queue ≢ Queue.Granted) }
    {
        matches!(self.queue, Queue::Granted)
    }
}

/// Locates the lock with this handle. Every lock is in a queue.
pub fn located_lock(store: &Store, lock: LockAt) -> LocatedLock
    requires rest { IsAtRest store.now }
    requires stored { IsStored lock store.now }
    ensures located { IsLocated result store.now }
    ensures lock { result.lock ≡ lock }
    ensures row { Stores store.now lock result.row }
    ensures only { (row : LockState) → Stores store.now lock row → row ≡ result.row }
{
    let record = store.lock_record(lock);
    let (res, queue) = record.place.parts();
    LocatedLock {
        lock,
        owner: record.owner,
        row: record.row,
        res,
        queue,
    }
}

/// The lock with this ID, if there is one and the process owns it.
pub fn find_lock(store: &Store, pid: u32, lkid: u32) -> Option<LockAt>
    requires { IsAtRest store.now }
    ensures held { is_some result ≡ list_any (holds_lock pid lkid) (plain_resources store.now) }
    ensures lock { IfSome result (λ lock. IsLockOf pid lkid lock store.now) }
{
    let lock = store.lock(lkid)?;
    if store.lock_record(lock).row.pid() == pid {
        Some(lock)
    } else {
        None
    }
}
