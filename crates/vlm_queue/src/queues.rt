//! The queues of a resource. Each call takes constant time.

ghost use Rattle.std.specs.Prelude.{◌≡◌, IfNone, IfSome};
ghost use Rattle.std.specs.Bool.{OnTrue, OnFalse};
ghost use Rattle.std.specs.Option.{ForSome};
ghost use Rattle.vlm_words.specs.declared.locks.LockState.{LockState};
ghost use Rattle.vlm_words.specs.Rows.{is_empty};
ghost use Rattle.vlm_collections.specs.Lists.{IsIn};
ghost use Rattle.vlm_records.specs.declared.handles.Place.{Place};
ghost use Rattle.vlm_store.specs.Records.{AreSound, HasResource, IsIdle, IsLock, IsLoose, IsLooseRow, IsSound, IsStored, Stores, at_after, first_at, fits_beside, locks_at, queued, resource_at, rows_of_locks, with_lock_pushed, with_lock_unlinked};

use vlm_store::{LockAt, Place, ResAt, Store};
use vlm_words::modes::Mode;
use vlm_words::resources::Queue;

/// The first lock of a queue, if there is one.
pub fn head(store: &Store, res: ResAt, queue: Queue) -> Option<LockAt>
    requires { HasResource res store.now }
    ensures first { result ≡ first_at (locks_at (Place.Queued res queue) store.now) }
    ensures stored { IfSome result (λ lock. IsStored lock store.now) }
    ensures sound { IsSound store.now }
{
    store.first(Place::Queued(res, queue))
}

/// The next lock in the queue of this lock, if there is one.
pub fn next(store: &Store, lock: LockAt) -> Option<LockAt>
    requires { IsStored lock store.now }
    ensures { (place : Place) (row : LockState)
        → IsIn (record { at = lock; row = row }) (locks_at place store.now)
        → result ≡ at_after lock (locks_at place store.now) }
{
    store.next(lock)
}

/// Puts a loose lock, which is in no queue, at the end of a queue.
pub fn push_back(store: &mut Store, res: ResAt, queue: Queue, lock: LockAt)
    requires there { HasResource res store.old }
    requires loose { IsLoose lock store.old }
    ensures pushed { (row : LockState) → IsLooseRow store.old lock row
        → store.new ≡ with_lock_pushed lock row (Place.Queued res queue) store.old }
    ensures sound { AreSound store.old store.new }
{
    store.push_back(lock, Place::Queued(res, queue));
}

/// Takes a lock out of its queue. It is then loose: `push_back` puts it into a queue.
pub fn unlink(store: &mut Store, lock: LockAt)
    requires { IsStored lock store.old }
    ensures unlinked { (row : LockState) → Stores store.old lock row
        → store.new ≡ with_lock_unlinked lock row store.old }
    ensures sound { AreSound store.old store.new }
{
    store.unlink(lock);
}

/// Takes the first lock out of a queue, if there is one. It is then loose, as after `unlink`.
pub fn pop_front(store: &mut Store, res: ResAt, queue: Queue) -> Option<LockAt>
    requires { HasResource res store.old }
    ensures first { result ≡ first_at (locks_at (Place.Queued res queue) store.old) }
    ensures unlinked { IfSome result (λ lock. (row : LockState) → Stores store.old lock row
        → store.new ≡ with_lock_unlinked lock row store.old) }
    ensures empty { IfNone result (store.new ≡ store.old) }
    ensures sound { AreSound store.old store.new }
{
    let lock = head(store, res, queue)?;
    unlink(store, lock);
    Some(lock)
}

/// Whether the mode is compatible with the modes that all locks of the resource except one hold, granted or converting.
#[inline(always)]
pub fn can_hold(store: &Store, res: ResAt, mode: Mode, except: Option<LockAt>) -> bool
    requires there { HasResource res store.now }
    requires except { ForSome except (λ lock. IsLock lock store.now) }
    ensures { IfSome (resource_at res store.now.resources)
        (λ r. result ≡ fits_beside mode except r) }
{
    store.can_hold(res, mode, except)
}

/// Whether the queue has no lock.
pub fn is_empty(store: &Store, res: ResAt, queue: Queue) -> bool
    requires { HasResource res store.now }
    ensures empty { IfSome (resource_at res store.now.resources)
        (λ r. result ≡ is_empty (rows_of_locks (queued queue r))) }
    ensures sound { IsSound store.now }
{
    head(store, res, queue).is_none()
}

/// Whether the resource has no lock in any queue.
pub fn is_idle(store: &Store, res: ResAt) -> bool
    requires { HasResource res store.now }
    ensures idle { OnTrue result (IsIdle res store.now) }
    ensures busy { OnFalse result (¬ IsIdle res store.now) }
    ensures sound { IsSound store.now }
{
    is_empty(store, res, Queue::Granted)
        && is_empty(store, res, Queue::Conversion)
        && is_empty(store, res, Queue::Waiting)
}
