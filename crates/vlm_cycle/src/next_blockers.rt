//! The locks for which a queued request waits, and the locks whose requests wait for a lock, one after another: those
//! of the granted queue, of the conversion queue and of the waiting queue of its resource. A walk takes no memory.

ghost use Rattle.std.specs.Prelude.{◌≡◌, ℕ, IsNone, IfSome};
ghost use Rattle.std.specs.Bool.{OnFalse, OnTrue};
ghost use Rattle.std.specs.Option.{ForSome};
ghost use Rattle.vlm_words.specs.declared.locks.Request.{Request};
ghost use Rattle.vlm_store.specs.Records.{HasResource, IsSound, IsStored, at_after, first_at};
ghost use Rattle.vlm_locks.specs.Rest.{IsAtRest};
ghost use Rattle.vlm_locks.specs.Standing.{IsLocated};
ghost use Rattle.vlm_cycle.specs.Blocking.{AreInOrder, Awaits, IsNextBlocked, IsNextBlocker, IsOn, Keeps, WaitsForLocated, WaitsOnLock, all_locks_at, first_from, is_before};

use crate::conflicts::{blocks_those_behind, holds_against};
use crate::first_requests::first_queued;
use crate::victims::wanted_number;
use vlm_locks::{LocatedLock, located_lock};
use vlm_queue::{head, next};
use vlm_store::{LockAt, ResAt, Store, StoredState};
use vlm_words::flags::EnqFlags;
use vlm_words::locks::Request;
use vlm_words::resources::Queue;

fn first_lock(store: &Store, res: ResAt) -> Option<LockAt>
    requires { HasResource res store.now }
    ensures { result ≡ first_at (all_locks_at res store.now) }
{
    match head(store, res, Queue::Granted) {
        Some(granted) => Some(granted),
        None => first_queued(store, res),
    }
}

fn following(store: &Store, lock: LockAt) -> Option<LockAt>
    requires { IsStored lock store.now }
    ensures { (res : ℕ) → IsOn lock res store.now
        → result ≡ at_after lock (all_locks_at res store.now) }
{
    let (res, queue) = store.lock_record(lock).place.parts();
    match next(store, lock) {
        Some(next) => Some(next),
        None => match queue {
            Queue::Granted => first_queued(store, res),
            Queue::Conversion => head(store, res, Queue::Waiting),
            Queue::Waiting => None,
        },
    }
}

fn first_from(store: &Store, res: ResAt, from: Option<LockAt>) -> Option<LockAt>
    requires there { HasResource res store.now }
    requires from { ForSome from (λ lock. IsOn lock res store.now) }
    requires sound { IsSound store.now }
    ensures { result ≡ first_from from (all_locks_at res store.now) }
{
    match from {
        Some(lock) => following(store, lock),
        None => first_lock(store, res),
    }
}

// Whether a request is before another one on the same resource. In each queue the numbers of the requests rise.
fn is_before(queue: Queue, number: u64, other: Queue, other_number: u64) -> bool
    ensures { result ≡ is_before queue number other other_number }
{
    match (queue, other) {
        (Queue::Conversion, Queue::Waiting) => true,
        (Queue::Conversion, Queue::Conversion) | (Queue::Waiting, Queue::Waiting) => {
            number < other_number
        }
        _ => false,
    }
}

fn keeps_waiting(waiting: &LocatedLock, request: &Request, queue: Queue, row: &StoredState) -> bool
    ensures yes { OnTrue result (Keeps waiting.now.queue request.now queue row.now) }
    ensures no { OnFalse result (¬ Keeps waiting.now.queue request.now queue row.now) }
{
    if !matches!(queue, Queue::Waiting) {
        if holds_against(request.mode, &row.held()) {
            return true;
        }
    }
    if !is_before(queue, wanted_number(row), waiting.queue, request.number) {
        return false;
    }
    blocks_those_behind(&row.want())
}

// Whether the request of the located lock waits for this lock of its resource. It takes constant time.
fn waits_on(store: &Store, waiting: &LocatedLock, request: &Request, lock: LockAt) -> bool
    requires located { IsLocated waiting.now store.now }
    requires ordered { AreInOrder store.now }
    requires awaits { Awaits waiting.now request.now }
    requires on { IsOn lock waiting.now.res store.now }
    ensures yes { OnTrue result (WaitsOnLock store.now waiting.now lock) }
    ensures no { OnFalse result (¬ WaitsOnLock store.now waiting.now lock) }
{
    let other = store.lock_record(lock);
    if other.row.lkid() == waiting.row.lkid() {
        return false;
    }
    let (_, queue) = other.place.parts();
    keeps_waiting(waiting, request, queue, &other.row)
}

// The request of a queued lock, if it waits for other locks: not with NODLCKWT.
fn awaited_request(waiting: &LocatedLock) -> Option<Request>
    ensures some { IfSome result (λ request. Awaits waiting.now request) }
    ensures none { IsNone result → (request : Request) → ¬ Awaits waiting.now request }
{
    if waiting.is_granted() {
        return None;
    }
    let request = waiting.row.want()?;
    if request.flags.has(EnqFlags::NODLCKWT) {
        return None;
    }
    Some(request)
}

/// The first lock on its resource for which the request of a lock waits; with `from`, the first one after that lock.
/// The cost grows with the locks that it passes.
pub fn next_blocker(store: &Store, waiting: &LocatedLock, from: Option<LockAt>) -> Option<LockAt>
    requires located { IsLocated waiting.now store.now }
    requires ordered { AreInOrder store.now }
    requires from { ForSome from (λ lock. IsOn lock waiting.now.res store.now) }
    ensures next { IsNextBlocker store.now waiting.now from result }
    ensures on { ForSome result (λ lock. IsOn lock waiting.now.res store.now) }
{
    let request = awaited_request(waiting)?;
    let mut at = first_from(store, waiting.res, from);
    while let Some(lock) = at {
        if waits_on(store, waiting, &request, lock) {
            return Some(lock);
        }
        at = following(store, lock);
    }
    None
}

// Whether the request of another lock of its resource waits for the located lock. It takes constant time.
fn is_awaited_by(store: &Store, lock: &LocatedLock, other: LockAt) -> bool
    requires rest { IsAtRest store.now }
    requires located { IsLocated lock.now store.now }
    requires ordered { AreInOrder store.now }
    requires on { IsOn other lock.now.res store.now }
    ensures yes { OnTrue result (WaitsForLocated store.now lock.now other) }
    ensures no { OnFalse result (¬ WaitsForLocated store.now lock.now other) }
{
    let waiting = located_lock(store, other);
    match awaited_request(&waiting) {
        Some(request) => waits_on(store, &waiting, &request, lock.lock),
        None => false,
    }
}

/// The first lock on its resource whose request waits for this lock; with `from`, the first one after that lock. The
/// cost grows with the locks that it passes.
pub fn next_blocked(store: &Store, lock: &LocatedLock, from: Option<LockAt>) -> Option<LockAt>
    requires rest { IsAtRest store.now }
    requires located { IsLocated lock.now store.now }
    requires ordered { AreInOrder store.now }
    requires from { ForSome from (λ other. IsOn other lock.now.res store.now) }
    ensures next { IsNextBlocked store.now lock.now from result }
    ensures on { ForSome result (λ other. IsOn other lock.now.res store.now) }
{
    let mut at = first_from(store, lock.res, from);
    while let Some(other) = at {
        if is_awaited_by(store, lock, other) {
            return Some(other);
        }
        at = following(store, other);
    }
    None
}
