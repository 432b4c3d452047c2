//! The readers of the locks for which a queued request waits, and of the locks whose requests wait for a lock. They say
//! it exactly as a search for a deadlock does, take no memory, and change nothing.

ghost use Rattle.std.specs.Option.{ForSome};
ghost use Rattle.vlm_model.specs.QueueOrder.{QueuesAreInOrderOfRequests};
ghost use Rattle.vlm_locks.specs.Rest.{IsAtRest};
ghost use Rattle.vlm_locks.specs.Standing.{IsLocated};
ghost use Rattle.vlm_cycle.specs.Blocking.{AreInOrder, IsNextOn, IsOn};
ghost use Rattle.vlm_core.specs.Blockers.{IsShownFrom, ShowsFirstBlocked, ShowsFirstBlocker, ShowsFirstOf, ShowsNextBlocked, ShowsNextBlocker, ShowsNextOf, standing_of};

use crate::locks::{LockView, lock_view};
use crate::public::Core;
use vlm_cycle::{next_blocked, next_blocker};
use vlm_locks::{LocatedLock, located_lock};
use vlm_model::laws::law_queues_are_in_the_order_of_requests;
use vlm_store::{LockAt, Store};

// Which locks of its resource are shown of a lock: those for which its request waits, or those whose requests wait for
// it.
#[derive(Clone, Copy)]
enum Side {
    Blockers,
    Blocked,
}

// The first lock on this side of a lock; with `from`, the first one after that lock.
fn next_on(store: &Store, located: &LocatedLock, side: Side, from: Option<LockAt>) -> Option<LockAt>
    requires rest { IsAtRest store.now }
    requires located { IsLocated located.now store.now }
    requires ordered { AreInOrder store.now }
    requires from { ForSome from (λ lock. IsOn lock located.now.res store.now) }
    ensures next { IsNextOn (λ r row. standing_of side r located.now.row row) store.now located.now.res from result }
    ensures on { ForSome result (λ lock. IsOn lock located.now.res store.now) }
{
    match side {
        Side::Blockers => next_blocker(store, located, from),
        Side::Blocked => next_blocked(store, located, from),
    }
}

// The view of that lock.
fn view_from(
    store: &Store,
    located: &LocatedLock,
    side: Side,
    from: Option<LockAt>,
) -> Option<LockView>
    requires rest { IsAtRest store.now }
    requires located { IsLocated located.now store.now }
    requires ordered { AreInOrder store.now }
    requires from { ForSome from (λ lock. IsOn lock located.now.res store.now) }
    ensures { IsShownFrom (standing_of side) store.now located.now from result }
{
    let found = next_on(store, located, side, from)?;
    Some(lock_view(store, found))
}

impl Core {
    // The queues are in the order of their requests.
    fn in_order(&self)
        ensures { QueuesAreInOrderOfRequests self.now }
    {
        law_queues_are_in_the_order_of_requests();
        let _machine = &self.machine;
    }

    fn first_of(&self, lkid: u32, side: Side) -> Option<Option<LockView>>
        ensures { ShowsFirstOf (standing_of side) self.now lkid result }
    {
        self.in_order();
        let store = &self.machine.store;
        let lock = store.lock(lkid)?;
        let located = located_lock(store, lock);
        Some(view_from(store, &located, side, None))
    }

    fn next_of(&self, lkid: u32, after: u32, side: Side) -> Option<Option<LockView>>
        ensures { ShowsNextOf (standing_of side) self.now lkid after result }
    {
        self.in_order();
        let store = &self.machine.store;
        let lock = store.lock(lkid)?;
        let located = located_lock(store, lock);
        let last = store.lock(after)?;
        if located_lock(store, last).res != located.res {
            return None;
        }
        Some(view_from(store, &located, side, Some(last)))
    }

    /// The first lock that keeps the queued request of a lock waiting, in the order of the queues: granted locks, then
    /// conversions, then waiting requests. These are the locks for which the request waits in the search for a deadlock
    /// ([`Core::search`]), NODLCKWT and NODLCKBLK included. `None` if no lock has the ID; `Some(None)` if
    /// nothing keeps it waiting, as for a granted lock. The cost grows with the locks of the resource that it passes.
    pub fn first_blocker(&self, lkid: u32) -> Option<Option<LockView>>
        ensures { ShowsFirstBlocker self.now lkid result }
    {
        self.first_of(lkid, Side::Blockers)
    }

    /// The next such lock, in the order of the queues, after the lock `after`. `None` if no lock has the ID
    /// `lkid`, or `after` is not a lock of its resource. The cost grows with the locks that it passes, so a walk over
    /// all of them costs one pass over the resource.
    pub fn next_blocker(&self, lkid: u32, after: u32) -> Option<Option<LockView>>
        ensures { ShowsNextBlocker self.now lkid after result }
    {
        self.next_of(lkid, after, Side::Blockers)
    }

    /// The first lock whose queued request waits for a lock, in the order of the queues: conversions, then waiting
    /// requests. It is the other side of [`Core::first_blocker`]: it shows a lock exactly if that lock has this one
    /// among its blockers. `None` if no lock has the ID; `Some(None)` if no request waits for it. The cost
    /// grows with the locks of the resource that it passes, the granted ones included.
    pub fn first_blocked(&self, lkid: u32) -> Option<Option<LockView>>
        ensures { ShowsFirstBlocked self.now lkid result }
    {
        self.first_of(lkid, Side::Blocked)
    }

    /// The next such lock, in the order of the queues, after the lock `after`. `None` if no lock has the ID
    /// `lkid`, or `after` is not a lock of its resource. The cost grows with the locks that it passes.
    pub fn next_blocked(&self, lkid: u32, after: u32) -> Option<Option<LockView>>
        ensures { ShowsNextBlocked self.now lkid after result }
    {
        self.next_of(lkid, after, Side::Blocked)
    }
}
