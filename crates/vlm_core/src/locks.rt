//! The readers of single locks: a lock by its ID, and the next lock of a queue, of a process, and below a
//! parent lock. Each takes constant time, and changes nothing.

ghost use Rattle.std.specs.Prelude.{◌≡◌, find, slice_get};
ghost use Rattle.std.specs.Option.{option_map};
ghost use Rattle.vlm_words.specs.Resources.{is_at};
ghost use Rattle.vlm_store.specs.Records.{IsStored};
ghost use Rattle.vlm_queue.specs.Views.{rows_in};
ghost use Rattle.vlm_locks.specs.Rest.{IsAtRest};
ghost use Rattle.vlm_core.specs.Locks.{IsLaterOwn, IsLaterSublock, IsViewOf, ShowsFirstOwn, ShowsFirstSublock, ShowsNamed, ShowsNextInQueue, ShowsNextOf, ShowsResourceOf, block_of, lock_view, view_at};
ghost use Rattle.vlm_core.specs.Readers.{key_of};

use crate::public::Core;
use crate::readers::key_of;
use vlm_locks::{LocatedLock, located_lock};
use vlm_model::laws::law_ids_are_apart;
use vlm_queue::{ResourceView, head, next, resource_view};
use vlm_store::{LockAt, Store, StoredState};
use vlm_words::modes::Mode;
use vlm_words::names::Name;
use vlm_words::resources::{Domain, Queue};

/// A lock with its place, as the system service $GETLKI shows it.
#[derive(Clone, Copy)]
pub struct LockView {
    /// Its ID.
    pub lkid: u32,
    /// The process that owns it.
    pub pid: u32,
    /// The mode that it holds; no mode while it waits.
    pub held: Option<Mode>,
    /// The mode that its queued request wants; no mode while it is granted.
    pub want: Option<Mode>,
    /// The queue of its resource in which it is.
    pub queue: Queue,
    /// The serial of its resource.
    pub resource: u32,
    /// Its parent lock, or 0 on a root.
    pub parent: u32,
    /// The status block of its last accepted request.
    pub block: u8,
}

// The status block of the last accepted request of a lock.
fn block_of(row: &StoredState) -> u8
    ensures { result ≡ block_of row.now }
{
    match row.want() {
        Some(want) => want.block,
        None => match row.held() {
            Some(held) => held.block,
            None => 0,
        },
    }
}

fn view_at(located: &LocatedLock, serial: u32) -> LockView
    ensures { result ≡ view_at serial located.now.queue located.now.row }
{
    LockView {
        lkid: located.row.lkid(),
        pid: located.row.pid(),
        held: located.row.held().map(|request| request.mode),
        want: located.row.want().map(|request| request.mode),
        queue: located.queue,
        resource: serial,
        parent: located.row.parent(),
        block: block_of(&located.row),
    }
}

pub(crate) fn lock_view(store: &Store, lock: LockAt) -> LockView
    requires rest { IsAtRest store.now }
    requires stored { IsStored lock store.now }
    ensures { IsViewOf store.now lock result }
{
    let located = located_lock(store, lock);
    view_at(&located, store.resource_record(located.res).serial)
}

impl Core {
    /// The lock with this ID; `None` if there is none.
    pub fn lock(&self, lkid: u32) -> Option<LockView>
        ensures { ShowsNamed self.now lkid result }
    {
        let store = &self.machine.store;
        let lock = store.lock(lkid)?;
        Some(lock_view(store, lock))
    }

    /// The resource of the lock with this ID, with its value block and tail, if there is such a lock.
    pub fn resource_of_lock(&self, lkid: u32) -> Option<ResourceView>
        ensures { ShowsResourceOf self.now lkid result }
    {
        let store = &self.machine.store;
        let lock = store.lock(lkid)?;
        let located = located_lock(store, lock);
        Some(resource_view(store, located.res))
    }

    /// The first lock in a queue of the resource of this name, named as in [`Core::resource`]. `None` if there is no
    /// such resource; `Some(None)` if the queue is empty.
    pub fn first_in_queue(
        &self,
        parent: u32,
        domain: Domain,
        name: Name,
        queue: Queue,
    ) -> Option<Option<LockView>>
        ensures { result ≡ option_map (λ r. option_map (lock_view r queue) (slice_get (rows_in queue r) 0))
            (find (is_at (key_of parent domain name)) self.now.resources) }
    {
        let store = &self.machine.store;
        let key = key_of(parent, domain, name);
        let res = store.resource(&key, store.hash_of(&key))?;
        match head(store, res, queue) {
            Some(lock) => Some(Some(lock_view(store, lock))),
            None => Some(None),
        }
    }

    /// The next lock in the queue of the lock with this ID. `None` if there is no such lock; `Some(None)`
    /// if it is the last one.
    pub fn next_in_queue(&self, lkid: u32) -> Option<Option<LockView>>
        ensures { ShowsNextInQueue self.now lkid result }
    {
        let store = &self.machine.store;
        let lock = store.lock(lkid)?;
        match next(store, lock) {
            Some(lock) => Some(Some(lock_view(store, lock))),
            None => Some(None),
        }
    }

    /// The first lock of a process, in the order of making. `None` if no living process has the ID;
    /// `Some(None)` if it has no locks.
    pub fn first_own(&self, pid: u32) -> Option<Option<LockView>>
        ensures { ShowsFirstOwn self.now pid result }
    {
        let store = &self.machine.store;
        let process = store.process(pid)?;
        match store.first_own(process) {
            Some(lock) => Some(Some(lock_view(store, lock))),
            None => Some(None),
        }
    }

    /// The next lock of the process that owns the lock with this ID, in the order of making. `None` if
    /// there is no such lock; `Some(None)` if it is the last one.
    pub fn next_own(&self, lkid: u32) -> Option<Option<LockView>>
        ensures { ShowsNextOf self.now IsLaterOwn lkid result }
    {
        let store = &self.machine.store;
        let lock = store.lock(lkid)?;
        match store.next_own(lock) {
            Some(lock) => Some(Some(lock_view(store, lock))),
            None => Some(None),
        }
    }

    /// The first sublock of the lock with this ID, in the order of making. `None` if there is no such lock;
    /// `Some(None)` if it has no sublocks.
    pub fn first_sublock(&self, lkid: u32) -> Option<Option<LockView>>
        ensures { ShowsFirstSublock self.now lkid result }
    {
        law_ids_are_apart();
        let store = &self.machine.store;
        let lock = store.lock(lkid)?;
        match store.first_sublock(lock) {
            Some(lock) => Some(Some(lock_view(store, lock))),
            None => Some(None),
        }
    }

    /// The next sublock of the same parent lock, in the order of making. `None` if no lock has this ID;
    /// `Some(None)` after the last sublock, and for a lock on a root.
    pub fn next_sublock(&self, lkid: u32) -> Option<Option<LockView>>
        ensures { ShowsNextOf self.now IsLaterSublock lkid result }
    {
        let store = &self.machine.store;
        let lock = store.lock(lkid)?;
        if store.lock_record(lock).row.parent() == 0 {
            return Some(None);
        }
        match store.next_sublock(lock) {
            Some(lock) => Some(Some(lock_view(store, lock))),
            None => Some(None),
        }
    }
}
