//! Calls on a store that is as it is between two steps.

ghost use Rattle.std.specs.Prelude.{◌≡◌};
ghost use Rattle.vlm_store.specs.Records.{HasPlace, HasProcess, HasResource, HasRoomForLock, IsLoose, IsParentOf, IsProcess, IsStored};

use std::alloc::AllocError;
use std::process::Abort;
use std::test::Fail;
use vlm_store::{LockAt, Place, ProcAt, ResAt, Store, StoredState};
use vlm_words::locks::LockState;
use vlm_words::names::Name;
use vlm_words::resources::{Domain, Key, Queue, Site};
use vlm_words::steps::Declaration;

/// The place of a new lock: below another lock or not, and at the end of a queue.
#[derive(Clone, Copy)]
pub struct Spot {
    pub parent: Option<LockAt>,
    pub to: Place,
}

/// The handle of a root in the system's domain.
pub fn key(name: &[u8]) -> Result<Key, Fail> {
    let name = Name::new(name).ok().ok_or("a name")?;
    Ok(Key::Root(Domain::System, name))
}

/// The process, which has to live.
pub fn process(rt: &impl Abort, store: &Store, pid: u32) -> ProcAt
    ensures named { IsProcess result pid store.now }
    ensures there { HasProcess result store.now }
{
    store.process(pid).expect(rt, "the process lives")
}

/// The resource, which has to be there.
pub fn resource(rt: &impl Abort, store: &Store, key: &Key) -> ResAt
    ensures { HasResource result store.now }
{
    store
        .resource(key, store.hash_of(key))
        .expect(rt, "the resource is there")
}

/// The lock, which has to be there and in a queue.
pub fn lock(rt: &impl Abort, store: &Store, lkid: u32) -> LockAt
    ensures { IsStored result store.now }
{
    let lock = store.lock(lkid).expect(rt, "the lock is there");
    assert!(rt; !store.is_loose(lock), "the lock is in a queue");
    lock
}

/// The lock, which has to be there and in no queue.
pub fn loose_lock(rt: &impl Abort, store: &Store, lkid: u32) -> LockAt
    ensures { IsLoose result store.now }
{
    let lock = store.lock(lkid).expect(rt, "the lock is there");
    assert!(rt; store.is_loose(lock), "the lock is in no queue");
    lock
}

/// Adds a process, unless it lives.
pub fn declare(store: &mut Store, pid: u32, declaration: &Declaration) -> Result<(), AllocError> {
    match store.process(pid) {
        Some(_) => Ok(()),
        None => {
            let blocks = store.new_status_blocks(declaration.blocks)?;
            store.add_process(pid, declaration, blocks)?;
            Ok(())
        }
    }
}

/// Adds a resource, unless it is there.
pub fn open(store: &mut Store, serial: u32, key: &Key) -> Result<(), AllocError> {
    match store.resource(key, store.hash_of(key)) {
        Some(_) => Ok(()),
        None => {
            let site = Site {
                key: *key,
                domain: Domain::System,
                level: 0,
            };
            store.add_resource(serial, &site, store.hash_of(key))?;
            Ok(())
        }
    }
}

/// The queue of a resource for a lock with the row's held and wanted modes. The resource has to exist.
pub fn place(rt: &impl Abort, store: &Store, key: &Key, row: &LockState) -> Place
    ensures { HasPlace result store.now }
{
    let queue = match (row.held.is_some(), row.want.is_some()) {
        (_, false) => Queue::Granted,
        (true, true) => Queue::Conversion,
        (false, true) => Queue::Waiting,
    };
    Place::Queued(resource(rt, store, key), queue)
}

/// Adds a lock without a parent at the end of its queue of the resource, unless it is there.
pub fn add(rt: &impl Abort, store: &mut Store, key: &Key, row: LockState) -> Result<(), AllocError>
    requires { row.parent ≡ 0 }
{
    let to = place(rt, store, key, &row);
    let owner = process(rt, store, row.pid);
    match store.lock(row.lkid) {
        Some(_) => Ok(()),
        None => {
            store.add_lock(&StoredState::of(&row), owner, None, to)?;
            Ok(())
        }
    }
}

/// Adds a lock, unless it is there. There is room for it.
pub fn add_reserved(rt: &impl Abort, store: &mut Store, row: LockState, spot: Spot)
    requires room { HasRoomForLock row.lkid store.old }
    requires parent { IsParentOf spot.parent row store.old }
    requires there { HasPlace spot.to store.old }
{
    let owner = process(rt, store, row.pid);
    match store.lock(row.lkid) {
        Some(_) => {}
        None => {
            store.add_lock_reserved(&StoredState::of(&row), owner, spot.parent, spot.to);
        }
    }
}

/// Removes a lock, unless it has sublocks. Says whether it is gone.
pub fn leave(rt: &impl Abort, store: &mut Store, lkid: u32) -> bool {
    let lock = lock(rt, store, lkid);
    if store.has_sublocks(lock) {
        return false;
    }
    store.remove_lock(lock);
    true
}
