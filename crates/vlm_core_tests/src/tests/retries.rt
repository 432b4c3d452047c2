//! A resource whose three queues are filled, served and emptied. What wants memory finds, where it was
//! refused, that nothing has changed, and tries again: so each test passes with any one allocation refused.

mod lists;
mod loose_locks;
mod routines;

ghost use Rattle.std.specs.Prelude.{◌≡◌};

use crate::tests::stores::{self, key, lock, process, resource};
use std::alloc::AllocError;
use std::process::Abort;
use std::test::Fail;
use vlm_queue::{head, is_idle, next};
use vlm_store::{Armed, LockAt, Place, Store, StoredState};
use vlm_words::flags::EnqFlags;
use vlm_words::locks::{LockState, Request};
use vlm_words::modes::Mode;
use vlm_words::resources::{Key, Queue};
use vlm_words::steps::Declaration;

fn request(mode: Mode) -> Request {
    Request {
        number: 1,
        mode,
        flags: EnqFlags::EXPEDITE,
        block: 1,
        completion: None,
        blocking: None,
        param: 0,
    }
}

fn row(lkid: u32, held: Option<Mode>, want: Option<Mode>) -> LockState
    ensures { result.parent ≡ 0 }
{
    LockState {
        lkid,
        pid: 1,
        parent: 0,
        held: held.map(request),
        want: want.map(request),
        armed: false,
    }
}

// Declares a process. Where memory was refused once it does not live, and is declared again.
fn declare(rt: &impl Abort, store: &mut Store, pid: u32) -> Result<(), AllocError> {
    let declaration = Declaration {
        node: 1,
        group: 1,
        syslck: false,
        quota: 9,
        blocks: 1,
    };
    if stores::declare(store, pid, &declaration).is_err() {
        assert!(rt;
            store.process(pid).is_none(),
            "a refused process is not there"
        );
        stores::declare(store, pid, &declaration)?;
    }
    Ok(())
}

// Adds a resource, unless it is there. Where memory was refused once it is not there, and is added again.
fn open(rt: &impl Abort, store: &mut Store, serial: u32, key: &Key) -> Result<(), AllocError> {
    if stores::open(store, serial, key).is_err() {
        assert!(rt;
            store.resource(key, store.hash_of(key)).is_none(),
            "a refused resource is not there"
        );
        stores::open(store, serial, key)?;
    }
    Ok(())
}

// Adds a lock at the end of its queue, unless it is there. Where memory was refused once it is not there, and
// is added again.
fn enter(rt: &impl Abort, store: &mut Store, key: &Key, row: LockState) -> Result<(), AllocError>
    requires { row.parent ≡ 0 }
{
    let owner = process(rt, store, row.pid);
    let count = store.own_lock_count(owner);
    if stores::add(rt, store, key, row).is_err() {
        assert!(rt;
            store.lock(row.lkid).is_none(),
            "a refused lock is not there"
        );
        let owner = process(rt, store, row.pid);
        assert_eq!(rt; store.own_lock_count(owner), count);
        stores::add(rt, store, key, row)?;
    }
    Ok(())
}

// One resource, whose three queues are filled.
fn fill(rt: &impl Abort, store: &mut Store, key: &Key) -> Result<(), AllocError> {
    let granted = row(1, Some(Mode::Ex), None);
    let converting = row(2, Some(Mode::Nl), Some(Mode::Pr));
    let first_waiting = row(3, None, Some(Mode::Pr));
    let next_waiting = row(4, None, Some(Mode::Cr));
    declare(rt, store, 1)?;
    open(rt, store, 1, key)?;
    enter(rt, store, key, granted)?;
    enter(rt, store, key, converting)?;
    enter(rt, store, key, first_waiting)?;
    enter(rt, store, key, next_waiting)
}

// Removes a lock that has no sublocks.
fn leave(rt: &impl Abort, store: &mut Store, lkid: u32) {
    assert!(rt; stores::leave(rt, store, lkid));
}

// Grants the first converting lock this mode.
fn serve(rt: &impl Abort, store: &mut Store, key: &Key, lkid: u32, mode: Mode) {
    let res = resource(rt, store, key);
    let lock = lock(rt, store, lkid);
    assert!(rt; head(store, res, Queue::Conversion) == Some(lock));
    let row = LockState {
        held: Some(request(mode)),
        want: None,
        ..store.lock_record(lock).row.row()
    };
    store.move_lock(
        lock,
        &StoredState::of(&row),
        Place::Queued(res, Queue::Granted),
    );
}

// Whether a mode can be held beside all locks, or beside all but one.
fn fits(rt: &impl Abort, store: &Store, key: &Key, mode: Mode, own: Option<u32>) -> bool {
    let res = resource(rt, store, key);
    match own {
        None => store.can_hold(res, mode, None),
        Some(lkid) => store.can_hold(res, mode, Some(lock(rt, store, lkid))),
    }
}

#[test]
fn a_mode_fits_once_the_holder_has_left(rt: HostRuntime) -> Result<(), Fail> {
    let key = key(b"A")?;
    let mut store = Store::new(rt.alloc());
    fill(&rt, &mut store, &key)?;
    assert!(rt; !fits(&rt, &store, &key, Mode::Pr, Some(2)));
    leave(&rt, &mut store, 1);
    assert!(rt; store.lock(1).is_none());
    assert!(rt; fits(&rt, &store, &key, Mode::Pr, Some(2)));
    assert!(rt; fits(&rt, &store, &key, Mode::Ex, None));
    Ok(())
}

#[test]
fn queues_keep_their_order(rt: HostRuntime) -> Result<(), Fail> {
    let key = key(b"A")?;
    let mut store = Store::new(rt.alloc());
    fill(&rt, &mut store, &key)?;
    let res = resource(&rt, &store, &key);
    let third = lock(&rt, &store, 3);
    assert!(&rt; !is_idle(&store, res));
    assert_eq!(&rt; head(&store, res, Queue::Granted), store.lock(1));
    assert_eq!(&rt; head(&store, res, Queue::Conversion), store.lock(2));
    assert_eq!(&rt; head(&store, res, Queue::Waiting), Some(third));
    assert_eq!(&rt; next(&store, third), store.lock(4));
    Ok(())
}

#[test]
fn an_emptied_resource_leaves_the_order_of_the_others(rt: HostRuntime) -> Result<(), Fail> {
    let a = key(b"A")?;
    let b = key(b"B")?;
    let mut store = Store::new(rt.alloc());
    fill(&rt, &mut store, &a)?;
    open(&rt, &mut store, 2, &b)?;
    leave(&rt, &mut store, 1);
    leave(&rt, &mut store, 2);
    leave(&rt, &mut store, 3);
    assert!(&rt; !is_idle(&store, resource(&rt, &store, &a)));
    leave(&rt, &mut store, 4);
    let idle = resource(&rt, &store, &a);
    assert!(&rt; is_idle(&store, idle));
    store.remove_resource(idle);
    assert!(&rt; store.resource(&a, store.hash_of(&a)).is_none());
    assert_eq!(&rt;
        store.first_resource(),
        store.resource(&b, store.hash_of(&b))
    );
    Ok(())
}

#[test]
fn a_served_lock_is_granted_and_holds_its_mode(rt: HostRuntime) -> Result<(), Fail> {
    let key = key(b"A")?;
    let mut store = Store::new(rt.alloc());
    fill(&rt, &mut store, &key)?;
    leave(&rt, &mut store, 1);
    serve(&rt, &mut store, &key, 2, Mode::Pr);
    let res = resource(&rt, &store, &key);
    assert_eq!(&rt; head(&store, res, Queue::Granted), store.lock(2));
    assert!(&rt; head(&store, res, Queue::Conversion).is_none());
    assert!(rt; !fits(&rt, &store, &key, Mode::Pw, None));
    assert!(rt; fits(&rt, &store, &key, Mode::Pw, Some(2)));
    leave(&rt, &mut store, 2);
    assert!(rt; fits(&rt, &store, &key, Mode::Pw, None));
    Ok(())
}

// Arms a granted lock, which joins its queue anew.
fn arm(rt: &impl Abort, store: &mut Store, key: &Key, lkid: u32) {
    let res = resource(rt, store, key);
    let granted = lock(rt, store, lkid);
    let row = LockState {
        armed: true,
        ..store.lock_record(granted).row.row()
    };
    let to = Place::Queued(res, Queue::Granted);
    store.move_lock(granted, &StoredState::of(&row), to);
}

// The first lock of a list of armed locks of the resource.
fn first_armed(rt: &impl Abort, store: &Store, key: &Key, which: Armed) -> Option<LockAt> {
    store.first_armed(resource(rt, store, key), which)
}

// The lock holds EX.
#[test]
fn an_armed_lock_is_in_both_lists_until_it_is_disarmed(rt: HostRuntime) -> Result<(), Fail> {
    let key = key(b"A")?;
    let mut store = Store::new(rt.alloc());
    fill(&rt, &mut store, &key)?;
    assert!(rt; first_armed(&rt, &store, &key, Armed::AboveNl).is_none());
    arm(&rt, &mut store, &key, 1);
    assert_eq!(rt;
        first_armed(&rt, &store, &key, Armed::AboveNl),
        store.lock(1)
    );
    assert_eq!(rt;
        first_armed(&rt, &store, &key, Armed::AboveCr),
        store.lock(1)
    );
    let armed = lock(&rt, &store, 1);
    store.disarm(armed);
    assert!(rt; first_armed(&rt, &store, &key, Armed::AboveNl).is_none());
    assert!(rt; first_armed(&rt, &store, &key, Armed::AboveCr).is_none());
    Ok(())
}

// Whether a lock that holds this mode is in the way of a queued request of the resource.
fn blocks_a_request(rt: &impl Abort, store: &Store, key: &Key, mode: Mode) -> bool {
    store.blocks_a_request(resource(rt, store, key), mode)
}

#[test]
fn a_mode_blocks_what_is_queued(rt: HostRuntime) -> Result<(), Fail> {
    let key = key(b"A")?;
    let mut store = Store::new(rt.alloc());
    fill(&rt, &mut store, &key)?;
    assert!(rt; blocks_a_request(&rt, &store, &key, Mode::Ex));
    assert!(rt; blocks_a_request(&rt, &store, &key, Mode::Cw));
    assert!(rt; !blocks_a_request(&rt, &store, &key, Mode::Pr));
    Ok(())
}

// Makes room for lock 1. Where memory was refused once it is made again.
fn make_room(store: &mut Store) -> Result<(), AllocError> {
    if store.reserve_lock(1).is_err() {
        store.reserve_lock(1)?;
    }
    Ok(())
}

#[test]
fn what_has_room_is_added(rt: HostRuntime) -> Result<(), Fail> {
    let key = key(b"A")?;
    let mut store = Store::new(rt.alloc());
    declare(&rt, &mut store, 1)?;
    open(&rt, &mut store, 1, &key)?;
    make_room(&mut store)?;
    stores::add(&rt, &mut store, &key, row(1, Some(Mode::Ex), None))?;
    assert!(rt; !fits(&rt, &store, &key, Mode::Cr, None));
    Ok(())
}

// Owes a process this many more ASTs, and again if memory was refused once.
fn owe(rt: &impl Abort, store: &mut Store, pid: u32, count: usize) -> Result<(), AllocError> {
    let owner = process(rt, store, pid);
    if store.owe(owner, count).is_err() {
        let owner = process(rt, store, pid);
        store.owe(owner, count)?;
    }
    Ok(())
}

// What a process is owed is not pending.
#[test]
fn asts_are_owed(rt: HostRuntime) -> Result<(), Fail> {
    let mut store = Store::new(rt.alloc());
    declare(&rt, &mut store, 1)?;
    owe(&rt, &mut store, 1, 3)?;
    owe(&rt, &mut store, 1, 30)?;
    let owner = process(&rt, &store, 1);
    assert!(rt; store.process_record(owner).asts.len() == 0);
    Ok(())
}
