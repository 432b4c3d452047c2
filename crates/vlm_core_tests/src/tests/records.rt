//! How large the records of the store are; and a process with a lock and a lock below it.

ghost use Rattle.std.specs.Prelude.{◌≡◌};

use crate::tests::stores::{self, Spot};
use std::alloc::AllocError;
use std::mem::size_of;
use std::process::Abort;
use std::test::Fail;
use vlm_store::{Lock, Resource, Store};
use vlm_words::locks::LockState;
use vlm_words::resources::Key;
use vlm_words::steps::Declaration;

const PID: u32 = 65_537;

#[test]
fn a_lock_takes_at_most_144_bytes(rt: HostRuntime) {
    let size = size_of::<Lock>();
    assert!(rt; size <= 144, "a lock takes {size} bytes");
}

#[test]
fn a_resource_takes_at_most_236_bytes(rt: HostRuntime) {
    let size = size_of::<Resource>();
    assert!(rt; size <= 236, "a resource takes {size} bytes");
}

fn row(lkid: u32, parent: u32) -> LockState
    ensures lkid { result.lkid ≡ lkid }
    ensures parent { result.parent ≡ parent }
{
    LockState {
        lkid,
        pid: PID,
        parent,
        armed: false,
        held: None,
        want: None,
    }
}

// A process that lives, and a resource.
fn begin(store: &mut Store, key: &Key) -> Result<(), AllocError> {
    let declaration = Declaration {
        node: 1,
        group: 7,
        syslck: false,
        quota: 9,
        blocks: 2,
    };
    stores::declare(store, PID, &declaration)?;
    stores::open(store, 1, key)
}

// The process has two locks, neither of them below the other.
fn make_two(rt: &impl Abort, store: &mut Store, key: &Key) -> Result<(), AllocError> {
    begin(store, key)?;
    stores::add(rt, store, key, row(1, 0))?;
    stores::add(rt, store, key, row(2, 0))
}

// The process has this many locks, and the second is one of them.
fn check_locks(rt: &impl Abort, store: &Store, count: usize) {
    let owner = stores::process(rt, store, PID);
    let second = stores::lock(rt, store, 2);
    assert!(rt; store.process_record(owner).authorization.group == 7);
    assert!(rt; store.lock_record(second).owner == owner);
    assert!(rt; store.own_lock_count(owner) == count);
}

#[test]
fn a_process_owns_its_locks(rt: HostRuntime) -> Result<(), Fail> {
    let key = stores::key(b"A")?;
    let mut store = Store::new(rt.alloc());
    make_two(&rt, &mut store, &key)?;
    check_locks(&rt, &store, 2);
    assert!(rt; stores::leave(&rt, &mut store, 1));
    check_locks(&rt, &store, 1);
    Ok(())
}

// The process has a lock, and another below it.
fn make_tree(rt: &impl Abort, store: &mut Store, key: &Key) -> Result<(), AllocError> {
    begin(store, key)?;
    stores::add(rt, store, key, row(1, 0))?;
    store.reserve_lock(2)?;
    let parent = stores::lock(rt, store, 1);
    let below = row(2, store.lock_record(parent).row.lkid());
    let spot = Spot {
        parent: Some(parent),
        to: stores::place(rt, store, key, &below),
    };
    stores::add_reserved(rt, store, below, spot);
    Ok(())
}

#[test]
fn a_parent_outlives_its_sublock(rt: HostRuntime) -> Result<(), Fail> {
    let key = stores::key(b"A")?;
    let mut store = Store::new(rt.alloc());
    make_tree(&rt, &mut store, &key)?;
    assert!(rt; !stores::leave(&rt, &mut store, 1));
    assert!(rt; stores::leave(&rt, &mut store, 2));
    assert!(rt; stores::leave(&rt, &mut store, 1));
    assert!(rt; store.lock(1).is_none());
    Ok(())
}
