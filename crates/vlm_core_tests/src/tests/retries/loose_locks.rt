//! Locks that leave their queue and join it again.

use crate::tests::retries::{fill, fits};
use crate::tests::stores::{key, lock, loose_lock, resource};
use std::process::Abort;
use std::test::Fail;
use vlm_queue::{head, is_empty, next, pop_front, push_back, unlink};
use vlm_store::{LockAt, Store};
use vlm_words::modes::Mode;
use vlm_words::resources::{Key, Queue};

fn take_out(rt: &impl Abort, store: &mut Store, lkid: u32) {
    let lock = lock(rt, store, lkid);
    unlink(store, lock);
}

fn put_back(rt: &impl Abort, store: &mut Store, key: &Key, queue: Queue, lkid: u32) {
    let res = resource(rt, store, key);
    let lock = loose_lock(rt, store, lkid);
    push_back(store, res, queue, lock);
}

#[test]
fn a_loose_lock_is_in_nobodys_way(rt: HostRuntime) -> Result<(), Fail> {
    let key = key(b"A")?;
    let mut store = Store::new(rt.alloc());
    fill(&rt, &mut store, &key)?;
    take_out(&rt, &mut store, 1);
    let res = resource(&rt, &store, &key);
    assert!(&rt; is_empty(&store, res, Queue::Granted));
    assert!(&rt; fits(&rt, &store, &key, Mode::Ex, None));
    put_back(&rt, &mut store, &key, Queue::Granted, 1);
    let res = resource(&rt, &store, &key);
    assert_eq!(&rt; head(&store, res, Queue::Granted), store.lock(1));
    assert!(&rt; !fits(&rt, &store, &key, Mode::Pr, None));
    Ok(())
}

// Takes the first waiting lock out.
fn pop(rt: &impl Abort, store: &mut Store, key: &Key) -> Option<LockAt> {
    let res = resource(rt, store, key);
    pop_front(store, res, Queue::Waiting)
}

#[test]
fn popped_locks_come_back_in_another_order(rt: HostRuntime) -> Result<(), Fail> {
    let key = key(b"A")?;
    let mut store = Store::new(rt.alloc());
    fill(&rt, &mut store, &key)?;
    assert_eq!(&rt; pop(&rt, &mut store, &key), store.lock(3));
    assert_eq!(&rt; pop(&rt, &mut store, &key), store.lock(4));
    assert!(&rt; pop(&rt, &mut store, &key).is_none());
    put_back(&rt, &mut store, &key, Queue::Waiting, 4);
    put_back(&rt, &mut store, &key, Queue::Waiting, 3);
    let res = resource(&rt, &store, &key);
    assert_eq!(&rt; head(&store, res, Queue::Waiting), store.lock(4));
    assert_eq!(&rt; next(&store, lock(&rt, &store, 4)), store.lock(3));
    Ok(())
}
