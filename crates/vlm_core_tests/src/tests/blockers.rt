//! The locks for which a queued request waits, and those whose requests wait for a lock.

use crate::tests::steps::{DECLARATION, P, Q, request};
use bitflags::Flags;
use std::process::Abort;
use std::test::Fail;
use vlm_core::Core;
use vlm_words::flags::EnqFlags;
use vlm_words::modes::Mode;
use vlm_words::resources::Queue;
use vlm_words::steps::{Answer, Conversion, Declaration, NewRequest, Which};

// Asks for a lock on the root A.
fn ask(rt: &impl Abort, core: &mut Core, pid: u32, mode: Mode, flags: u16) {
    let asked = NewRequest {
        pid,
        mode,
        flags,
        ..request(b"A")
    };
    let answer = core.enq(asked);
    assert!(rt; matches!(&answer, Answer::Lock(_, _)));
}

// Asks for EX of a granted lock.
fn convert(rt: &impl Abort, core: &mut Core, pid: u32, lkid: u32) {
    let conversion = Conversion {
        pid,
        lock: Which::Id(lkid),
        mode: Mode::Ex,
        block: 1,
        flags: 0,
        ast: None,
        bast: None,
        param: 0,
    };
    let answer = core.convert(conversion);
    assert!(rt; matches!(&answer, Answer::Lock(_, _)));
}

// The locks that the readers give for the request of a lock, and no more.
fn waits_for(rt: &impl Abort, core: &Core, lkid: u32, blockers: &[u32]) {
    let mut shown = core.first_blocker(lkid);
    for blocker in blockers {
        let Some(Some(view)) = shown else {
            panic!(rt; "a lock is missing");
        };
        assert!(rt; view.lkid == *blocker);
        shown = core.next_blocker(lkid, *blocker);
    }
    assert!(rt; matches!(&shown, Some(None)));
}

// The locks whose requests wait for a lock, and no more.
fn blocks(rt: &impl Abort, core: &Core, lkid: u32, blocked: &[u32]) {
    let mut shown = core.first_blocked(lkid);
    for lock in blocked {
        let Some(Some(view)) = shown else {
            panic!(rt; "a lock is missing");
        };
        assert!(rt; view.lkid == *lock);
        shown = core.next_blocked(lkid, *lock);
    }
    assert!(rt; matches!(&shown, Some(None)));
}

// P holds 1 (PR) and 3 (CR), Q holds 2 (PR, NODLCKBLK). Then 4 (EX), 5 (EX, NODLCKBLK), 6 (EX, NODLCKWT) and 7 (CR)
// wait. 8 is alone on another root.
fn ask_all(rt: &impl Abort, core: &mut Core) {
    let of_node_2 = Declaration {
        node: 2,
        ..DECLARATION
    };
    assert!(rt; core.declare(DECLARATION) == Answer::Process(P));
    assert!(rt; core.declare(of_node_2) == Answer::Process(Q));
    ask(rt, core, P, Mode::Pr, 0);
    ask(rt, core, Q, Mode::Pr, EnqFlags::NODLCKBLK.bits());
    ask(rt, core, P, Mode::Cr, 0);
    ask(rt, core, Q, Mode::Ex, 0);
    ask(rt, core, P, Mode::Ex, EnqFlags::NODLCKBLK.bits());
    ask(rt, core, Q, Mode::Ex, EnqFlags::NODLCKWT.bits());
    ask(rt, core, Q, Mode::Cr, 0);
    let answer = core.enq(request(b"B"));
    assert!(rt; matches!(&answer, Answer::Lock(_, 8)));
}

// A waiting request waits for incompatible held modes, and for the requests before it.
#[test]
fn waiting_requests_wait_in_order(rt: HostRuntime) -> Result<(), Fail> {
    let mut core = Core::new(rt.alloc());
    ask_all(&rt, &mut core);
    waits_for(&rt, &core, 4, &[1, 3]);
    waits_for(&rt, &core, 5, &[1, 3, 4]);
    waits_for(&rt, &core, 6, &[]);
    waits_for(&rt, &core, 7, &[4, 6]);
    waits_for(&rt, &core, 1, &[]);
    Ok(())
}

// A conversion waits for no waiting request, and each waiting request waits for it.
#[test]
fn conversions_go_first(rt: HostRuntime) -> Result<(), Fail> {
    let mut core = Core::new(rt.alloc());
    ask_all(&rt, &mut core);
    convert(&rt, &mut core, P, 3);
    waits_for(&rt, &core, 3, &[1]);
    waits_for(&rt, &core, 4, &[1, 3]);
    waits_for(&rt, &core, 7, &[3, 4, 6]);
    convert(&rt, &mut core, Q, 2);
    waits_for(&rt, &core, 2, &[1, 3]);
    waits_for(&rt, &core, 3, &[1]);
    convert(&rt, &mut core, P, 1);
    waits_for(&rt, &core, 3, &[1]);
    waits_for(&rt, &core, 1, &[3, 2]);
    waits_for(&rt, &core, 7, &[3, 2, 1, 4, 6]);
    Ok(())
}

// A lock shows the requests that have it among their blockers, in the order of the queues.
#[test]
fn a_lock_shows_whom_it_blocks(rt: HostRuntime) -> Result<(), Fail> {
    let mut core = Core::new(rt.alloc());
    ask_all(&rt, &mut core);
    blocks(&rt, &core, 1, &[4, 5]);
    blocks(&rt, &core, 2, &[]);
    blocks(&rt, &core, 4, &[5, 7]);
    blocks(&rt, &core, 5, &[]);
    blocks(&rt, &core, 7, &[]);
    convert(&rt, &mut core, P, 3);
    convert(&rt, &mut core, Q, 2);
    blocks(&rt, &core, 1, &[3, 2, 4, 5]);
    blocks(&rt, &core, 3, &[2, 4, 5, 7]);
    assert!(&rt; core.first_blocked(9).is_none() && core.next_blocked(9, 1).is_none());
    assert!(&rt; core.next_blocked(1, 9).is_none() && core.next_blocked(1, 8).is_none());
    Ok(())
}

// A lock is shown with its place; the next one is looked for after any lock of the resource, and after no other.
#[test]
fn a_walk_begins_at_any_lock(rt: HostRuntime) -> Result<(), Fail> {
    let mut core = Core::new(rt.alloc());
    ask_all(&rt, &mut core);
    convert(&rt, &mut core, P, 3);
    let Some(Some(view)) = core.next_blocker(7, 2) else {
        panic!(&rt; "a lock is missing");
    };
    assert!(&rt; view.lkid == 3 && view.pid == P && view.queue == Queue::Conversion);
    assert!(&rt; matches!(&view.held, Some(Mode::Cr)) && matches!(&view.want, Some(Mode::Ex)));
    let after_5 = core.next_blocker(7, 5);
    assert!(&rt; matches!(&after_5, Some(Some(view)) if view.lkid == 6));
    let after_itself = core.next_blocker(7, 7);
    assert!(&rt; matches!(&after_itself, Some(None)));
    assert!(&rt; core.first_blocker(9).is_none() && core.next_blocker(9, 1).is_none());
    assert!(&rt; core.next_blocker(7, 9).is_none() && core.next_blocker(7, 8).is_none());
    Ok(())
}
