//! The core's refusals in their order, and its answers where memory is ample.

use crate::tests::steps::{DECLARATION, P, Q, request};
use std::process::Abort;
use vlm_core::Core;
use vlm_words::conditions::Cond;
use vlm_words::modes::Mode;
use vlm_words::resources::Queue;
use vlm_words::steps::{
    Answer, Conversion, Declaration, Dequeue, NewRequest, Step, ValueSetting, Which,
};

const NOQUEUE: u16 = 2;

const SYSTEM: u16 = 8;

const EXPEDITE: u16 = 16;

const QUECVT: u16 = 32;

const CANCEL: u16 = 2;

const DEQALL: u16 = 1;

// No flag has this bit.
const UNKNOWN: u16 = 512;

// Nobody has it.
const STRANGER: u32 = 65_538;

const DEQUEUE: Dequeue = Dequeue {
    pid: P,
    lock: Which::Id(1),
    value: None,
    tail: None,
    flags: 0,
};

// A machine in which P holds EX on A as lock 1, and Q waits for it as lock 2.
fn machine<R: Abort + AllocGlobal>(rt: &R) -> Core {
    let mut core = Core::new(rt.alloc());
    let steps = [
        (Step::Declare(DECLARATION), Answer::Process(P)),
        (
            Step::Declare(Declaration {
                node: 2,
                ..DECLARATION
            }),
            Answer::Process(Q),
        ),
        (Step::Enq(request(b"A")), Answer::Lock(Cond::Normal, 1)),
        (
            Step::Enq(NewRequest {
                pid: Q,
                ..request(b"A")
            }),
            Answer::Lock(Cond::Normal, 2),
        ),
    ];
    for (step, want) in steps {
        assert!(rt; core.step(step) == want);
    }
    core
}

// Each step is refused by its condition.
fn check<R: Abort + AllocGlobal>(rt: &R, cases: &[(Step, Cond)]) {
    let mut core = machine(rt);
    refuses(rt, &mut core, cases);
}

fn refuses<R: Abort>(rt: &R, core: &mut Core, cases: &[(Step, Cond)]) {
    for (number, (step, want)) in cases.iter().copied().enumerate() {
        assert!(rt; core.step(step) == Answer::Plain(want), "case {number}");
    }
}

// Q waits for P, which is no deadlock. A second request of Q waits for the first, and ends.
#[test]
fn searches(rt: HostRuntime) {
    let mut core = machine(&rt);
    assert!(rt; core.search(1) == Answer::Victim(None));
    let behind = NewRequest {
        pid: Q,
        ..request(b"A")
    };
    assert!(rt; core.enq(behind) == Answer::Lock(Cond::Normal, 3));
    assert!(rt; core.search(2) == Answer::Victim(Some(3)));
    assert!(rt; core.search(2) == Answer::Victim(None));
    assert!(rt; core.row_at(0, Queue::Waiting, 1).is_none());
}

// With ample memory each step is made: the waiting lock is granted once the other is gone.
#[test]
fn accepted(rt: HostRuntime) {
    let mut core = machine(&rt);
    assert!(rt; core.declare(DECLARATION) == Answer::Process(STRANGER));
    assert!(rt; core.enq(request(b"B")) == Answer::Lock(Cond::Normal, 3));
    assert!(rt; core.deq(DEQUEUE) == Answer::Plain(Cond::Normal));
    assert!(rt; core.resource_count() == 2);
}

// A request without a name, for a status block of this number. That it names routines is no fault.
fn nameless(block: u8) -> NewRequest {
    NewRequest {
        block,
        ast: Some(8),
        bast: Some(9),
        ..request(b"")
    }
}

// The refusals of requests are, in their order, NONEXPR, BADPARAM, ACCVIO, IVBUFLEN, UNSUPPORTED, IVLOCKID,
// PARNOTGRANT, NOSYSLCK, NOTQUEUED. Each request breaks the rules of later ones too.
#[test]
fn malformed_requests(rt: HostRuntime) {
    let cases = [
        (
            NewRequest {
                pid: STRANGER,
                flags: UNKNOWN,
                ..nameless(0)
            },
            Cond::Nonexpr,
        ),
        (
            NewRequest {
                flags: UNKNOWN,
                ..nameless(0)
            },
            Cond::Badparam,
        ),
        (nameless(0), Cond::Accvio),
        (nameless(5), Cond::Accvio),
        (
            NewRequest {
                parent: Which::Block(5),
                ..nameless(1)
            },
            Cond::Accvio,
        ),
        (nameless(4), Cond::Ivbuflen),
        (request(&[b'B'; 32]), Cond::Ivbuflen),
    ];
    check(
        &rt,
        &cases.map(|(request, want)| (Step::Enq(request), want)),
    );
}

#[test]
fn requests_below_a_lock(rt: HostRuntime) {
    let cases = [
        (
            NewRequest {
                parent: Which::Id(2),
                flags: EXPEDITE | NOQUEUE,
                ..request(b"A")
            },
            Cond::Unsupported,
        ),
        (
            NewRequest {
                parent: Which::Id(2),
                ..request(b"A")
            },
            Cond::Ivlockid,
        ),
        (
            NewRequest {
                pid: Q,
                parent: Which::Id(2),
                ..request(b"A")
            },
            Cond::Parnotgrant,
        ),
    ];
    check(
        &rt,
        &cases.map(|(request, want)| (Step::Enq(request), want)),
    );
}

#[test]
fn requests_that_may_not_wait(rt: HostRuntime) {
    let cases = [
        (
            NewRequest {
                flags: SYSTEM | NOQUEUE,
                ..request(b"A")
            },
            Cond::Nosyslck,
        ),
        (
            NewRequest {
                flags: NOQUEUE,
                ..request(b"A")
            },
            Cond::Notqueued,
        ),
    ];
    check(
        &rt,
        &cases.map(|(request, want)| (Step::Enq(request), want)),
    );
}

// A dequeue by P.
fn of(lock: Which) -> Dequeue {
    Dequeue { lock, ..DEQUEUE }
}

// The refusals of dequeues are, in their order, NONEXPR, BADPARAM, ACCVIO, IVLOCKID, CANCELGRANT. Each dequeue breaks
// the rules of the later ones too.
#[test]
fn malformed_dequeues(rt: HostRuntime) {
    let late = of(Which::Id(3));
    let cases = [
        (
            Dequeue {
                pid: STRANGER,
                flags: UNKNOWN,
                ..late
            },
            Cond::Nonexpr,
        ),
        (
            Dequeue {
                flags: UNKNOWN,
                ..late
            },
            Cond::Badparam,
        ),
        (
            Dequeue {
                tail: Some([7; 48]),
                ..of(Which::Block(0))
            },
            Cond::Badparam,
        ),
        (of(Which::Block(0)), Cond::Accvio),
        (of(Which::Block(5)), Cond::Accvio),
    ];
    check(
        &rt,
        &cases.map(|(dequeue, want)| (Step::Deq(dequeue), want)),
    );
}

#[test]
fn dequeues_of_the_wrong_lock(rt: HostRuntime) {
    let cases = [
        (of(Which::Id(3)), Cond::Ivlockid),
        (of(Which::Block(2)), Cond::Ivlockid),
        (of(Which::Id(0)), Cond::Ivlockid),
        (
            Dequeue {
                flags: CANCEL,
                ..of(Which::Id(2))
            },
            Cond::Ivlockid,
        ),
        (
            Dequeue {
                flags: CANCEL,
                ..DEQUEUE
            },
            Cond::Cancelgrant,
        ),
    ];
    check(
        &rt,
        &cases.map(|(dequeue, want)| (Step::Deq(dequeue), want)),
    );
}

// A dequeue of all locks below one.
fn all_below(lock: Which) -> Dequeue {
    Dequeue {
        flags: DEQALL,
        ..of(lock)
    }
}

// BADPARAM, ACCVIO, IVLOCKID. With 0 no lock is named, and where none is below the named one none goes.
#[test]
fn dequeues_of_all(rt: HostRuntime) {
    let late = all_below(Which::Block(5));
    let cases = [
        (
            Dequeue {
                flags: DEQALL + CANCEL,
                ..late
            },
            Cond::Badparam,
        ),
        (
            Dequeue {
                value: Some([7; 16]),
                ..late
            },
            Cond::Badparam,
        ),
        (late, Cond::Accvio),
        (all_below(Which::Id(2)), Cond::Ivlockid),
        (all_below(Which::Id(1)), Cond::Normal),
        (all_below(Which::Id(0)), Cond::Normal),
        (DEQUEUE, Cond::Ivlockid),
    ];
    check(
        &rt,
        &cases.map(|(dequeue, want)| (Step::Deq(dequeue), want)),
    );
}

// It breaks several rules. That it names routines is no fault.
const LATE: Conversion = Conversion {
    pid: P,
    lock: Which::Id(2),
    mode: Mode::Cr,
    block: 0,
    flags: QUECVT,
    ast: Some(8),
    bast: Some(9),
    param: 5,
};

// NONEXPR, BADPARAM, ACCVIO, IVLOCKID, CVTUNGRANT, BADPARAM. Each conversion breaks the rules of the later ones too.
#[test]
fn conversions(rt: HostRuntime) {
    let foreign = Conversion { block: 1, ..LATE };
    let cases = [
        (
            Conversion {
                pid: STRANGER,
                flags: UNKNOWN,
                ..LATE
            },
            Cond::Nonexpr,
        ),
        (
            Conversion {
                flags: UNKNOWN,
                ..LATE
            },
            Cond::Badparam,
        ),
        (LATE, Cond::Accvio),
        (Conversion { block: 5, ..LATE }, Cond::Accvio),
        (
            Conversion {
                lock: Which::Block(5),
                ..foreign
            },
            Cond::Accvio,
        ),
        (foreign, Cond::Ivlockid),
        (Conversion { pid: Q, ..foreign }, Cond::Cvtungrant),
        (
            Conversion {
                lock: Which::Id(1),
                ..foreign
            },
            Cond::Badparam,
        ),
    ];
    check(
        &rt,
        &cases.map(|(conversion, want)| (Step::Convert(conversion), want)),
    );
}

// A value block to write.
const SETTING: ValueSetting = ValueSetting {
    pid: P,
    block: 4,
    value: [7; 16],
    tail: Some([7; 48]),
};

// NONEXPR, ACCVIO.
#[test]
fn settings(rt: HostRuntime) {
    let cases = [
        (
            ValueSetting {
                pid: STRANGER,
                block: 0,
                ..SETTING
            },
            Cond::Nonexpr,
        ),
        (
            ValueSetting {
                block: 0,
                ..SETTING
            },
            Cond::Accvio,
        ),
        (
            ValueSetting {
                block: 5,
                ..SETTING
            },
            Cond::Accvio,
        ),
        (SETTING, Cond::Normal),
    ];
    check(
        &rt,
        &cases.map(|(setting, want)| (Step::SetValue(setting), want)),
    );
}

// NONEXPR.
#[test]
fn takes(rt: HostRuntime) {
    check(&rt, &[(Step::Take(STRANGER), Cond::Nonexpr)]);
}

// NONEXPR for a process that nobody declared, BADPARAM for a node that is none. Once P has ended and its node has
// departed, DEPARTED comes before NONEXPR, and the lock that waited is granted.
#[test]
fn endings(rt: HostRuntime) {
    let mut core = machine(&rt);
    refuses(
        &rt,
        &mut core,
        &[
            (Step::Rundown(STRANGER), Cond::Nonexpr),
            (Step::Leave(0), Cond::Badparam),
            (Step::Leave(9), Cond::Badparam),
            (Step::Search(0), Cond::Badparam),
            (Step::Search(9), Cond::Badparam),
        ],
    );
    assert!(rt; core.rundown(P) == Answer::Plain(Cond::Normal));
    refuses(&rt, &mut core, &[(Step::Rundown(P), Cond::Nonexpr)]);
    assert!(rt; core.leave(1) == Answer::Plain(Cond::Normal));
    refuses(
        &rt,
        &mut core,
        &[
            (Step::Rundown(P), Cond::Departed),
            (Step::Leave(1), Cond::Departed),
            (Step::Search(1), Cond::Departed),
            (Step::Declare(DECLARATION), Cond::Departed),
        ],
    );
    assert!(rt;
        core.row_at(0, Queue::Granted, 0)
            .is_some_and(|row| row.lkid == 2)
    );
}
