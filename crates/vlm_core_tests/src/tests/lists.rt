//! A list of steps, with its answers.

use crate::tests::steps::{DECLARATION, P, Q, request};
use std::alloc::{AllocError, Global};
use std::process::Abort;
use vlm_core::{Core, run_steps};
use vlm_words::conditions::Cond;
use vlm_words::modes::Mode;
use vlm_words::steps::{Answer, Conversion, Declaration, Dequeue, NewRequest, Step, Which};

const NOQUEUE: u16 = 2;

// Has room for one lock.
const NARROW: Declaration = Declaration {
    quota: 1,
    blocks: 1,
    ..DECLARATION
};

fn declared(node: u8) -> Step {
    Step::Declare(Declaration {
        node,
        ..DECLARATION
    })
}

fn asked(pid: u32) -> Step {
    Step::Enq(NewRequest {
        pid,
        mode: Mode::Pr,
        ..request(b"A")
    })
}

fn converted(mode: Mode) -> Step {
    Step::Convert(Conversion {
        pid: P,
        lock: Which::Id(1),
        mode,
        block: 1,
        flags: NOQUEUE,
        ast: None,
        bast: None,
        param: 0,
    })
}

fn given_up(lkid: u32) -> Step {
    Step::Deq(Dequeue {
        pid: P,
        lock: Which::Id(lkid),
        value: None,
        tail: None,
        flags: 0,
    })
}

// A new core makes the steps, and answers this.
fn check(rt: &impl Abort, alloc: Global, steps: &[Step], want: &[Answer]) {
    let mut core = Core::new(alloc);
    let mut answers = Vec::new(alloc);
    assert!(rt; run_steps(&mut core, steps, &mut answers).is_ok());
    assert!(rt; answers.as_slice() == want);
}

// A conversion that must not queue is refused beside another PR, and granted to CR.
#[test]
fn conversions_that_must_not_queue(rt: HostRuntime) {
    let steps = [
        declared(1),
        declared(2),
        asked(P),
        asked(Q),
        converted(Mode::Ex),
        converted(Mode::Cr),
    ];
    let want = [
        Answer::Process(P),
        Answer::Process(Q),
        Answer::Lock(Cond::Normal, 1),
        Answer::Lock(Cond::Normal, 2),
        Answer::Plain(Cond::Notqueued),
        Answer::Lock(Cond::Normal, 1),
    ];
    check(&rt, rt.alloc(), &steps, &want);
}

// A declaration, and 500 locks, each asked for and given up, with their answers.
fn put_steps(steps: &mut Vec<Step>, want: &mut Vec<Answer>) -> Result<(), AllocError> {
    steps.push(Step::Declare(NARROW))?;
    want.push(Answer::Process(P))?;
    for lkid in 1..=500 {
        steps.push(Step::Enq(request(b"A")))?;
        want.push(Answer::Lock(Cond::Normal, lkid))?;
        steps.push(given_up(lkid))?;
        want.push(Answer::Plain(Cond::Normal))?;
    }
    Ok(())
}

// A list of 1,001 steps.
#[test]
fn many_steps(rt: HostRuntime) {
    let mut steps = Vec::new(rt.alloc());
    let mut want = Vec::new(rt.alloc());
    assert!(&rt; put_steps(&mut steps, &mut want).is_ok());
    check(&rt, rt.alloc(), &steps, &want);
}
