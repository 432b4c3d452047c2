//! Steps whose requests name routines. Where memory was refused a step has changed nothing, and is made again.

use crate::tests::steps::{DECLARATION, P, Q, request};
use std::process::Abort;
use vlm_core::Core;
use vlm_words::asts::{Ast, AstKind};
use vlm_words::blocks::Block;
use vlm_words::conditions::Cond;
use vlm_words::modes::Mode;
use vlm_words::steps::{Answer, Conversion, Declaration, Dequeue, NewRequest, Step, Which};

const CANCEL: u16 = 2;

const SYNCSTS: u16 = 4;

const COMPLETION: u32 = 8;

const BLOCKING: u32 = 9;

// Whether a step may want memory: a declaration, a new request, and a conversion that names a routine.
fn may_want_memory(step: &Step) -> bool {
    match step {
        Step::Declare(_) | Step::Enq(_) => true,
        Step::Convert(conversion) => conversion.ast.is_some() || conversion.bast.is_some(),
        _ => false,
    }
}

// The pending ASTs of a process, and its first status block.
fn told(core: &Core, pid: u32) -> (Option<usize>, Option<Block>) {
    (core.pending(pid), core.block(pid, 1))
}

// Makes a step. Where memory was refused once nothing is changed, and it is made again.
fn make(rt: &impl Abort, core: &mut Core, step: Step, want: Answer) {
    let before = (core.resource_count(), told(core, P), told(core, Q));
    let mut answer = core.step(step);
    if answer == Answer::Plain(Cond::Insfmem) {
        assert!(rt; may_want_memory(&step));
        assert!(rt; (core.resource_count(), told(core, P), told(core, Q)) == before);
        answer = core.step(step);
    }
    assert!(rt; answer == want);
}

// Asks for a mode on A, with both routines.
fn asked(pid: u32, mode: Mode, flags: u16) -> Step {
    Step::Enq(NewRequest {
        pid,
        mode,
        flags,
        ast: Some(COMPLETION),
        bast: Some(BLOCKING),
        param: 1,
        ..request(b"A")
    })
}

// P asks for another mode of its lock, with both routines.
fn converted(mode: Mode, flags: u16) -> Step {
    Step::Convert(Conversion {
        pid: P,
        lock: Which::Id(1),
        mode,
        block: 1,
        flags,
        ast: Some(COMPLETION),
        bast: Some(BLOCKING),
        param: 2,
    })
}

// P asks for NL of its lock, without a routine.
const WEAKENED: Step = Step::Convert(Conversion {
    pid: P,
    lock: Which::Id(1),
    mode: Mode::Nl,
    block: 1,
    flags: 0,
    ast: None,
    bast: None,
    param: 3,
});

fn given_up(pid: u32, lkid: u32, flags: u16) -> Step {
    Step::Deq(Dequeue {
        pid,
        lock: Which::Id(lkid),
        value: None,
        tail: None,
        flags,
    })
}

fn taken(kind: AstKind, param: u32, lkid: u32) -> Answer {
    let routine = match kind {
        AstKind::Completion => COMPLETION,
        AstKind::Blocking => BLOCKING,
    };
    Answer::Taken(Some(Ast {
        kind,
        routine,
        param,
        lkid,
    }))
}

// P holds PR as lock 1 and Q waits for EX as lock 2. Then come conversions at once, a grant from the queue, an abort, a
// cancel, and a grant under SYNCSTS.
#[test]
fn steps_with_routines_are_made_again(rt: HostRuntime) {
    let other = Declaration {
        node: 2,
        ..DECLARATION
    };
    let steps = [
        (Step::Declare(DECLARATION), Answer::Process(P)),
        (Step::Declare(other), Answer::Process(Q)),
        (asked(P, Mode::Pr, 0), Answer::Lock(Cond::Normal, 1)),
        (asked(Q, Mode::Ex, 0), Answer::Lock(Cond::Normal, 2)),
        (Step::Take(P), taken(AstKind::Completion, 1, 1)),
        (Step::Take(P), taken(AstKind::Blocking, 1, 1)),
        (Step::Take(P), Answer::Taken(None)),
        (converted(Mode::Cr, 0), Answer::Lock(Cond::Normal, 1)),
        (Step::Take(P), taken(AstKind::Completion, 2, 1)),
        (Step::Take(P), taken(AstKind::Blocking, 2, 1)),
        (WEAKENED, Answer::Lock(Cond::Normal, 1)),
        (Step::Take(Q), taken(AstKind::Completion, 1, 2)),
        (converted(Mode::Ex, 0), Answer::Lock(Cond::Normal, 1)),
        (Step::Take(Q), taken(AstKind::Blocking, 1, 2)),
        (given_up(P, 1, CANCEL), Answer::Plain(Cond::Normal)),
        (Step::Take(P), taken(AstKind::Completion, 2, 1)),
        (asked(P, Mode::Ex, 0), Answer::Lock(Cond::Normal, 3)),
        (given_up(P, 3, 0), Answer::Plain(Cond::Normal)),
        (Step::Take(P), taken(AstKind::Completion, 1, 3)),
        (given_up(Q, 2, 0), Answer::Plain(Cond::Normal)),
        (asked(Q, Mode::Ex, SYNCSTS), Answer::Lock(Cond::Synch, 4)),
        (Step::Take(Q), Answer::Taken(None)),
        (Step::Take(P), Answer::Taken(None)),
    ];
    let mut core = Core::new(rt.alloc());
    for (step, want) in steps {
        make(&rt, &mut core, step, want);
    }
}
