//! The first process of a node that has an AST pending.

use crate::tests::steps::{DECLARATION, P, Q, request};
use std::process::Abort;
use std::test::Fail;
use vlm_core::Core;
use vlm_words::steps::{Answer, Declaration, NewRequest};

// The second process of node 1.
const LATER: u32 = 65_538;

// Declares P, the later process of its node, and Q.
fn declare_all(rt: &impl Abort, core: &mut Core) {
    let of_node_2 = Declaration {
        node: 2,
        ..DECLARATION
    };
    assert!(rt; core.declare(DECLARATION) == Answer::Process(P));
    assert!(rt; core.declare(DECLARATION) == Answer::Process(LATER));
    assert!(rt; core.declare(of_node_2) == Answer::Process(Q));
}

// A lock of the process on the root of this name, whose grant queues an AST.
fn grant(rt: &impl Abort, core: &mut Core, pid: u32, name: &[u8]) {
    let named = NewRequest {
        pid,
        ast: Some(8),
        ..request(name)
    };
    let answer = core.enq(named);
    assert!(rt; matches!(&answer, Answer::Lock(_, _)));
}

// Takes an AST of the process.
fn take(rt: &impl Abort, core: &mut Core, pid: u32) {
    let answer = core.take(pid);
    assert!(rt; matches!(&answer, Answer::Taken(Some(_))));
}

// A process is the first of its node until its last AST is taken.
#[test]
fn the_first_with_an_ast_is_told(rt: HostRuntime) -> Result<(), Fail> {
    let mut core = Core::new(rt.alloc());
    declare_all(&rt, &mut core);
    assert!(&rt; core.pending_of(1).is_none() && core.pending_of(2).is_none());
    grant(&rt, &mut core, LATER, b"A");
    assert!(&rt; core.pending_of(1) == Some(LATER) && core.pending_of(2).is_none());
    grant(&rt, &mut core, P, b"B");
    grant(&rt, &mut core, P, b"C");
    grant(&rt, &mut core, Q, b"D");
    assert!(&rt; core.pending_of(1) == Some(P) && core.pending_of(2) == Some(Q));
    take(&rt, &mut core, P);
    assert!(&rt; core.pending_of(1) == Some(P));
    take(&rt, &mut core, P);
    assert!(&rt; core.pending_of(1) == Some(LATER));
    take(&rt, &mut core, LATER);
    assert!(&rt; core.pending_of(1).is_none() && core.pending_of(2) == Some(Q));
    assert!(&rt; core.pending_of(0).is_none() && core.pending_of(9).is_none());
    Ok(())
}
