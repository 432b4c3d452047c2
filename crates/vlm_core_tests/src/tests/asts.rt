//! The ASTs of a process: queued into room that is owed, and taken in their order.

use crate::tests::steps::{DECLARATION, P};
use std::alloc::{AllocError, Global};
use std::process::Abort;
use std::test::Fail;
use vlm_core::Core;
use vlm_records::AstQueue;
use vlm_words::asts::{Ast, AstKind};
use vlm_words::steps::{Answer, Step};

// The AST of a lock.
fn ast(lkid: u32) -> Ast {
    Ast {
        kind: AstKind::Completion,
        routine: 8,
        param: 5,
        lkid,
    }
}

// Owes an AST for each of these locks, and queues them.
fn queue_all(queue: &mut AstQueue, alloc: Global, lkids: &[u32]) -> Result<(), AllocError> {
    for lkid in lkids {
        queue.owe(alloc, 2)?;
        queue.forgive(1);
        queue.queue(ast(*lkid));
    }
    Ok(())
}

// Takes the AST of each of these locks, in this order.
fn take_all(rt: &impl Abort, queue: &mut AstQueue, lkids: &[u32]) {
    for lkid in lkids {
        assert!(rt; queue.take() == Some(ast(*lkid)));
    }
}

// More ASTs than there was room for at first, some taken before the others come.
#[test]
fn asts_are_taken_in_their_order(rt: HostRuntime) -> Result<(), Fail> {
    let mut queue = AstQueue::new();
    queue_all(&mut queue, rt.alloc(), &[1, 2, 3, 4, 5])?;
    take_all(&rt, &mut queue, &[1, 2, 3]);
    queue_all(&mut queue, rt.alloc(), &[6, 7, 8, 9, 10, 11, 12, 13, 14])?;
    assert!(&rt; queue.len() == 11);
    take_all(&rt, &mut queue, &[4, 5, 6, 7, 8, 9, 10, 11, 12, 13, 14]);
    assert!(&rt; queue.take().is_none());
    Ok(())
}

// A process to which nothing was queued.
#[test]
fn no_ast_is_pending(rt: HostRuntime) {
    let mut core = Core::new(rt.alloc());
    assert!(&rt; core.pending(P).is_none());
    assert!(&rt; core.declare(DECLARATION) == Answer::Process(P));
    assert!(&rt; core.pending(P) == Some(0));
    assert!(&rt; core.take(P) == Answer::Taken(None));
    assert!(&rt; core.step(Step::Take(P)) == Answer::Taken(None));
}
