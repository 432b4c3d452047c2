//! Eight nodes that contend for one resource.

use crate::tests::lists::steps::{
    declaration, entries_of, first_process, open_gates, report_of, request,
};
use std::alloc::{AllocError, Global};
use std::test::Fail;
use vlm_words::modes::Mode;
use vlm_words::steps::{Dequeue, Step, Which};

// How many times each node asks for the resource and gives it up.
const TIMES: usize = 5_000;

// A node's list: it asks for EX, and gives up the lock in its status block, granted or not.
fn list_of(alloc: Global, node: u8) -> Result<Vec<Step>, AllocError> {
    let pid = first_process(node);
    let mut list = Vec::new(alloc);
    list.push(declaration(node, 9))?;
    for _ in 0..TIMES {
        list.push(request(pid, Mode::Ex))?;
        list.push(Step::Deq(Dequeue {
            pid,
            lock: Which::Block(1),
            value: None,
            tail: None,
            flags: 0,
        }))?;
    }
    Ok(list)
}

#[test]
fn eight_nodes(rt: HostRuntime) -> Result<(), Fail> {
    let mut lists = Vec::new(rt.alloc());
    for node in 1..9u8 {
        lists.push(list_of(rt.alloc(), node)?)?;
    }
    let report = report_of(&rt, rt.alloc(), open_gates(rt.alloc(), 8)?, lists, 1_000);
    assert!(&rt; report.is_some_and(|report| entries_of(&report) == Some(80_016)));
    Ok(())
}
