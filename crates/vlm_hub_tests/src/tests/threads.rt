//! Two ports in threads of their own, beside the hub in the test's.

use crate::Node::{First, Second};
use crate::Pair;
use std::process::Abort;
use std::test::Fail;
use vlm_ports::Turn;

// Each post is answered once, in whichever way the threads run, and nothing is left on a ring.
#[test]
fn ports_in_threads(rt: HostRuntime) -> Result<(), Fail> {
    let mut pair = Pair::new(rt.alloc())?.search_in_threads(&rt, 1_000)?;
    assert!(&rt; pair.turn() == Turn::Idle);
    assert!(&rt; pair.entries() == 2_000);
    for node in [First, Second] {
        let settled = pair.settle(node);
        assert!(&rt; settled.steps == 0 && settled.items == 0);
    }
    pair.close();
    Ok(())
}
