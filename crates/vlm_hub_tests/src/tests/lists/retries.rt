//! Nodes whose lists are served. Where memory is refused, all is given back, and they are served once more.

use crate::serve;
use crate::tests::lists::gates::{Heard, slow_gates};
use crate::tests::lists::steps::{are_three_served, open_gates, report_of, searches, three_lists};
use std::alloc::{AllocError, Global};
use std::sync::{Arc, Wait};
use std::test::Fail;
use std::thread::Threads;
use std::time::Clock;
use vlm_cluster::{Fault, Report};

// Serves the lists. Says whether each was posted whole and answered as if memory had no end.
fn are_served<R: Threads + Wait + Clock + Copy + Send + 'static>(
    rt: &R,
    alloc: Global,
) -> Result<bool, AllocError> {
    let lists = three_lists(alloc)?;
    let gates = open_gates(alloc, 3)?;
    let report = report_of(rt, alloc, gates, lists, 50);
    Ok(report.is_some_and(|report| are_three_served(&report, 50)))
}

#[test]
fn lists_are_served_without_memory(rt: HostRuntime) -> Result<(), Fail> {
    let first = are_served(&rt, rt.alloc());
    if first.is_ok_and(|served| served) {
        return Ok(());
    }
    assert!(&rt; are_served(&rt, rt.alloc())?);
    Ok(())
}

// The gate let each post through only when asked the third time, and heard no item that did not come.
fn is_as_heard(heard: &Heard, posted: usize, items: usize) -> bool {
    let asked = heard.asked();
    (posted as u64).saturating_mul(3) <= asked
        && heard.told() <= items as u64
        && (asked > 0 || items == 0)
}

// What a report says of each worker is as its gate heard.
fn are_as_heard(report: &Report, all: &[Arc<Heard>]) -> bool {
    let workers = report.posted.iter().zip(report.items.iter());
    workers.zip(all).all(|((posted, items), heard)| is_as_heard(heard, *posted, items.len()))
}

// Serves two lists by gates that count what they hear. Says whether the outcome is as they heard: without a report no
// worker was started, so no gate was asked and none heard an item.
fn is_told_truly<R: Threads + Wait + Clock + Copy + Send + 'static>(
    rt: &R,
    alloc: Global,
) -> Result<bool, AllocError> {
    let (gates, all) = slow_gates(alloc, 2)?;
    let report = match serve(rt, alloc, gates, searches(alloc, 2, 2)?, 1_000) {
        Some(Ok(report)) => Some(report),
        Some(Err(Fault::Memory(report))) => report,
        None => return Ok(false),
    };
    Ok(match report {
        Some(report) => are_as_heard(&report, all.as_slice()),
        None => all
            .iter()
            .all(|heard| heard.asked() == 0 && heard.told() == 0),
    })
}

#[test]
fn a_report_is_as_gates_heard(rt: HostRuntime) -> Result<(), Fail> {
    match is_told_truly(&rt, rt.alloc()) {
        Ok(told) => assert!(&rt; told),
        Err(AllocError) => assert!(&rt; is_told_truly(&rt, rt.alloc())?),
    }
    Ok(())
}
