//! Worked runs: the posts and items of each node, the parts of the journal, and a thread for each list.

use crate::tests::lists::gates::{Closing, Following, Meeting, slow_gates};
use crate::tests::lists::steps::{
    are_answers, are_three_served, declaration, entries_of, is_answer, open_gates, report_of,
    searches, three_lists,
};
use std::sync::Arc;
use std::sync::atomic::{AtomicU64, Ordering};
use std::test::Fail;
use vlm_cluster::Report;
use vlm_words::conditions::Cond;
use vlm_words::steps::{Answer, Step};

// An empty list, a short one and a long one, in parts and in one.
#[test]
fn three_nodes(rt: HostRuntime) -> Result<(), Fail> {
    for (every, is_parted) in [(10, true), (1_000, false)] {
        let lists = three_lists(rt.alloc())?;
        let Some(report) = report_of(&rt, rt.alloc(), open_gates(rt.alloc(), 3)?, lists, every)
        else {
            assert!(&rt; false, "in parts of {every}");
            return Ok(());
        };
        assert!(&rt; are_three_served(&report, every), "in parts of {every}");
        assert!(&rt; report.parts.is_empty() != is_parted, "in parts of {every}");
    }
    Ok(())
}

// A node that departs by its own list is answered so from then on.
#[test]
fn a_node_departs_first(rt: HostRuntime) -> Result<(), Fail> {
    let mut list = Vec::new(rt.alloc());
    list.push(Step::Leave(1))?;
    list.push(declaration(1, 9))?;
    let mut lists = Vec::new(rt.alloc());
    lists.push(list)?;
    let report = report_of(&rt, rt.alloc(), open_gates(rt.alloc(), 1)?, lists, 1_000);
    assert!(&rt; report.is_some_and(|report| is_departure_first(&report)));
    Ok(())
}

// The only node gets one answer to its departure, and DEPARTED twice.
fn is_departure_first(report: &Report) -> bool {
    let conditions = [Cond::Normal, Cond::Departed, Cond::Departed];
    let [items] = report.items.as_slice() else {
        return false;
    };
    items.len() == 3
        && items.iter().zip(conditions).all(|(item, condition)| is_answer(
            item,
            Answer::Plain(condition),
        ))
}

// Where a gate stops, the rest of its list is not posted, but the departure is.
#[test]
fn a_gate_stops(rt: HostRuntime) -> Result<(), Fail> {
    let mut gates = Vec::new(rt.alloc());
    gates.push(Closing { at: 9 })?;
    gates.push(Closing { at: 1 })?;
    let report = report_of(&rt, rt.alloc(), gates, searches(rt.alloc(), 2, 2)?, 1_000);
    assert!(&rt;
        report.is_some_and(|report| {
            report.posted.as_slice() == [2, 1].as_slice()
                && is_told_of_search(&report)
                && entries_of(&report) == Some(5)
        })
    );
    Ok(())
}

// The second node gets the answers to one search and to its departure.
fn is_told_of_search(report: &Report) -> bool {
    let [_, items] = report.items.as_slice() else {
        return false;
    };
    are_answers(items, [Answer::Victim(None)].as_slice())
}

// Each gate waits for all others in the middle of its list.
#[test]
fn lists_run_beside_each_other(rt: HostRuntime) -> Result<(), Fail> {
    for nodes in [2u8, 8] {
        let arrived = Arc::new(rt.alloc(), AtomicU64::new(0))?;
        let mut gates = Vec::new(rt.alloc());
        for _ in 0..nodes {
            gates.push(Meeting {
                arrived: Arc::try_clone(&arrived)?,
                all: u64::from(nodes),
            })?;
        }
        let report = report_of(
            &rt,
            rt.alloc(),
            gates,
            searches(rt.alloc(), nodes, 2)?,
            1_000,
        );
        assert!(&rt;
            report.is_some_and(|report| report.posted.iter().all(|posted| *posted == 2)),
            "with {nodes} nodes"
        );
    }
    Ok(())
}

// A gate is asked again until it lets a post through, and hears each item.
#[test]
fn gates_are_asked_again(rt: HostRuntime) -> Result<(), Fail> {
    let (gates, all) = slow_gates(rt.alloc(), 2)?;
    let report = report_of(&rt, rt.alloc(), gates, searches(rt.alloc(), 2, 2)?, 1_000);
    assert!(&rt; report.is_some_and(|report| report.posted.as_slice() == [2, 2].as_slice()));
    for heard in all.iter() {
        assert!(&rt; heard.first.load(Ordering::SeqCst) == 3);
        assert!(&rt; heard.second.load(Ordering::SeqCst) == 3);
        assert!(&rt; heard.told() == 3);
    }
    Ok(())
}

// A worker stays until its departure is answered, and tells its gate of that while others are at work: one waits for
// it.
#[test]
fn a_worker_stays_for_its_departure(rt: HostRuntime) -> Result<(), Fail> {
    let told = Arc::new(rt.alloc(), AtomicU64::new(0))?;
    let mut gates = Vec::new(rt.alloc());
    for follows in [false, true] {
        gates.push(Following {
            told: Arc::try_clone(&told)?,
            follows,
        })?;
    }
    let mut lists = searches(rt.alloc(), 1, 0)?;
    let mut second = Vec::new(rt.alloc());
    second.push(Step::Search(2))?;
    lists.push(second)?;
    let report = report_of(&rt, rt.alloc(), gates, lists, 1_000);
    assert!(&rt; report.is_some_and(|report| report.posted.as_slice() == [0, 1].as_slice()));
    Ok(())
}
