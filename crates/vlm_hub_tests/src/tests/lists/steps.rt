//! Lists that the tests serve, and what they look for.

use crate::serve;
use std::alloc::{AllocError, Global};
use std::sync::Wait;
use std::thread::Threads;
use std::time::Clock;
use vlm_cluster::{Gate, OpenGate, Report};
use vlm_journal::entries::Item;
use vlm_words::conditions::Cond;
use vlm_words::modes::Mode;
use vlm_words::names::NameArg;
use vlm_words::steps::{Answer, Declaration, NewRequest, Step, Which};

// The first process of a node.
pub fn first_process(node: u8) -> u32 {
    u32::from(node) * 65_536 + 1
}

pub fn declaration(node: u8, quota: u16) -> Step {
    Step::Declare(Declaration {
        node,
        group: 1,
        syslck: false,
        quota,
        blocks: 1,
    })
}

// A request on one name, without routines.
pub fn request(pid: u32, mode: Mode) -> Step {
    Step::Enq(NewRequest {
        pid,
        mode,
        name: NameArg::of(b"A"),
        block: 1,
        parent: Which::Id(0),
        flags: 0,
        ast: None,
        bast: None,
        param: 0,
    })
}

// An empty list, one with a declaration, and one with a declaration and 199 requests.
pub fn three_lists(alloc: Global) -> Result<Vec<Vec<Step>>, AllocError> {
    let mut second = Vec::new(alloc);
    second.push(declaration(2, 9))?;
    let mut third = Vec::new(alloc);
    third.push(declaration(3, 200))?;
    for _ in 0..199 {
        third.push(request(first_process(3), Mode::Nl))?;
    }
    let mut lists = Vec::new(alloc);
    lists.push(Vec::new(alloc))?;
    lists.push(second)?;
    lists.push(third)?;
    Ok(lists)
}

// For each node a list of this many searches.
pub fn searches(alloc: Global, nodes: u8, count: usize) -> Result<Vec<Vec<Step>>, AllocError> {
    let mut lists = Vec::new(alloc);
    for at in 0..nodes {
        let mut list = Vec::new(alloc);
        for _ in 0..count {
            list.push(Step::Search(at.wrapping_add(1)))?;
        }
        lists.push(list)?;
    }
    Ok(lists)
}

// This many open gates.
pub fn open_gates(alloc: Global, count: usize) -> Result<Vec<OpenGate>, AllocError> {
    let mut gates = Vec::new(alloc);
    for _ in 0..count {
        gates.push(OpenGate)?;
    }
    Ok(gates)
}

// The report of lists that are served to their end.
pub fn report_of<R: Threads + Wait + Clock + Copy + Send + 'static, G: Gate + Send + 'static>(
    rt: &R,
    alloc: Global,
    gates: Vec<G>,
    lists: Vec<Vec<Step>>,
    every: usize,
) -> Option<Report> {
    serve(rt, alloc, gates, lists, every)?.ok()
}

// How many entries a journal has, if the base of each part says how many come before it.
pub fn entries_of(report: &Report) -> Option<u64> {
    let mut before = 0u64;
    for part in report.parts.iter() {
        if part.base != before {
            return None;
        }
        before = before.wrapping_add(part.entries.len() as u64);
    }
    if report.rest.base != before {
        return None;
    }
    Some(before.wrapping_add(report.rest.entries.len() as u64))
}

// The items are these answers, in order, and then NORMAL.
pub fn are_answers(items: &[Item], answers: &[Answer]) -> bool {
    let Some((last, before)) = items.split_last() else {
        return false;
    };
    is_answer(last, Answer::Plain(Cond::Normal))
        && before.len() == answers.len()
        && before
            .iter()
            .zip(answers)
            .all(|(item, answer)| is_answer(item, *answer))
}

// The item is this answer.
pub fn is_answer(item: &Item, answer: Answer) -> bool {
    match item {
        Item::Answer(told) => *told == answer,
        Item::Ast(_, _) => false,
    }
}

// The node with 199 requests is told its process, and then its locks.
fn are_locks(items: &[Item]) -> bool {
    let [first, locks @ .., last] = items else {
        return false;
    };
    is_answer(first, Answer::Process(first_process(3)))
        && is_answer(last, Answer::Plain(Cond::Normal))
        && locks.len() == 199
        && locks.iter().enumerate().all(|(at, item)| is_answer(
            item,
            Answer::Lock(Cond::Normal, at as u32 + 1),
        ))
}

// Three lists were served whole, in parts of at least this many entries.
pub fn are_three_served(report: &Report, every: usize) -> bool {
    let [first, second, third] = report.items.as_slice() else {
        return false;
    };
    entries_of(report) == Some(204)
        && report.parts.iter().all(|part| part.entries.len() >= every)
        && report.posted.as_slice() == [0, 1, 200].as_slice()
        && are_answers(first, [].as_slice())
        && are_answers(second, [Answer::Process(first_process(2))].as_slice())
        && are_locks(third)
}
