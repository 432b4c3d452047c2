//! Two nodes in one hand. What is refused for want of memory has changed nothing, and is tried once more.

use crate::Node::{First, Second};
use crate::tests::steps::{
    P, Q, SEARCH, SECOND_SEARCH, declaration, exclusive, give_up, is_answer, is_ast, quiet,
};
use crate::tests::watchers::{roots, shows};
use crate::{Node, Pair, WatchedHub};
use std::alloc::{AllocError, Global};
use std::process::Abort;
use std::sync::Wait;
use std::test::Fail;
use vlm_journal::entries::Item;
use vlm_ports::Turn;
use vlm_words::asts::AstKind;
use vlm_words::conditions::Cond;
use vlm_words::steps::{Answer, Step};

fn pair_of(alloc: Global) -> Result<Pair, AllocError> {
    match Pair::new(alloc) {
        Ok(pair) => Ok(pair),
        Err(AllocError) => Pair::new(alloc),
    }
}

// Has the hub make this many entries, in a second turn if the journal could not grow.
fn turn(rt: &impl Abort, pair: &mut Pair, entries: usize) {
    let wanted = pair.entries().saturating_add(entries);
    if let Turn::NoMemory(_) = pair.turn() {
        pair.turn();
    }
    assert!(rt; pair.entries() == wanted);
}

// Has a node's step made, and takes what comes.
fn ask(rt: &impl Abort, pair: &mut Pair, node: Node, step: Step) -> Option<Item> {
    assert!(rt; pair.post(node, step).is_ok());
    turn(rt, pair, 1);
    pair.take(node)
}

// Has a node's step made, and looks for its answer.
fn make(rt: &impl Abort, pair: &mut Pair, node: Node, step: &Step, want: Answer) {
    let first = ask(rt, pair, node, *step);
    if !is_answer(first, Answer::Plain(Cond::Insfmem)) {
        assert!(rt; is_answer(first, want));
        return;
    }
    let second = ask(rt, pair, node, *step);
    assert!(rt; is_answer(second, want));
}

// Has the hub make a turn in which each node has posted one step. A turn without `NoMemory` has served both. With it
// the turn says how many it served, and the next turn serves the others.
fn serve_both(rt: &impl Abort, pair: &mut Pair) {
    assert!(rt; pair.post(First, SEARCH).is_ok());
    assert!(rt; pair.post(Second, SECOND_SEARCH).is_ok());
    let before = pair.entries();
    let turn = pair.turn();
    let made = pair.entries().saturating_sub(before);
    if let Turn::NoMemory(told) = turn {
        assert!(rt; told == made && made < 2);
        assert!(rt; pair.turn() == Turn::Served(2usize.saturating_sub(made)));
    } else {
        assert!(rt; turn == Turn::Served(2) && made == 2);
    }
    assert!(rt; is_answer(pair.take(First), Answer::Victim(None)));
    assert!(rt; is_answer(pair.take(Second), Answer::Victim(None)));
}

// The journal grows after the first entry of a turn, too.
#[test]
fn a_turn_tells_of_want_of_memory(rt: HostRuntime) -> Result<(), Fail> {
    let mut pair = pair_of(rt.alloc())?;
    make(&rt, &mut pair, First, &SEARCH, Answer::Victim(None));
    for _ in 0..8 {
        serve_both(&rt, &mut pair);
    }
    pair.close();
    Ok(())
}

fn depart(pair: &mut Pair, node: Node) -> Result<Cond, AllocError> {
    match pair.lost(node) {
        Ok(condition) => Ok(condition),
        Err(AllocError) => pair.lost(node),
    }
}

// A lock that one node holds and the other waits for, until the first is lost.
#[test]
fn a_hub_goes_on_without_memory(rt: HostRuntime) -> Result<(), Fail> {
    let mut pair = pair_of(rt.alloc())?;
    make(&rt, &mut pair, First, &declaration(1), Answer::Process(P));
    make(&rt, &mut pair, Second, &declaration(2), Answer::Process(Q));
    make(
        &rt,
        &mut pair,
        First,
        &exclusive(P),
        Answer::Lock(Cond::Normal, 1),
    );
    turn(&rt, &mut pair, 1);
    assert!(&rt; is_ast(pair.take(First), P, AstKind::Completion));
    make(
        &rt,
        &mut pair,
        Second,
        &exclusive(Q),
        Answer::Lock(Cond::Normal, 2),
    );
    turn(&rt, &mut pair, 1);
    assert!(&rt; is_ast(pair.take(First), P, AstKind::Blocking));
    assert!(&rt; depart(&mut pair, First) == Ok(Cond::Normal));
    turn(&rt, &mut pair, 1);
    assert!(&rt; is_ast(pair.take(Second), Q, AstKind::Completion));
    assert!(&rt; pair.turn() == Turn::Idle);
    pair.close();
    Ok(())
}

// A watched hub; if the watch was refused, it is opened once more.
fn watched<R: Abort + AllocGlobal + Wait>(rt: &R) -> Result<WatchedHub, Fail> {
    match try_watched(rt) {
        Some(hub) => Ok(hub),
        None => match try_watched(rt) {
            Some(hub) => Ok(hub),
            None => Err(Fail::from("no watchers")),
        },
    }
}

fn try_watched<R: AllocGlobal + Wait>(rt: &R) -> Option<WatchedHub> {
    let keys = roots(rt.alloc(), 1).ok()?;
    if keys.is_empty() || 16 < keys.len() {
        return None;
    }
    WatchedHub::open(rt, rt.alloc(), keys, 8).ok()
}

// Has a step made: once more if its answer was INSFMEM, in one more turn if the journal could not grow.
fn make_watched(rt: &impl Abort, hub: &mut WatchedHub, step: &Step, want: Answer) {
    for _ in 0..2 {
        let item = match hub.make(*step) {
            None => hub.go_on(),
            item => item,
        };
        if is_answer(item, want) {
            return;
        }
        assert!(rt; is_answer(item, Answer::Plain(Cond::Insfmem)));
    }
    assert!(rt; false);
}

// Publishes, and once more if that was refused; a refused publish changes no watcher's row.
fn publish<R: Abort + Wait>(rt: &R, hub: &mut WatchedHub, before: u32, after: u32) {
    if hub.publish(rt).is_err() {
        assert!(rt; shows(hub.see(0, 0), before) && shows(hub.see(7, 0), before));
        assert!(rt; hub.publish(rt).is_ok());
    }
    for watcher in 0..8 {
        assert!(rt; shows(hub.see(watcher, 0), after));
    }
}

// Eight watchers see a lock come and go.
#[test]
fn a_watched_hub_goes_on_without_memory(rt: HostRuntime) -> Result<(), Fail> {
    let mut hub = watched(&rt)?;
    make_watched(&rt, &mut hub, &declaration(1), Answer::Process(P));
    publish(&rt, &mut hub, 0, 0);
    make_watched(&rt, &mut hub, &quiet(P), Answer::Lock(Cond::Normal, 1));
    publish(&rt, &mut hub, 0, 1);
    make_watched(&rt, &mut hub, &give_up(P, 1), Answer::Plain(Cond::Normal));
    publish(&rt, &mut hub, 1, 0);
    hub.close(&rt);
    Ok(())
}
