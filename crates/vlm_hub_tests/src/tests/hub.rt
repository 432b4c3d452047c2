//! One node or two in one hand: worked turns, full rings, a greedy node, a lost node, and parts of a journal.

use crate::Node::{First, Second};
use crate::tests::steps::{P, Q, SEARCH, SECOND_SEARCH, declaration, exclusive, is_answer, is_ast};
use crate::{Node, Pair, Single};
use std::process::Abort;
use std::test::Fail;
use vlm_ports::{Full, Turn};
use vlm_words::asts::AstKind;
use vlm_words::conditions::Cond;
use vlm_words::steps::{Answer, Step};

// Posts, and has the hub make that in one turn.
fn make(rt: &impl Abort, pair: &mut Pair, node: Node, step: Step) {
    assert!(rt; pair.post(node, step).is_ok());
    assert!(rt; pair.turn() == Turn::Served(1));
}

// Posts the step of a node that is alone, and has the hub make it in one turn.
fn make_alone(rt: &impl Abort, single: &mut Single, step: Step, want: Answer) {
    assert!(rt; single.post(step).is_ok());
    assert!(rt; single.turn() == Turn::Served(1));
    assert!(rt; is_answer(single.take(), want));
}

// A hub of one node: a search, and a request whose completion calls routine 8, with its status block.
#[test]
fn hub_alone(rt: HostRuntime) -> Result<(), Fail> {
    let mut single = Single::new(rt.alloc())?;
    make_alone(&rt, &mut single, SEARCH, Answer::Victim(None));
    let settled = single.settle();
    assert!(&rt; settled.steps == 0 && settled.items == 0);
    make_alone(&rt, &mut single, declaration(1), Answer::Process(P));
    make_alone(
        &rt,
        &mut single,
        exclusive(P),
        Answer::Lock(Cond::Normal, 1),
    );
    assert!(&rt; single.turn() == Turn::Served(1));
    assert!(&rt; is_ast(single.take(), P, AstKind::Completion));
    assert!(&rt; single.status(P) == Some(Cond::Normal.number()));
    assert!(&rt; single.status(Q).is_none());
    single.close();
    Ok(())
}

// The ring of posts holds 64: the next post is given back, and there is a place again when the hub has taken one.
#[test]
fn posts_fill_a_ring(rt: HostRuntime) -> Result<(), Fail> {
    let mut single = Single::new(rt.alloc())?;
    for _ in 0..64 {
        assert!(&rt; single.post(SEARCH).is_ok());
    }
    assert!(&rt; matches!(single.post(SEARCH), Err(Full(Step::Search(1)))));
    assert!(&rt; single.turn() == Turn::Served(1));
    assert!(&rt; single.post(SEARCH).is_ok());
    single.close();
    Ok(())
}

// The ring of items holds 64: the hub takes no post more until the node has taken one.
#[test]
fn items_fill_a_ring(rt: HostRuntime) -> Result<(), Fail> {
    let mut single = Single::new(rt.alloc())?;
    for _ in 0..64 {
        assert!(&rt; single.post(SEARCH).is_ok());
        assert!(&rt; single.turn() == Turn::Served(1));
    }
    assert!(&rt; single.post(SEARCH).is_ok());
    assert!(&rt; single.turn() == Turn::Idle);
    assert!(&rt; is_answer(single.take(), Answer::Victim(None)));
    assert!(&rt; single.turn() == Turn::Served(1));
    single.close();
    Ok(())
}

// A search, and a lock that one node holds and the other waits for.
#[test]
fn a_lock_goes_to_the_other_node(rt: HostRuntime) -> Result<(), Fail> {
    let mut pair = Pair::new(rt.alloc())?;
    make(&rt, &mut pair, First, SEARCH);
    assert!(&rt; is_answer(pair.take(First), Answer::Victim(None)));
    make(&rt, &mut pair, First, declaration(1));
    assert!(&rt; is_answer(pair.take(First), Answer::Process(P)));
    make(&rt, &mut pair, Second, declaration(2));
    assert!(&rt; is_answer(pair.take(Second), Answer::Process(Q)));
    make(&rt, &mut pair, First, exclusive(P));
    assert!(&rt; is_answer(pair.take(First), Answer::Lock(Cond::Normal, 1)));
    assert!(&rt; pair.turn() == Turn::Served(1));
    assert!(&rt; is_ast(pair.take(First), P, AstKind::Completion));
    make(&rt, &mut pair, Second, exclusive(Q));
    assert!(&rt; is_answer(pair.take(Second), Answer::Lock(Cond::Normal, 2)));
    assert!(&rt; pair.turn() == Turn::Served(1));
    assert!(&rt; is_ast(pair.take(First), P, AstKind::Blocking));
    assert!(&rt; pair.bye(First).is_ok());
    assert!(&rt; pair.turn() == Turn::Served(2));
    assert!(&rt; is_answer(pair.take(First), Answer::Plain(Cond::Normal)));
    assert!(&rt; is_ast(pair.take(Second), Q, AstKind::Completion));
    assert!(&rt; pair.turn() == Turn::Idle);
    let settled = pair.settle(Second);
    assert!(&rt; settled.steps == 0 && settled.items == 0);
    pair.close();
    Ok(())
}

// The ring of posts and the ring of items hold 64. A full ring holds up only its own node.
#[test]
fn rings_fill(rt: HostRuntime) -> Result<(), Fail> {
    let mut pair = Pair::new(rt.alloc())?;
    for _ in 0..64 {
        make(&rt, &mut pair, First, SEARCH);
    }
    for _ in 0..64 {
        assert!(&rt; pair.post(First, SEARCH).is_ok());
    }
    assert!(&rt; matches!(pair.post(First, SEARCH), Err(Full(Step::Search(1)))));
    assert!(&rt; pair.turn() == Turn::Idle);
    make(&rt, &mut pair, Second, SECOND_SEARCH);
    assert!(&rt; is_answer(pair.take(First), Answer::Victim(None)));
    assert!(&rt; pair.turn() == Turn::Served(1));
    assert!(&rt; pair.post(First, SEARCH).is_ok());
    pair.close();
    Ok(())
}

// A node's post is answered in the next turn, whatever the other node has posted.
#[test]
fn a_greedy_node_keeps_nobody(rt: HostRuntime) -> Result<(), Fail> {
    let mut pair = Pair::new(rt.alloc())?;
    for _ in 0..64 {
        assert!(&rt; pair.post(First, SEARCH).is_ok());
    }
    for _ in 0..8 {
        assert!(&rt; pair.post(Second, SECOND_SEARCH).is_ok());
        assert!(&rt; pair.turn() == Turn::Served(2));
        assert!(&rt; is_answer(pair.take(Second), Answer::Victim(None)));
    }
    assert!(&rt; pair.waiting(First) == (56, 8));
    let settled = pair.settle(First);
    assert!(&rt; settled.steps == 56 && settled.items == 8);
    pair.close();
    Ok(())
}

// What a lost node has posted is answered DEPARTED, and it is lost once. The other node goes on.
#[test]
fn a_lost_node_has_departed(rt: HostRuntime) -> Result<(), Fail> {
    let mut pair = Pair::new(rt.alloc())?;
    assert!(&rt; pair.post(Second, declaration(2)).is_ok());
    assert!(&rt; pair.lost(Second) == Ok(Cond::Normal));
    assert!(&rt; pair.turn() == Turn::Served(1));
    assert!(&rt; is_answer(pair.take(Second), Answer::Plain(Cond::Departed)));
    assert!(&rt; pair.lost(Second) == Ok(Cond::Departed));
    let settled = pair.settle(Second);
    assert!(&rt; settled.steps == 0 && settled.items == 0);
    make(&rt, &mut pair, First, SEARCH);
    assert!(&rt; is_answer(pair.take(First), Answer::Victim(None)));
    pair.close();
    Ok(())
}

// Parts of a journal, cut after each turn, add up to all of it.
#[test]
fn parts_add_up(rt: HostRuntime) -> Result<(), Fail> {
    let mut pair = Pair::new(rt.alloc())?;
    for base in 0..9 {
        make(&rt, &mut pair, Second, SECOND_SEARCH);
        assert!(&rt; pair.entries() == 1);
        let part = pair.cut();
        assert!(&rt; part.base == base && part.entries.len() == 1);
    }
    assert!(&rt; pair.entries() == 0);
    pair.close();
    Ok(())
}
