//! Watchers: their rows where memory is ample, one after another and in threads of their own.

use crate::WatchedHub;
use crate::tests::steps::{P, declaration, give_up, is_answer, quiet};
use std::alloc::{AllocError, Global};
use std::process::Abort;
use std::sync::Wait;
use std::test::Fail;
use std::thread::Threads;
use vlm_ports::{BoardFault, RootKey, Row};
use vlm_words::conditions::Cond;
use vlm_words::names::Name;
use vlm_words::resources::Domain;
use vlm_words::steps::{Answer, Step};

// The roots of one letter in group 1, from A on.
pub fn roots(alloc: Global, count: u8) -> Result<Vec<RootKey>, AllocError> {
    let mut keys = Vec::new(alloc);
    for at in 0..count {
        if let Ok(name) = Name::new(&[b'A'.saturating_add(at)]) {
            let domain = Domain::Group(1);
            keys.push(RootKey { domain, name })?;
        }
    }
    Ok(keys)
}

// The row shows this many locks that hold EX, and nothing else.
pub fn shows(row: Option<Row>, exclusive: u32) -> bool {
    let Some(row) = row else {
        return false;
    };
    let value = row.value == [0; 16] && row.valid;
    row.held == [0, 0, 0, 0, 0, exclusive] && row.conversions == 0 && row.waiters == 0 && value
}

// How many entries had been made, by a row.
fn entries(row: Option<Row>) -> Option<u64> {
    row.map(|row| row.journal)
}

// A hub, and this many watchers of this many resources.
fn watched<R: Abort + AllocGlobal + Wait>(
    rt: &R,
    keys: u8,
    watchers: usize,
) -> Result<WatchedHub, Fail> {
    let keys = roots(rt.alloc(), keys)?;
    if keys.is_empty() || 16 < keys.len() || watchers == 0 || 8 < watchers {
        return Err(Fail::from("too many or none"));
    }
    match WatchedHub::open(rt, rt.alloc(), keys, watchers) {
        Ok(hub) => Ok(hub),
        Err(_) => Err(Fail::from("no watchers")),
    }
}

// A resource comes, goes and comes again. A watcher that has learned of it sees that, with the number of entries.
#[test]
fn a_resource_comes_and_goes(rt: HostRuntime) -> Result<(), Fail> {
    let mut hub = watched(&rt, 1, 2)?;
    assert!(&rt; is_answer(hub.make(declaration(1)), Answer::Process(P)));
    let before = [hub.see(0, 0), hub.see(1, 0)];
    assert!(&rt; shows(before[0], 0) && entries(before[0]) == Some(0));
    assert!(&rt; shows(before[1], 0) && entries(before[1]) == Some(0));
    for lock in 1..4 {
        assert!(&rt; is_answer(hub.make(quiet(P)), Answer::Lock(Cond::Normal, lock)));
        assert!(&rt; hub.publish(&rt).is_ok());
        assert!(&rt; shows(hub.see(0, 0), 1));
        assert!(&rt; is_answer(hub.make(give_up(P, lock)), Answer::Plain(Cond::Normal)));
        assert!(&rt; hub.publish(&rt).is_ok());
        assert!(&rt; shows(hub.see(0, 0), 0) && shows(hub.see(1, 0), 0));
    }
    let made = [entries(hub.see(0, 0)), entries(hub.see(1, 0))];
    hub.close(&rt);
    assert!(&rt; made == [Some(7), Some(7)]);
    Ok(())
}

// A watcher that nobody told of a publish sees it all the same.
#[test]
fn an_untold_watcher_sees_a_publish(rt: HostRuntime) -> Result<(), Fail> {
    let mut hub = watched(&rt, 1, 2)?;
    assert!(&rt; is_answer(hub.make(declaration(1)), Answer::Process(P)));
    assert!(&rt; is_answer(hub.make(quiet(P)), Answer::Lock(Cond::Normal, 1)));
    let before = hub.see(0, 0);
    assert!(&rt; hub.publish_untold(&rt).is_ok());
    let after = [hub.see(0, 0), hub.see(1, 0)];
    hub.close(&rt);
    assert!(&rt; shows(before, 0) && entries(before) == Some(0));
    assert!(&rt; shows(after[0], 1) && entries(after[0]) == Some(2));
    assert!(&rt; shows(after[1], 1) && entries(after[1]) == Some(2));
    Ok(())
}

// Each fault of a refused board displays its text.
#[test]
fn board_faults_have_texts(rt: HostRuntime) -> Result<(), Fail> {
    assert!(&rt; format!(in rt.alloc(); "{}", BoardFault::Memory)?.as_str() == "memory");
    assert!(&rt; format!(in rt.alloc(); "{}", BoardFault::Seat)?.as_str() == "no seat");
    Ok(())
}

// Each of 16 places has the row of its own resource.
#[test]
fn sixteen_resources_are_told_apart(rt: HostRuntime) -> Result<(), Fail> {
    let mut hub = watched(&rt, 16, 1)?;
    assert!(&rt; is_answer(hub.make(declaration(1)), Answer::Process(P)));
    assert!(&rt; is_answer(hub.make(quiet(P)), Answer::Lock(Cond::Normal, 1)));
    assert!(&rt; hub.publish(&rt).is_ok());
    for place in 0..16 {
        let row = hub.see(0, place);
        assert!(&rt; shows(row, 1) == (place == 0) && entries(row) == Some(2));
    }
    hub.close(&rt);
    Ok(())
}

// Watchers look in threads of their own while the hub makes steps and publishes: none sees fewer entries than before,
// and after it learns of it, each sees the last publish.
fn look_on<R: Abort + AllocGlobal + Threads + Wait + Sync>(
    rt: &R,
    watchers: usize,
) -> Result<(), Fail> {
    let mut hub = watched(rt, 1, watchers)?;
    hub.look_in_threads(rt, &Step::Search(1), 100, 100);
    assert!(rt; hub.publish(rt).is_ok());
    for at in 0..watchers {
        assert!(rt; entries(hub.see(at, 0)) == Some(100));
    }
    let onlookers = hub.close(rt);
    assert!(rt; onlookers.len() == watchers);
    for onlooker in &onlookers {
        assert!(rt; !onlooker.fell && onlooker.last.is_some());
    }
    Ok(())
}

#[test]
fn two_watchers_look_on(rt: HostRuntime) -> Result<(), Fail> {
    look_on(&rt, 2)
}

#[test]
fn eight_watchers_look_on(rt: HostRuntime) -> Result<(), Fail> {
    look_on(&rt, 8)
}

// A watcher that outlives its hub sees nothing more.
#[test]
fn a_finished_hub_shows_nothing(rt: HostRuntime) -> Result<(), Fail> {
    let mut hub = watched(&rt, 1, 8)?;
    assert!(&rt; hub.see(0, 0).is_some() && hub.see(7, 0).is_some());
    assert!(&rt; hub.close_and_look(&rt).is_none());
    Ok(())
}
