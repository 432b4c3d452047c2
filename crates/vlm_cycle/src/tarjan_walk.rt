//! The ranks of the processes, by a walk along the waits between them.
//!
//! # Implementation
//!
//! Tarjan's algorithm finds the strongly connected components. The walk finds each process once. It closes a component
//! when it comes back from the first process that it found of it. `index` and `low` of a note are Tarjan's;
//! `tree_parent` links the stack of the walk, and `stack_next` the stack of the processes whose components are not
//! closed. The walk looks back to the first earlier request that covers those before it, as a search does (`blockers`).
//! It leaves the holders out if one that covers wants the same mode. So a long queue costs its length. The ranks are
//! hints: the code that uses them checks them.

ghost use Rattle.std.specs.Option.{ForSome};
ghost use Rattle.vlm_store.specs.Records.{IsStored, Records};
ghost use Rattle.vlm_locks.specs.Rest.{IsAtRest};
ghost use Rattle.vlm_cycle.specs.Notes.{AreNotes, IsTarjanNode, LivesAt, IsWalk, IsWanting};

use crate::ranks::{Ranks, TarjanNode};
use crate::tarjan_nodes::BlockerKind;
use crate::waits::{AwaitedModes, awaited_modes, is_covering};
use vlm_queue::{head, next};
use vlm_store::{LockAt, ProcAt, Store};
use vlm_words::resources::Queue;

/// The state of the walk.
#[derive(Clone, Copy)]
pub(crate) struct TarjanWalk {
    process: Option<ProcAt>,
    // the last process found, of those that are not closed
    stack_next: Option<ProcAt>,
    // how many processes were found
    found: u32,
    // how many components were closed
    closed: u32,
}

impl TarjanWalk {
    // The walk after this many components are closed; `stack_next` is the last process that is not.
    fn with_closed(&self, stack_next: Option<ProcAt>, closed: u32) -> TarjanWalk
        ensures { (s : Records) → IsWalk s self.now → ForSome stack_next (LivesAt s) → IsWalk s result }
    {
        TarjanWalk {
            process: self.process,
            stack_next,
            found: self.found,
            closed,
        }
    }
}

// The note of a process whose walk begins at this lock of its own; without a lock it is at its end.
fn with_own(store: &Store, note: &TarjanNode, own: Option<LockAt>) -> TarjanNode
    requires own { ForSome own (λ lock. IsStored lock store.now) }
    requires note { IsTarjanNode store.now note.now }
    ensures { IsTarjanNode store.now result }
{
    let Some(lock) = own else {
        return note.located(None, BlockerKind::Before, None);
    };
    note.located(Some(lock), BlockerKind::Before, store.previous(lock))
}

fn with_next_own(store: &Store, note: &TarjanNode, own: LockAt) -> TarjanNode
    requires rest { IsAtRest store.now }
    requires own { IsStored own store.now }
    requires note { IsTarjanNode store.now note.now }
    ensures { IsTarjanNode store.now result }
{
    with_own(store, note, store.next_own(own))
}

fn with_next_part(store: &Store, note: &TarjanNode, wanting: &AwaitedModes) -> TarjanNode
    requires rest { IsAtRest store.now }
    requires wanting { IsWanting store.now wanting.now }
    requires note { IsTarjanNode store.now note.now }
    ensures { IsTarjanNode store.now result }
{
    let own = wanting.lock;
    let (part, queue) = match note.part {
        BlockerKind::Before | BlockerKind::Alike => (BlockerKind::Granted, Queue::Granted),
        BlockerKind::Granted => (BlockerKind::Converting, Queue::Conversion),
        BlockerKind::Converting => return with_next_own(store, note, own),
    };
    note.located(Some(own), part, head(store, wanting.res, queue))
}

fn with_next_before(
    store: &Store,
    ranks: &Ranks,
    note: &TarjanNode,
    wanting: &AwaitedModes,
    lock: LockAt,
) -> TarjanNode
    requires lock { IsStored lock store.now }
    requires wanting { IsWanting store.now wanting.now }
    requires note { IsTarjanNode store.now note.now }
    ensures { IsTarjanNode store.now result }
{
    let own = Some(wanting.lock);
    let previous = store.previous(lock);
    if !is_covering(store, ranks, wanting.lock, lock) {
        return note.located(own, BlockerKind::Before, previous);
    }
    if wanting.is_like(&store.lock_record(lock).row) {
        return note.located(own, BlockerKind::Converting, None);
    }
    note.located(own, BlockerKind::Alike, previous)
}

fn with_next_alike(
    store: &Store,
    ranks: &Ranks,
    note: &TarjanNode,
    wanting: &AwaitedModes,
    lock: LockAt,
) -> TarjanNode
    requires lock { IsStored lock store.now }
    requires wanting { IsWanting store.now wanting.now }
    requires note { IsTarjanNode store.now note.now }
    ensures { IsTarjanNode store.now result }
{
    let own = Some(wanting.lock);
    if wanting.is_like(&store.lock_record(lock).row)
        && is_covering(store, ranks, wanting.lock, lock)
    {
        return note.located(own, BlockerKind::Converting, None);
    }
    note.located(own, BlockerKind::Alike, store.previous(lock))
}

fn with_next(
    store: &Store,
    ranks: &Ranks,
    note: &TarjanNode,
    wanting: &AwaitedModes,
    lock: LockAt,
) -> TarjanNode
    requires lock { IsStored lock store.now }
    requires wanting { IsWanting store.now wanting.now }
    requires note { IsTarjanNode store.now note.now }
    ensures { IsTarjanNode store.now result }
{
    match note.part {
        BlockerKind::Before => with_next_before(store, ranks, note, wanting, lock),
        BlockerKind::Alike => with_next_alike(store, ranks, note, wanting, lock),
        part => note.located(Some(wanting.lock), part, next(store, lock)),
    }
}

// The walk goes down to a process that was not found, if there is room for its note.
fn go_down(store: &Store, ranks: &mut Ranks, walk: TarjanWalk, process: ProcAt) -> TarjanWalk
    requires rest { IsAtRest store.now }
    requires process { LivesAt store.now process }
    requires walk { IsWalk store.now walk }
    requires notes { AreNotes store.now ranks.old }
    ensures walk { IsWalk store.now result }
    ensures notes { AreNotes store.now ranks.new }
{
    if process.slot() >= ranks.len() {
        return walk;
    }
    let found = walk.found.saturating_add(1);
    let note = TarjanNode {
        rank: 0,
        index: found,
        low: found,
        tree_parent: walk.process,
        stack_next: walk.stack_next,
        own: None,
        part: BlockerKind::Before,
        at: None,
    };
    ranks.put(process, with_own(store, &note, store.first_own(process)));
    TarjanWalk {
        process: Some(process),
        stack_next: Some(process),
        found,
        closed: walk.closed,
    }
}

fn go_along(
    store: &Store,
    ranks: &mut Ranks,
    walk: TarjanWalk,
    process: ProcAt,
    target: ProcAt,
) -> TarjanWalk
    requires rest { IsAtRest store.now }
    requires target { LivesAt store.now target }
    requires walk { IsWalk store.now walk }
    requires notes { AreNotes store.now ranks.old }
    ensures walk { IsWalk store.now result }
    ensures notes { AreNotes store.now ranks.new }
{
    let note = ranks.note(target);
    if note.index == 0 {
        return go_down(store, ranks, walk, target);
    }
    if note.rank == 0 {
        ranks.lower(Some(process), note.index);
    }
    walk
}

// Gives the next rank to this process, and to those found since.
fn close(ranks: &mut Ranks, walk: TarjanWalk, first: ProcAt) -> TarjanWalk
    ensures { (s : Records) → AreNotes s ranks.old → IsWalk s walk
        → AreNotes s ranks.new × IsWalk s result }
{
    let rank = walk.closed.saturating_add(1);
    let mut stack_next = walk.stack_next;
    for _ in 0..ranks.len() {
        let Some(process) = stack_next else {
            return walk.with_closed(None, rank);
        };
        let note = ranks.note(process);
        ranks.put(process, note.ranked(rank, note.low));
        stack_next = note.stack_next;
        if process.slot() == first.slot() {
            return walk.with_closed(stack_next, rank);
        }
    }
    walk.with_closed(stack_next, rank)
}

// Closes the component of a process, if the process is the first one found of it.
fn close_if_whole(ranks: &mut Ranks, walk: TarjanWalk, process: ProcAt) -> TarjanWalk
    ensures { (s : Records) → AreNotes s ranks.old → IsWalk s walk
        → AreNotes s ranks.new × IsWalk s result }
{
    let note = ranks.note(process);
    if note.low == note.index {
        return close(ranks, walk, process);
    }
    walk
}

// The walk goes back from a process whose waits it has all followed.
fn go_back(ranks: &mut Ranks, walk: TarjanWalk, process: ProcAt) -> TarjanWalk
    ensures { (s : Records) → AreNotes s ranks.old → IsWalk s walk
        → AreNotes s ranks.new × IsWalk s result }
{
    let note = ranks.note(process);
    let left = close_if_whole(ranks, walk, process);
    ranks.lower(note.tree_parent, note.low);
    TarjanWalk {
        process: note.tree_parent,
        stack_next: left.stack_next,
        found: left.found,
        closed: left.closed,
    }
}

// One step of the walk at a process: to the next lock for which it waits, to its next own lock, or back.
fn step(store: &Store, ranks: &mut Ranks, walk: TarjanWalk, process: ProcAt) -> TarjanWalk
    requires rest { IsAtRest store.now }
    requires walk { IsWalk store.now walk }
    requires notes { AreNotes store.now ranks.old }
    ensures walk { IsWalk store.now result }
    ensures notes { AreNotes store.now ranks.new }
{
    let note = ranks.note(process);
    let Some(own) = note.own else {
        return go_back(ranks, walk, process);
    };
    let Some(wanting) = awaited_modes(store, own) else {
        ranks.put(process, with_next_own(store, &note, own));
        return walk;
    };
    let Some(lock) = note.at else {
        ranks.put(process, with_next_part(store, &note, &wanting));
        return walk;
    };
    ranks.put(process, with_next(store, ranks, &note, &wanting, lock));
    let record = store.lock_record(lock);
    if wanting.waits_for(note.part, lock, &record.row) {
        return go_along(store, ranks, walk, process, record.owner);
    }
    walk
}

// The walk goes to all processes to which a process leads, if that process was not found.
fn walk_from(store: &Store, ranks: &mut Ranks, walk: TarjanWalk, root: ProcAt) -> TarjanWalk
    requires rest { IsAtRest store.now }
    requires root { LivesAt store.now root }
    requires walk { IsWalk store.now walk }
    requires notes { AreNotes store.now ranks.old }
    ensures walk { IsWalk store.now result }
    ensures notes { AreNotes store.now ranks.new }
{
    if ranks.note(root).index > 0 {
        return walk;
    }
    let mut walk = go_down(store, ranks, walk, root);
    // It never ends early: this many turns would take centuries.
    for _ in 0..u64::MAX {
        let Some(process) = walk.process else {
            break;
        };
        walk = step(store, ranks, walk, process);
    }
    walk
}

/// Ranks the processes that own queued requests, and those to which they lead. No process waits for one of a higher
/// rank, and two that lead to each other have one rank. Other processes have rank 0. It takes no memory. The cost grows
/// with the queued requests. For each process that owns one or is waited for, it grows with its locks, and with the
/// locks looked at for each of its queued requests.
// Kept out of line: its walk needs each register.
#[inline(never)]
pub(crate) fn rank_processes(store: &Store, ranks: &mut Ranks)
    requires { IsAtRest store.now }
{
    if store.queued_locks().next().is_none() {
        return;
    }
    ranks.begin();
    let mut walk = TarjanWalk {
        process: None,
        stack_next: None,
        found: 0,
        closed: 0,
    };
    for lock in store.queued_locks() {
        let owner = store.lock_record(lock).owner;
        walk = walk_from(store, ranks, walk, owner);
    }
}
