//! The owners of the locks that a queued request waits for, except those that an earlier request leads to.
//!
//! An earlier request *covers* those before it, if it waits and later requests wait for it: a search that finds its
//! owner goes on from there. So a walk looks back to the first request that covers. It leaves the holders out if an
//! earlier request that covers wants the same mode, since that one waits for the same holders. In a long queue each
//! request then costs a few steps, and not the whole queue.

ghost use Rattle.std.specs.Prelude.{◌≡◌, ◌⊎◌, ◌/◌, false, true};
ghost use Rattle.std.specs.List.{list_any};
ghost use Rattle.vlm_model.specs.Deadlocks.{BlocksThoseBehind};
ghost use Rattle.vlm_words.specs.declared.resources.Queue.{Queue};
ghost use Rattle.vlm_records.specs.NodeMarks.{is_node};
ghost use Rattle.vlm_store.specs.Records.{HasResource};
ghost use Rattle.vlm_queue.specs.Walks.{rows_queued};
ghost use Rattle.vlm_locks.specs.Standing.{IsLocated};
ghost use Rattle.vlm_cycle.specs.Covering.{OwnsConversion, OwnsNear, OwnsNearKeeper, covers, covers_for, nearest, rows_ahead};
ghost use Rattle.vlm_cycle.specs.Marking.{HasRoomInBoth, Marks};
ghost use Rattle.vlm_cycle.specs.Waiting.{IsHolder, IsRoomy, OwnsBlocker, OwnsHolder};

use crate::conflicts::{blocks_those_behind, holds_against};
use crate::scratch::Scratch;
use vlm_locks::LocatedLock;
use vlm_queue::{head, next};
use vlm_store::{ResAt, Store, StoredState};
use vlm_words::flags::EnqFlags;
use vlm_words::modes::Mode;
use vlm_words::resources::Queue;

// Finds the owner of a lock, if it is another lock whose held mode is incompatible with the mode.
fn find_holder(scratch: &mut Scratch, row: &StoredState, lkid: u32, mode: Mode)
    requires room { HasRoomInBoth scratch.old row.now.pid }
    requires node { is_node (row.now.pid / 65536) ≡ true }
    ensures { Marks (λ pid. IsHolder lkid mode row.now × (row.now.pid ≡ pid)) scratch.old
        scratch.new }
{
    if row.lkid() != lkid {
        if holds_against(mode, &row.held()) {
            scratch.find(row.pid());
        }
    }
}

fn find_blocker(scratch: &mut Scratch, row: &StoredState)
    requires room { HasRoomInBoth scratch.old row.now.pid }
    requires node { is_node (row.now.pid / 65536) ≡ true }
    ensures { Marks (λ pid. BlocksThoseBehind row.now.want × (row.now.pid ≡ pid)) scratch.old
        scratch.new }
{
    if blocks_those_behind(&row.want()) {
        scratch.find(row.pid());
    }
}

fn find_holders(
    store: &Store,
    scratch: &mut Scratch,
    waiting: &LocatedLock,
    queue: Queue,
    mode: Mode,
)
    requires there { HasResource waiting.now.res store.now }
    requires roomy { IsRoomy store.now scratch.old }
    ensures { Marks (OwnsHolder waiting.now.row.lkid mode
        (rows_queued waiting.now.res queue store.now)) scratch.old scratch.new }
{
    let lkid = waiting.row.lkid();
    let mut at = head(store, waiting.res, queue);
    while let Some(lock) = at {
        find_holder(scratch, &store.lock_record(lock).row, lkid, mode);
        at = next(store, lock);
    }
}

// Finds the owners of the requests in a queue for which later requests wait.
fn find_blockers(store: &Store, scratch: &mut Scratch, res: ResAt, queue: Queue)
    requires there { HasResource res store.now }
    requires roomy { IsRoomy store.now scratch.old }
    ensures { Marks (OwnsBlocker (rows_queued res queue store.now)) scratch.old scratch.new }
{
    let mut at = head(store, res, queue);
    while let Some(lock) = at {
        find_blocker(scratch, &store.lock_record(lock).row);
        at = next(store, lock);
    }
}

// Whether the request of a row waits for other locks, and later requests wait for it.
fn covers(row: &StoredState) -> bool
    ensures { result ≡ covers row.now }
{
    match row.want() {
        Some(want) => {
            !want.flags.has(EnqFlags::NODLCKWT) && !want.flags.has(EnqFlags::NODLCKBLK)
        }
        None => false,
    }
}

fn covers_for(mode: Mode, row: &StoredState) -> bool
    ensures { result ≡ covers_for mode row.now }
{
    match row.want() {
        Some(want) => want.mode.rank() == mode.rank() && covers(row),
        None => false,
    }
}

// Finds the owners of the earlier requests in its queue, back to the first that covers. Whether one does.
fn find_nearest(store: &Store, scratch: &mut Scratch, waiting: &LocatedLock) -> bool
    requires located { IsLocated waiting.now store.now }
    requires roomy { IsRoomy store.now scratch.old }
    ensures marks { Marks (OwnsBlocker (nearest (rows_ahead waiting.now store.now)))
        scratch.old scratch.new }
    ensures covered { result ≡ list_any covers (rows_ahead waiting.now store.now) }
{
    let mut at = store.previous(waiting.lock);
    while let Some(lock) = at {
        let row = &store.lock_record(lock).row;
        find_blocker(scratch, row);
        if covers(row) {
            return true;
        }
        at = store.previous(lock);
    }
    false
}

// Whether an earlier request in its queue covers, and wants this mode.
fn wants_like_an_earlier(store: &Store, waiting: &LocatedLock, mode: Mode) -> bool
    requires { IsLocated waiting.now store.now }
    ensures { result ≡ list_any (covers_for mode) (rows_ahead waiting.now store.now) }
{
    let mut at = store.previous(waiting.lock);
    while let Some(lock) = at {
        if covers_for(mode, &store.lock_record(lock).row) {
            return true;
        }
        at = store.previous(lock);
    }
    false
}

// Finds the owners of the conversions, all of which are before a waiting request.
fn find_conversions(store: &Store, scratch: &mut Scratch, waiting: &LocatedLock)
    requires there { HasResource waiting.now.res store.now }
    requires roomy { IsRoomy store.now scratch.old }
    ensures { Marks (OwnsConversion waiting.now.queue
        (rows_queued waiting.now.res Queue.Conversion store.now)) scratch.old scratch.new }
{
    if let Queue::Waiting = waiting.queue {
        find_blockers(store, scratch, waiting.res, Queue::Conversion);
    }
}

fn find_those_before(store: &Store, scratch: &mut Scratch, waiting: &LocatedLock)
    requires located { IsLocated waiting.now store.now }
    requires roomy { IsRoomy store.now scratch.old }
    ensures { Marks (λ pid. OwnsBlocker (nearest (rows_ahead waiting.now store.now)) pid
        ⊎ ((list_any covers (rows_ahead waiting.now store.now) ≡ false)
        × OwnsConversion waiting.now.queue (rows_queued waiting.now.res Queue.Conversion store.now) pid))
        scratch.old scratch.new }
{
    if !find_nearest(store, scratch, waiting) {
        find_conversions(store, scratch, waiting);
    }
}

fn find_all_holders(store: &Store, scratch: &mut Scratch, waiting: &LocatedLock, mode: Mode)
    requires located { IsLocated waiting.now store.now }
    requires roomy { IsRoomy store.now scratch.old }
    ensures { Marks (λ pid. (list_any (covers_for mode) (rows_ahead waiting.now store.now) ≡ false)
        × (OwnsHolder waiting.now.row.lkid mode (rows_queued waiting.now.res Queue.Granted store.now) pid
        ⊎ OwnsHolder waiting.now.row.lkid mode (rows_queued waiting.now.res Queue.Conversion store.now) pid))
        scratch.old scratch.new }
{
    if wants_like_an_earlier(store, waiting, mode) {
        return;
    }
    find_holders(store, scratch, waiting, Queue::Granted, mode);
    find_holders(store, scratch, waiting, Queue::Conversion, mode);
}

fn find_keepers(store: &Store, scratch: &mut Scratch, waiting: &LocatedLock, mode: Mode)
    requires located { IsLocated waiting.now store.now }
    requires roomy { IsRoomy store.now scratch.old }
    ensures { Marks (OwnsNearKeeper store.now waiting.now mode) scratch.old scratch.new }
{
    find_those_before(store, scratch, waiting);
    find_all_holders(store, scratch, waiting, mode);
}

/// Finds owners of the locks for which the queued request of a lock waits, if it has one. Each lock that is left out is
/// waited for by an earlier request whose owner is found.
pub(crate) fn find_waited_for(store: &Store, scratch: &mut Scratch, waiting: &LocatedLock)
    requires located { IsLocated waiting.now store.now }
    requires roomy { IsRoomy store.now scratch.old }
    ensures { Marks (OwnsNear store.now waiting.now) scratch.old scratch.new }
{
    if waiting.is_granted() {
        return;
    }
    let Some(request) = waiting.row.want() else {
        return;
    };
    if request.flags.has(EnqFlags::NODLCKWT) {
        return;
    }
    find_keepers(store, scratch, waiting, request.mode);
}
