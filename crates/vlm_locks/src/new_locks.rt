//! A new lock enters its resource.

ghost use Rattle.std.specs.Prelude.{◌≡◌, ◌≤◌, true, None, Some, IfOk, IfSome, IsOk, OnErr, OnOk};
ghost use Rattle.vlm_words.specs.declared.locks.Request.{Request};
ghost use Rattle.vlm_words.specs.declared.locks.LockState.{LockState};
ghost use Rattle.vlm_words.specs.Dues.{row_due};
ghost use Rattle.vlm_model.specs.Enqueue.{is_at_once};
ghost use Rattle.vlm_store.specs.Plain.{plain_processes, plain_resource};
ghost use Rattle.vlm_store.specs.Records.{FindsResource, HasResource, HasRoomForLock, HasRoomForResource, IsProcess, IsUnchanged, Records, SameButNotices, StoredResource, due_of, resource_at};
ghost use Rattle.vlm_locks.specs.Entering.{HasRoomToEnter, HasEntered, IsDueMore, IsEntered, IsOwing, IsReady, MayEnter, entered_queue, new_row, processes_entered};
ghost use Rattle.vlm_locks.specs.Owing.{IsPaid, OwedMoves, granted_if_at_once};

use crate::endings::{end_by_grant, grant_without_value_block};
use crate::routines::{forgive_routines, owe_routines};
use std::alloc::AllocError;
use vlm_procs::accept;
use vlm_queue::is_empty;
use vlm_store::{LockAt, Place, ProcAt, ResAt, Store, StoredState};
use vlm_words::flags::EnqFlags;
use vlm_words::locks::{LockState, Request};
use vlm_words::modes::Mode;
use vlm_words::resources::{Queue, Site};

/// Whether a new request is granted at once on a resource: it is expedited, or it fits and nobody is queued.
#[tactic(auto, unfolding(vlm_model::specs::Enqueue::is_at_once))]
pub fn enters_at_once(store: &Store, res: ResAt, flags: EnqFlags, mode: Mode) -> bool
    requires { HasResource res store.now }
    ensures { (r : StoredResource) (asked : Request)
        → resource_at res store.now.resources ≡ Some r
        → asked.flags ≡ flags → asked.mode ≡ mode
        → result ≡ is_at_once asked (plain_resource r) }
{
    flags.has(EnqFlags::EXPEDITE)
        || (store.can_hold(res, mode, None)
            && is_empty(store, res, Queue::Conversion)
            && is_empty(store, res, Queue::Waiting))
}

/// A new lock before it enters its resource.
#[derive(Clone, Copy)]
pub struct NewLock {
    pub asked: Request,
    pub lkid: u32,
    pub pid: u32,
    /// Its parent lock, or 0.
    pub parent_lkid: u32,
    /// Its process.
    pub owner: ProcAt,
    pub parent: Option<LockAt>,
    pub site: Site,
    /// The hash of the resource's key.
    pub hash: u32,
    /// The serial of its resource, if that has to be made.
    pub serial: u32,
    /// Its resource, if that exists.
    pub res: Option<ResAt>,
    /// Whether the request is granted at once.
    pub at_once: bool,
}

// The state of a new lock before a grant: it holds nothing.
fn wanting_state(new_lock: &NewLock) -> StoredState
    ensures { result ≡ new_row new_lock.now }
{
    StoredState::of(&LockState {
        lkid: new_lock.lkid,
        pid: new_lock.pid,
        parent: new_lock.parent_lkid,
        held: None,
        want: Some(new_lock.asked),
        armed: false,
    })
}

// The state in which a new lock enters, and its queue: granted if it is granted at once, else waiting.
fn entered_state(new_lock: &NewLock) -> (StoredState, Queue)
    ensures row { result.0 ≡ granted_if_at_once new_lock.now.at_once (new_row new_lock.now) }
    ensures queue { result.1 ≡ entered_queue new_lock.now.at_once }
{
    let state = wanting_state(new_lock);
    if new_lock.at_once {
        (state.granted(), Queue::Granted)
    } else {
        (state, Queue::Waiting)
    }
}

// Adds a new lock at the end of its queue.
fn enter_at(store: &mut Store, new_lock: &NewLock, res: ResAt)
    requires may_enter { MayEnter new_lock.now store.old }
    requires found { FindsResource store.old new_lock.now.site.key (Some res) }
    requires room { HasRoomForLock new_lock.now.lkid store.old }
    ensures entered { IsEntered new_lock.now res store.old store.new }
    ensures due { IsDueMore (granted_if_at_once new_lock.now.at_once (new_row new_lock.now))
        store.old store.new }
{
    let (state, queue) = entered_state(new_lock);
    let place = Place::Queued(res, queue);
    store.add_lock_reserved(&state, new_lock.owner, new_lock.parent, place);
}

// The resource of a new lock, which is added if it does not exist. If memory is refused, nothing is changed, except
// that there may be more room.
fn resource_or_new(store: &mut Store, new_lock: &NewLock) -> Result<ResAt, AllocError>
    requires may_enter { MayEnter new_lock.now store.old }
    requires found { FindsResource store.old new_lock.now.site.key new_lock.now.res }
    ensures may_enter { OnOk result (MayEnter new_lock.now store.new) }
    ensures found { IfOk result (λ res. FindsResource store.new new_lock.now.site.key (Some res)) }
    ensures lock_room { OnOk result (store.new.room.locks ≡ store.old.room.locks) }
    ensures entered { IfOk result (λ res. (then : Records) → IsEntered new_lock.now res store.new then
        → IsEntered new_lock.now res store.old then) }
    ensures due { OnOk result ((row : LockState) (then : Records) → IsDueMore row store.new then
        → IsDueMore row store.old then) }
    ensures succeeds { (new_lock.now.res ≡ None → HasRoomForResource new_lock.now.hash store.old)
        → IsOk result }
    ensures err { OnErr result (IsUnchanged store.old store.new) }
{
    match new_lock.res {
        Some(res) => Ok(res),
        None => store.add_resource(new_lock.serial, &new_lock.site, new_lock.hash),
    }
}

// Accepts the request of a lock that has entered, and ends it if it is granted at once. Such a grant never writes the
// value block.
fn accept_entered(store: &mut Store, new_lock: &NewLock, res: ResAt)
    requires owner { IsProcess new_lock.now.owner new_lock.now.pid store.old }
    requires there { HasResource res store.old }
    requires owed { row_due (new_row new_lock.now) ≤ due_of new_lock.now.pid store.old }
    ensures statuses { IfSome (resource_at res store.old.resources) (λ r. plain_processes store.new
        ≡ processes_entered new_lock.now r.value_block (plain_processes store.old)) }
    ensures owed { OwedMoves (new_row new_lock.now)
        (granted_if_at_once new_lock.now.at_once (new_row new_lock.now)) store.old store.new }
    ensures only_notices { SameButNotices store.old store.new }
{
    if !new_lock.at_once {
        accept(store, new_lock.owner, new_lock.asked.block, new_lock.lkid);
    } else if new_lock.asked.flags.has(EnqFlags::VALBLK) {
        accept(store, new_lock.owner, new_lock.asked.block, new_lock.lkid);
        let mut value_block = store.resource_record(res).value_block;
        let row = wanting_state(new_lock);
        end_by_grant(&mut value_block, store, new_lock.owner, &row, true);
    } else {
        let row = wanting_state(new_lock);
        grant_without_value_block(store, new_lock.owner, &row, &new_lock.asked);
    }
}

// Room for the lock, and for the ASTs of its routines.
fn make_ready(store: &mut Store, new_lock: &NewLock) -> Result<(), AllocError>
    requires owner { IsProcess new_lock.now.owner new_lock.now.pid store.old }
    ensures ready { OnOk result (IsReady new_lock.now store.old store.new) }
    ensures owes { OnOk result (IsOwing new_lock.now store.old store.new) }
    ensures succeeds { HasRoomToEnter new_lock.now store.old → IsOk result }
    ensures err { OnErr result (IsUnchanged store.old store.new) }
{
    store.reserve_lock(new_lock.lkid)?;
    owe_routines(store, new_lock.owner, Some(new_lock.asked))
}

/// Adds a new lock to its resource, which is made if it does not exist. The lock is granted at once, or goes to the end
/// of the waiting queue. Its process is owed the ASTs of its routines, and its status block is written. If memory is
/// refused, nothing is changed, except that there may be more room.
pub fn enter(store: &mut Store, new_lock: &NewLock) -> Result<ResAt, AllocError>
    requires may_enter { MayEnter new_lock.now store.old }
    requires found { FindsResource store.old new_lock.now.site.key new_lock.now.res }
    requires paid { IsPaid store.old }
    ensures entered { IfOk result (λ res. HasEntered new_lock.now res store.old store.new) }
    ensures succeeds { HasRoomToEnter new_lock.now store.old → IsOk result }
    ensures err { OnErr result (IsUnchanged store.old store.new) }
{
    make_ready(store, new_lock)?;
    match resource_or_new(store, new_lock) {
        Ok(res) => {
            enter_at(store, new_lock, res);
            accept_entered(store, new_lock, res);
            Ok(res)
        }
        Err(refused) => {
            forgive_routines(store, new_lock.owner, Some(new_lock.asked));
            Err(refused)
        }
    }
}
