//! The queues of resources, and the moves of locks between them.

ghost use Rattle.std.specs.Prelude.{◌≡◌, ◌≢◌, ◌≤◌, ◌+◌, ℕ, false, None, Some, [], ◌∷◌, ◌++◌, IsSome, true};
ghost use Rattle.std.specs.Bool.{OnTrue};
ghost use Rattle.std.specs.Option.{ForSome};
ghost use Rattle.slab.specs.Slab.{get, ContainsKey, HasRoomFor};
ghost use Rattle.vlm_collections.specs.Lists.{Relinks, without};
ghost use Rattle.vlm_records.specs.declared.handles.Place.{Place};
ghost use Rattle.vlm_records.specs.Armed.{IsLaidOut, StandsLast, armed_rank};
ghost use Rattle.vlm_records.specs.Kept.{Keeps, LooseStay, Requeues, Rewrites, WritesLock};
ghost use Rattle.vlm_records.specs.WaitList.{wait_list_links};
ghost use Rattle.vlm_records.specs.Shown.{IsPlaced, IsTallied, IsThere, SameBut, but_lists, but_place, but_queued, but_queues, but_requeued, but_row, handles_at, is_loose_in, list_at, named_row, new_lock, noted, rows, with_queue_links};
ghost use Rattle.vlm_records.specs.Changes.{Adds, Moves, PushesBack, Removes, Unlinks};

use crate::handles::{LockAt, Place, ProcAt, StoredPlace};
use crate::locks::{InQueue, Lock};
use crate::resources::Resource;
use crate::rows::StoredState;
use slab::Slab;
use vlm_collections::{LAST_HANDLE, LinkedList, Links, MaybeAt};
use vlm_words::resources::Queue;

/// The locks and the resources. Each lock is in one queue of a resource, or loose: in no queue.
#[derive(Drop)]
pub struct Queues {
    /// All locks, of all processes.
    pub locks: Slab<Lock>,
    /// All resources, also those that have no lock yet or no lock left.
    pub resources: Slab<Resource>,
}

impl Queues {
    /// The list of a place; an empty list if the resource does not exist.
    pub fn list(&self, place: Place) -> LinkedList<InQueue>
        ensures { result ≡ list_at self.now place }
    {
        let (res, queue) = place.parts();
        match self.resources.get(res.slot()) {
            Some(resource) => resource.list(queue),
            None => LinkedList::new(),
        }
    }

    // Takes a lock out of its queue.
    fn take_off(&mut self, at: usize)
        requires placed { IsPlaced self.old None }
        requires present { ContainsKey self.old.locks at }
        requires in_queue { IsSome (noted self.old at) }
        ensures placed { IsPlaced self.new (Some at) }
        ensures handles { (place : Place) → handles_at self.new place
            ≡ without at (handles_at self.old place) }
        ensures relinks { Relinks with_queue_links self.old.locks self.new.locks }
        ensures kept { Keeps but_requeued but_lists self.old self.new }
    {
        let (res, queue) = self.locks[at].place.parts();
        self.resources[res.slot()].unlink(&mut self.locks, queue, at);
    }

    // Puts a lock that is in no queue at the end of the queue that its record names.
    fn push_at(&mut self, at: usize, place: &Place)
        requires placed { IsPlaced self.old (Some at) }
        requires noted { noted self.old at ≡ Some place.now }
        requires present { ContainsKey self.old.locks at }
        requires within { at ≤ LAST_HANDLE }
        requires there { IsThere self.old.resources place.now }
        ensures placed { IsPlaced self.new None }
        ensures here { handles_at self.new place.now ≡ handles_at self.old place.now ++ at ∷ [] }
        ensures elsewhere { (other : Place) → other ≢ place.now
            → handles_at self.new other ≡ handles_at self.old other }
        ensures rows { (other : ℕ) → rows self.new other ≡ rows self.old other }
        ensures kept { Keeps but_requeued but_lists self.old self.new }
    {
        let (res, queue) = place.parts();
        self.resources[res.slot()].push_back(&mut self.locks, queue, at);
    }

    // Writes a queue into a lock's record, and puts the lock at the end of that queue.
    fn put_at(&mut self, at: usize, place: Place)
        requires placed { IsPlaced self.old (Some at) }
        requires present { ContainsKey self.old.locks at }
        requires in_queue { IsSome (noted self.old at) }
        requires within { at ≤ LAST_HANDLE }
        requires there { IsThere self.old.resources place }
        ensures placed { IsPlaced self.new None }
        ensures here { handles_at self.new place ≡ handles_at self.old place ++ at ∷ [] }
        ensures elsewhere { (other : Place) → other ≢ place
            → handles_at self.new other ≡ handles_at self.old other }
        ensures rows { (other : ℕ) → rows self.new other ≡ rows self.old other }
        ensures kept { Keeps but_requeued but_lists self.old self.new }
    {
        self.set_place(at, place);
        self.push_at(at, &place);
    }

    fn set_place(&mut self, at: usize, place: Place)
        requires present { ContainsKey self.old.locks at }
        requires in_queue { IsSome (noted self.old at) }
        ensures here { noted self.new at ≡ Some place }
        ensures rest { SameBut but_place self.old.locks self.new.locks }
        ensures lock { WritesLock at self.old self.new }
    {
        self.locks[at].place = StoredPlace::of(place);
    }

    fn write_row(&mut self, at: usize, row: &StoredState)
        requires present { ContainsKey self.old.locks at }
        requires named { named_row (rows self.old at) ≡ named_row row.now }
        ensures here { rows self.new at ≡ row.now }
        ensures rest { SameBut but_row self.old.locks self.new.locks }
        ensures lock { WritesLock at self.old self.new }
    {
        self.locks[at].row = *row;
    }

    fn is_last(&self, at: usize) -> bool
        requires placed { IsPlaced self.now None }
        requires present { ContainsKey self.now.locks at }
        requires in_queue { IsSome (noted self.now at) }
        ensures { OnTrue result (StandsLast self.now at) }
    {
        let place = self.locks[at].place.place();
        self.list(place).next(&self.locks, at).is_none()
    }

    // Whether a move changes no link: the lock is granted and last in its queue, goes to the end of that queue, and
    // keeps its armed rank.
    fn stays(&self, at: usize, row: &StoredState, to: &Place) -> bool
        requires placed { IsPlaced self.now None }
        requires present { ContainsKey self.now.locks at }
        requires in_queue { IsSome (noted self.now at) }
        ensures noted { OnTrue result (noted self.now at ≡ Some to.now) }
        ensures last { OnTrue result (StandsLast self.now at) }
        ensures armed { OnTrue result (armed_rank (rows self.now at) ≡ armed_rank row.now) }
    {
        let lock = &self.locks[at];
        let (from, Queue::Granted) = lock.place.parts() else {
            return false;
        };
        let (res, Queue::Granted) = to.parts() else {
            return false;
        };
        from == res && lock.row.armed_rank() == row.armed_rank() && self.is_last(at)
    }

    // Gives a lock another row in its place. The lists of armed locks must not change.
    fn rewrite(&mut self, at: usize, row: &StoredState)
        requires placed { IsPlaced self.old None }
        requires tallied { IsTallied self.old None }
        requires present { ContainsKey self.old.locks at }
        requires in_queue { IsSome (noted self.old at) }
        requires named { named_row (rows self.old at) ≡ named_row row.now }
        ensures { Rewrites at row.now self.old self.new }
    {
        self.recount(at, row);
        self.write_row(at, row);
    }

    // Gives a lock another row and moves it to the end of a queue. The lock is in no list of armed locks.
    fn requeue(&mut self, at: usize, row: &StoredState, to: Place)
        requires placed { IsPlaced self.old None }
        requires tallied { IsTallied self.old None }
        requires present { ContainsKey self.old.locks at }
        requires in_queue { IsSome (noted self.old at) }
        requires within { at ≤ LAST_HANDLE }
        requires there { IsThere self.old.resources to }
        requires named { named_row (rows self.old at) ≡ named_row row.now }
        ensures { Requeues at row.now to self.old self.new }
    {
        self.count_out(at);
        self.take_off(at);
        self.write_row(at, row);
        self.put_at(at, to);
        self.count_in(at);
    }

    /// Gives a lock another row and moves it to the end of a queue, which may be its own.
    pub fn move_to(&mut self, at: usize, row: &StoredState, to: Place)
        requires laid_out { IsLaidOut self.old }
        requires present { ContainsKey self.old.locks at }
        requires in_queue { IsSome (noted self.old at) }
        requires within { at ≤ LAST_HANDLE }
        requires there { IsThere self.old.resources to }
        requires named { named_row (rows self.old at) ≡ named_row row.now }
        ensures { Moves at row.now to self.old self.new }
    {
        if self.stays(at, row, &to) {
            self.rewrite(at, row);
        } else {
            self.leave_armed(at);
            self.requeue(at, row, to);
            self.join_armed(at);
        }
    }

    /// Disarms a lock, which keeps its place.
    pub fn disarm(&mut self, at: usize)
        requires laid_out { IsLaidOut self.old }
        requires present { ContainsKey self.old.locks at }
        requires in_queue { IsSome (noted self.old at) }
        ensures laid_out { IsLaidOut self.new }
        ensures handles { (place : Place) → handles_at self.new place ≡ handles_at self.old place }
        ensures row { rows self.new at ≡ record (rows self.old at) { armed = false } }
        ensures rows { (other : ℕ) → other ≢ at → rows self.new other ≡ rows self.old other }
        ensures kept { Keeps but_queued but_queues self.old self.new }
        ensures loose { LooseStay self.old self.new }
        ensures wait_list { SameBut wait_list_links self.old.locks self.new.locks }
    {
        self.leave_armed(at);
        let row = self.locks[at].row.disarmed();
        self.rewrite(at, &row);
    }

    /// Adds a lock at the end of a queue. The caller made the room, and adds the lock to its process, its parent lock
    /// and the wait list.
    pub fn add(
        &mut self,
        row: &StoredState,
        owner: ProcAt,
        parent: Option<LockAt>,
        to: Place,
    ) -> usize
        requires laid_out { IsLaidOut self.old }
        requires room { HasRoomFor self.old.locks 1 }
        requires within { self.old.locks.vacant_key ≤ LAST_HANDLE }
        requires there { IsThere self.old.resources to }
        requires parent { ForSome parent (λ up. up ≤ LAST_HANDLE) }
        ensures { Adds result row.now (new_lock row.now owner parent) to self.old self.new }
    {
        let at = self.locks.insert_reserved(Lock {
            row: *row,
            place: StoredPlace::of(to),
            loose: false,
            in_queue: Links::none(),
            in_above_nl: Links::none(),
            in_above_cr: Links::none(),
            in_wait_list: Links::none(),
            owner,
            of_process: Links::none(),
            parent: MaybeAt::of(parent),
            of_parent: Links::none(),
            sublocks: LinkedList::new(),
        });
        self.push_at(at, &to);
        self.count_in(at);
        self.join_armed(at);
        at
    }

    /// Removes a lock from its resource, with its record. The caller has taken it out of all other lists.
    pub fn remove(&mut self, at: usize)
        requires laid_out { IsLaidOut self.old }
        requires present { ContainsKey self.old.locks at }
        requires in_queue { IsSome (noted self.old at) }
        ensures { Removes at self.old self.new }
    {
        self.leave_armed(at);
        self.count_out(at);
        self.take_off(at);
        self.locks.remove(at);
    }

    /// Takes a lock out of its queue, with its record. It is then loose.
    pub fn unlink(&mut self, at: usize)
        requires laid_out { IsLaidOut self.old }
        requires present { ContainsKey self.old.locks at }
        requires in_queue { IsSome (noted self.old at) }
        ensures { Unlinks at self.old self.new }
    {
        self.leave_armed(at);
        self.count_out(at);
        self.take_off(at);
        self.locks[at].loose = true;
    }

    /// Puts a loose lock at the end of a queue.
    pub fn push_back(&mut self, at: usize, to: Place)
        requires laid_out { IsLaidOut self.old }
        requires loose { is_loose_in (get self.old.locks at) ≡ true }
        requires within { at ≤ LAST_HANDLE }
        requires there { IsThere self.old.resources to }
        ensures { PushesBack at to self.old self.new }
    {
        let lock = &mut self.locks[at];
        lock.loose = false;
        lock.place = StoredPlace::of(to);
        self.push_at(at, &to);
        self.count_in(at);
        self.join_armed(at);
    }
}
