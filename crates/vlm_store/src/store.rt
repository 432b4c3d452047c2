//! The store: its fields, and its locks and resources.

ghost use Rattle.std.specs.Prelude.{◌≡◌, ◌||◌, [], ◌∷◌, ◌++◌, length, map, IfOk, IfSome, IsOk, OnErr, OnOk};
ghost use Rattle.std.specs.List.{list_any};
ghost use Rattle.std.specs.Bool.{OnFalse, OnTrue};
ghost use Rattle.std.specs.Option.{ForSome};
ghost use Rattle.vlm_words.specs.declared.locks.LockState.{LockState};
ghost use Rattle.vlm_collections.specs.Lists.{IsIn, handle_before};
ghost use Rattle.vlm_records.specs.declared.handles.Place.{Place};
ghost use Rattle.vlm_words.specs.Rows.{blocks_request};
ghost use Rattle.vlm_store.specs.Index.{hash_key};
ghost use Rattle.vlm_store.specs.Held.{held_counts};
ghost use Rattle.vlm_store.specs.Records.{AreSound, FindsLock, FindsResource, HasNoSublocks, HasPlace, HasResource, HasRoomForLock, HasRoomForResource, HasSlot, IsGivenBack, IsLock, IsLoose, IsLooseRow, IsTaken, IsUnchanged, IsParentOf, IsProcess, at_after, disarming, first_at, first_resource_at, fits_beside, resource_at_after, resource_at, rows_of_locks, IsIdle, IsNewKey, IsNewLock, IsRowOf, IsSound, IsStored, Stores, locks_at, moving, NoneIsLoose, new_stored_resource, nothing, on_resource, queued, with_lists, with_lock_pushed, with_lock_unlinked, with_lock_room, with_new_lock, with_resource_room, without_resource, without_stored_lock};
ghost use Rattle.vlm_store.specs.Total.{lock_total};

use crate::key_index::KeyIndex;
use indexmap::IndexMap;
use slab::Slab;
use std::alloc::{AllocError, Global};
use std::marker::Model;
use vlm_collections::{HashKeys, HashSpread, LinkedList, PartedIndex, reserve_slot};
use vlm_records::{
    InOrder, InWaitList, Lock, LockAt, LockKind, NodeMarks, Place, ProcAt, Process, Queues, ResAt,
    Resource, StoredState, join_parent, join_process, join_wait_list, leave_parent, leave_process,
    leave_wait_list,
};
use vlm_words::modes::Mode;
use vlm_words::resources::{Key, Queue, Site, ValueBlock};

/// All records of the machine. A call takes constant time, except those that make room (`reserve_lock`, `add_lock`,
/// `add_resource`, `add_process`, `new_status_blocks`, `owe`), and `nth_process`, which walks.
pub struct Store {
    // makes status blocks and the room for ASTs; slabs and indexes have a copy
    pub(crate) alloc: Global,
    pub(crate) queues: Queues,
    // the locks whose requests are queued, on all resources
    pub(crate) wait_list: LinkedList<InWaitList>,
    // the resources in the order of making
    order: LinkedList<InOrder>,
    // the living processes
    pub(crate) processes: Slab<Process>,
    pub(crate) process_order: LinkedList<InOrder>,
    // the indexes: of locks and of living processes by ID, of resources by key
    lock_index: PartedIndex<LockKind>,
    resource_index: KeyIndex,
    pub(crate) process_index: IndexMap<u32, ProcAt, HashSpread>,
    // the keys of the hash for resources; callers choose names, so nobody should foresee their hashes
    keys: HashKeys,
    // for each node, its living processes
    pub(crate) living: NodeMarks,
    // for each node, its processes with a pending AST
    pub(crate) pending: NodeMarks,
}

// Written out: a drop is then one call in each owner of a store.
impl Drop for Store {
    fn drop(self) {
        let Store {
            alloc: _,
            queues: _,
            wait_list: _,
            order: _,
            processes: _,
            process_order: _,
            lock_index: _,
            resource_index: _,
            process_index: _,
            keys: _,
            living: _,
            pending: _,
        } = self;
    }
}

impl Model for Store {
    ghost use Rattle.vlm_store.specs.Records.{Records};

    ghost Value = { Records };

    ghost use Rattle.vlm_store.specs.Kept.{IsKept, records_shown};

    ghost view = { records_shown };

    ghost invariant = { IsKept };
}

impl Store {
    /// An empty store that hashes names by fixed keys. It takes no memory.
    pub fn new(alloc: Global) -> Store
        ensures empty { result ≡ record (nothing result.keys) { room = result.room } }
        ensures sound { IsSound result }
    {
        Store::with_keys(alloc, HashKeys::fixed())
    }

    /// An empty store that hashes names by these keys. It takes no memory. Callers choose names, so a caller who knows
    /// the keys could choose names with equal hashes.
    pub fn with_keys(alloc: Global, keys: HashKeys) -> Store
        ensures empty { result ≡ record (nothing result.keys) { room = result.room } }
        ensures keys { result.keys ≡ keys }
        ensures sound { IsSound result }
    {
        Store {
            alloc,
            queues: Queues {
                locks: Slab::new(alloc),
                resources: Slab::new(alloc),
            },
            wait_list: LinkedList::new(),
            order: LinkedList::new(),
            processes: Slab::new(alloc),
            process_order: LinkedList::new(),
            lock_index: PartedIndex::new(alloc),
            resource_index: KeyIndex::new(alloc),
            process_index: IndexMap::with_hasher(alloc, HashSpread::new()),
            keys,
            living: NodeMarks::new(alloc),
            pending: NodeMarks::new(alloc),
        }
    }

    /// The lock with this ID, if there is one.
    pub fn lock(&self, lkid: u32) -> Option<LockAt>
        ensures found { FindsLock self.now lkid result }
        ensures sound { IsSound self.now }
    {
        self.lock_index.get(lkid)
    }

    /// The hash of a key. Compute it once for a lookup and an add.
    pub fn hash_of(&self, key: &Key) -> u32
        ensures { result ≡ hash_key self.now.keys key.now }
    {
        let words = key.words();
        self.keys.hash_of(&words[..key.word_count()])
    }

    /// The resource with this key, if there is one.
    pub fn resource(&self, key: &Key, hash: u32) -> Option<ResAt>
        requires { hash ≡ hash_key self.now.keys key.now }
        ensures found { FindsResource self.now key.now result }
        ensures there { IfSome result (λ res. HasResource res self.now) }
        ensures sound { IsSound self.now }
    {
        self.resource_index.get(&self.queues.resources, key, hash)
    }

    /// The record of a lock: its row, its queue, its owner, its parent lock.
    pub fn lock_record(&self, lock: LockAt) -> &Lock
        requires { IsStored lock self.now }
        ensures row { Stores self.now lock result.now.row }
        ensures only { (row : LockState) → Stores self.now lock row → row ≡ result.now.row }
        ensures stands { IsIn (record { at = lock; row = result.now.row })
            (locks_at result.now.place self.now) }
        ensures there { HasPlace result.now.place self.now }
        ensures owner { IsProcess result.now.owner result.now.row.pid self.now }
        ensures sound { IsSound self.now }
    {
        &self.queues.locks[lock.slot()]
    }

    /// Makes room for one more lock with this ID, if there is no room.
    pub fn reserve_lock(&mut self, lkid: u32) -> Result<(), AllocError>
        ensures unchanged { IsUnchanged self.old self.new }
        ensures only { self.new ≡ with_lock_room self.new.room.locks self.old }
        ensures room { OnOk result (HasRoomForLock lkid self.new) }
        ensures succeeds { HasRoomForLock lkid self.old → IsOk result }
        ensures sound { IsSound self.old }
    {
        reserve_slot(&mut self.queues.locks)?;
        self.lock_index.reserve(lkid)
    }

    /// Adds a lock at the end of a queue, its process's locks and its parent's sublocks. `reserve_lock` made the room.
    pub fn add_lock_reserved(
        &mut self,
        row: &StoredState,
        owner: ProcAt,
        parent: Option<LockAt>,
        to: Place,
    ) -> LockAt
        requires room { HasRoomForLock row.now.lkid self.old }
        requires new { IsNewLock row.now.lkid self.old }
        requires owner { IsProcess owner row.now.pid self.old }
        requires parent { IsParentOf parent row.now self.old }
        requires there { HasPlace to self.old }
        ensures added { self.new ≡ with_lock_room self.new.room.locks
            (with_new_lock result row.now owner parent to self.old) }
        ensures fresh { ¬ IsLock result self.old }
        ensures taken { IsTaken self.old.room.locks self.new.room.locks }
        ensures sound { AreSound self.old self.new }
    {
        // a copy, since two of the calls take it
        let above = parent;
        let slot = self.queues.add(row, owner, parent, to);
        join_wait_list(&mut self.queues.locks, &mut self.wait_list, slot, &to);
        join_process(&mut self.processes, &mut self.queues.locks, slot, owner);
        join_parent(&mut self.queues.locks, slot, above);
        let at = LockAt::of(slot);
        let _ = self.lock_index.insert(row.lkid(), at);
        at
    }

    /// Adds a lock as `add_lock_reserved` does, and makes the room. If memory is refused or no handle is left, nothing
    /// is changed, except that there may be more room.
    pub fn add_lock(
        &mut self,
        row: &StoredState,
        owner: ProcAt,
        parent: Option<LockAt>,
        to: Place,
    ) -> Result<LockAt, AllocError>
        requires new { IsNewLock row.now.lkid self.old }
        requires owner { IsProcess owner row.now.pid self.old }
        requires parent { IsParentOf parent row.now self.old }
        requires there { HasPlace to self.old }
        ensures added { IfOk result (λ at. self.new ≡ with_lock_room self.new.room.locks
            (with_new_lock at row.now owner parent to self.old)) }
        ensures fresh { IfOk result (λ at. ¬ IsLock at self.old) }
        ensures taken { OnOk result (IsTaken self.old.room.locks self.new.room.locks) }
        ensures sound { OnOk result (AreSound self.old self.new) }
        ensures succeeds { HasRoomForLock row.now.lkid self.old → IsOk result }
        ensures err { OnErr result (IsUnchanged self.old self.new) }
    {
        self.reserve_lock(row.lkid())?;
        Ok(self.add_lock_reserved(row, owner, parent, to))
    }

    /// Moves a lock to the end of a queue, and writes its row. The old and the new queue may be the same.
    pub fn move_lock(&mut self, lock: LockAt, row: &StoredState, to: Place)
        requires lock { IsRowOf lock row.now self.old }
        requires there { HasPlace to self.old }
        ensures moved { self.new
            ≡ with_lists (moving to (record { at = lock; row = row.now })) self.old }
        ensures sound { AreSound self.old self.new }
    {
        let at = lock.slot();
        let from = self.queues.locks[at].place.place();
        leave_wait_list(&mut self.queues.locks, &mut self.wait_list, at, &from);
        self.queues.move_to(at, row, to);
        join_wait_list(&mut self.queues.locks, &mut self.wait_list, at, &to);
    }

    /// Disarms a lock, which keeps its place.
    pub fn disarm(&mut self, lock: LockAt)
        requires { IsStored lock self.old }
        ensures disarmed { self.new ≡ with_lists (disarming lock) self.old }
        ensures sound { AreSound self.old self.new }
    {
        self.queues.disarm(lock.slot());
    }

    /// Whether a lock is loose: in no queue.
    pub fn is_loose(&self, lock: LockAt) -> bool
        requires { IsLock lock self.now }
        ensures loose { OnTrue result (IsLoose lock self.now) }
        ensures queued { OnFalse result (IsStored lock self.now) }
    {
        self.queues.locks[lock.slot()].is_loose()
    }

    /// Takes a lock out of its queue. It stays a lock of its process, and is loose: in no queue.
    pub fn unlink(&mut self, lock: LockAt)
        requires { IsStored lock self.old }
        ensures unlinked { (row : LockState) → Stores self.old lock row
            → self.new ≡ with_lock_unlinked lock row self.old }
        ensures sound { AreSound self.old self.new }
    {
        let at = lock.slot();
        let from = self.queues.locks[at].place.place();
        leave_wait_list(&mut self.queues.locks, &mut self.wait_list, at, &from);
        self.queues.unlink(at);
    }

    /// Puts a loose lock at the end of a queue. It keeps its row.
    pub fn push_back(&mut self, lock: LockAt, to: Place)
        requires loose { IsLoose lock self.old }
        requires there { HasPlace to self.old }
        ensures pushed { (row : LockState) → IsLooseRow self.old lock row
            → self.new ≡ with_lock_pushed lock row to self.old }
        ensures sound { AreSound self.old self.new }
    {
        let at = lock.slot();
        self.queues.push_back(at, to);
        join_wait_list(&mut self.queues.locks, &mut self.wait_list, at, &to);
    }

    /// Removes a lock without sublocks from all its lists. The index may have to grow for the next lock.
    pub fn remove_lock(&mut self, lock: LockAt)
        requires stored { IsStored lock self.old }
        requires childless { HasNoSublocks lock self.old }
        ensures removed { self.new
            ≡ with_lock_room self.new.room.locks (without_stored_lock lock self.old) }
        ensures given_back { IsGivenBack self.old.room.locks self.new.room.locks }
        ensures sound { AreSound self.old self.new }
    {
        let at = lock.slot();
        let Lock {
            row,
            place,
            owner,
            parent,
            ..
        } = self.queues.locks[at];
        leave_parent(&mut self.queues.locks, at, parent.get());
        leave_process(&mut self.processes, &mut self.queues.locks, at, owner);
        leave_wait_list(
            &mut self.queues.locks,
            &mut self.wait_list,
            at,
            &place.place(),
        );
        self.queues.remove(at);
        self.lock_index.remove(row.lkid());
    }

    // Makes room for one more record of a resource, if there is no room.
    fn reserve_resource(&mut self) -> Result<(), AllocError>
        ensures unchanged { IsUnchanged self.old self.new }
        ensures only { self.new ≡ with_resource_room self.new.room.resources self.old }
        ensures room { OnOk result (HasSlot self.new.room.resources) }
        ensures succeeds { HasSlot self.old.room.resources → IsOk result }
        ensures sound { IsSound self.old }
    {
        reserve_slot(&mut self.queues.resources)
    }

    /// Adds a resource without locks, last in order, its value block valid zeros. `hash_of` gives the hash. If memory
    /// is refused or no handle is left, nothing is changed, except that there may be more room.
    pub fn add_resource(&mut self, serial: u32, site: &Site, hash: u32) -> Result<ResAt, AllocError>
        requires new { IsNewKey site.now.key self.old }
        requires hash { hash ≡ hash_key self.old.keys site.now.key }
        ensures added { IfOk result (λ res. self.new
            ≡ with_resource_room self.new.room.resources (record self.old {
              resources = self.old.resources ++ new_stored_resource res serial site.now ∷ [];
            })) }
        ensures fresh { IfOk result (λ res. ¬ HasResource res self.old) }
        ensures taken { OnOk result (IsTaken self.old.room.resources self.new.room.resources) }
        ensures sound { OnOk result (AreSound self.old self.new) }
        ensures err { OnErr result (IsUnchanged self.old self.new) }
        ensures succeeds { HasRoomForResource hash self.old → IsOk result }
    {
        self.reserve_resource()?;
        // The index has the handle first, since nothing after it needs memory.
        let res = ResAt::of(self.queues.resources.vacant_key());
        self.resource_index.insert(&site.key, hash, res)?;
        self.queues
            .add_resource(&mut self.order, serial, site, hash);
        Ok(res)
    }

    /// The first lock of a queue, if there is one.
    pub fn first(&self, place: Place) -> Option<LockAt>
        requires { HasPlace place self.now }
        ensures first { result ≡ first_at (locks_at place self.now) }
        ensures sound { IsSound self.now }
    {
        let at = self.queues.list(place).first(&self.queues.locks)?;
        Some(LockAt::of(at))
    }

    /// The next lock in the queue of this lock, if there is one.
    pub fn next(&self, lock: LockAt) -> Option<LockAt>
        requires { IsStored lock self.now }
        ensures { (place : Place) (row : LockState)
            → IsIn (record { at = lock; row = row }) (locks_at place self.now)
            → result ≡ at_after lock (locks_at place self.now) }
    {
        let list = self
            .queues
            .list(self.queues.locks[lock.slot()].place.place());
        let at = list.next(&self.queues.locks, lock.slot())?;
        Some(LockAt::of(at))
    }

    /// The previous lock in the queue of this lock, if there is one.
    pub fn previous(&self, lock: LockAt) -> Option<LockAt>
        requires { IsStored lock self.now }
        ensures { (place : Place) (row : LockState)
            → IsIn (record { at = lock; row = row }) (locks_at place self.now)
            → result ≡ handle_before lock (map (λ k. k.at) (locks_at place self.now)) }
    {
        let list = self
            .queues
            .list(self.queues.locks[lock.slot()].place.place());
        let at = list.previous(&self.queues.locks, lock.slot())?;
        Some(LockAt::of(at))
    }

    /// How many resources exist.
    pub fn resource_count(&self) -> usize
        ensures { result ≡ length self.now.resources }
    {
        self.order.len(&self.queues.resources)
    }

    /// How many locks exist, of all processes.
    pub fn lock_count(&self) -> usize
        ensures { NoneIsLoose self.now → result ≡ lock_total self.now }
    {
        self.queues.locks.len()
    }

    /// How many processes live.
    pub fn process_count(&self) -> usize
        ensures { result ≡ length self.now.processes }
    {
        self.process_order.len(&self.processes)
    }

    /// The first resource in the order of making, if there is one.
    pub fn first_resource(&self) -> Option<ResAt>
        ensures first { result ≡ first_resource_at self.now.resources }
        ensures sound { IsSound self.now }
    {
        let at = self.order.first(&self.queues.resources)?;
        Some(ResAt::of(at))
    }

    /// The next resource in the order of making, if there is one.
    pub fn next_resource(&self, res: ResAt) -> Option<ResAt>
        requires { HasResource res self.now }
        ensures next { result ≡ resource_at_after res self.now.resources }
        ensures sound { IsSound self.now }
    {
        let at = self.order.next(&self.queues.resources, res.slot())?;
        Some(ResAt::of(at))
    }

    /// The record of a resource: its serial, its site, its value block.
    pub fn resource_record(&self, res: ResAt) -> &Resource
        requires { HasResource res self.now }
        ensures serial { IfSome (resource_at res self.now.resources)
            (λ r. result.now.serial ≡ r.serial) }
        ensures key { IfSome (resource_at res self.now.resources) (λ r. result.now.key ≡ r.key) }
        ensures domain { IfSome (resource_at res self.now.resources)
            (λ r. result.now.domain ≡ r.domain) }
        ensures level { IfSome (resource_at res self.now.resources)
            (λ r. result.now.level ≡ r.level) }
        ensures value_block { IfSome (resource_at res self.now.resources)
            (λ r. result.now.value_block ≡ r.value_block) }
        ensures sound { IsSound self.now }
    {
        &self.queues.resources[res.slot()]
    }

    /// Writes the value block of a resource.
    pub fn set_value_block(&mut self, res: ResAt, value_block: ValueBlock)
        requires { HasResource res self.old }
        ensures written { self.new ≡ record self.old {
          resources = on_resource res (λ r. record r { value_block = value_block })
              self.old.resources;
        } }
        ensures sound { AreSound self.old self.new }
    {
        self.queues.set_value_block(res.slot(), value_block);
    }

    /// Removes a resource without locks. The index may have to grow for the next resource.
    // Kept out of line: inlined, it would cost registers in steps that remove nothing.
    #[inline(never)]
    pub fn remove_resource(&mut self, res: ResAt)
        requires there { HasResource res self.old }
        requires idle { IsIdle res self.old }
        ensures removed { self.new ≡ with_resource_room self.new.room.resources
            (record self.old { resources = without_resource res self.old.resources }) }
        ensures given_back { IsGivenBack self.old.room.resources self.new.room.resources }
        ensures sound { AreSound self.old self.new }
    {
        self.resource_index
            .remove(&self.queues.resources[res.slot()]);
        self.queues.remove_resource(&mut self.order, res.slot());
    }

    /// Whether the mode is compatible with each held mode except the asking lock's. It reads counts, not locks.
    #[inline(always)]
    pub fn can_hold(&self, res: ResAt, mode: Mode, except: Option<LockAt>) -> bool
        requires there { HasResource res self.now }
        requires except { ForSome except (λ lock. IsLock lock self.now) }
        ensures { IfSome (resource_at res self.now.resources) (λ r. result
            ≡ fits_beside mode except r) }
    {
        self.queues.fits(res, mode, except)
    }

    /// Whether this held mode is incompatible with a queued request of the resource. It reads counts, not locks.
    pub fn blocks_a_request(&self, res: ResAt, held: Mode) -> bool
        requires { HasResource res self.now }
        ensures { IfSome (resource_at res self.now.resources) (λ r. result
            ≡ (list_any (λ row. blocks_request held row.want) (rows_of_locks r.converting)
            || list_any (λ row. blocks_request held row.want) (rows_of_locks r.waiting))) }
    {
        self.queues.resources[res.slot()]
            .tally
            .blocks_a_request(held)
    }

    /// How many locks, granted or converting, hold each mode, from NL to EX. It reads counts, not locks.
    pub fn held_counts(&self, res: ResAt) -> [u32; 6]
        requires { HasResource res self.now }
        ensures { IfSome (resource_at res self.now.resources) (λ r. result
            ≡ held_counts (rows_of_locks r.granted ++ rows_of_locks r.converting)) }
    {
        self.queues.resources[res.slot()].tally.held()
    }

    /// How many locks are in a queue of the resource. It reads the length of the list.
    pub fn queue_length(&self, res: ResAt, queue: Queue) -> u32
        requires { HasResource res self.now }
        ensures { IfSome (resource_at res self.now.resources) (λ r. result
            ≡ length (queued queue r)) }
    {
        let list = self.queues.list(Place::Queued(res, queue));
        list.len(&self.queues.locks) as u32
    }
}
