//! The record of a resource, and how one is made and removed.

ghost use Rattle.std.specs.Prelude.{◌≡◌, ◌≢◌, ◌≤◌, ◌+◌, ℕ, [], ◌∷◌, ◌++◌, refl};
ghost use Rattle.slab.specs.Slab.{get, ContainsKey, HasRoomFor};
ghost use Rattle.vlm_collections.specs.Lists.{IsIn, IsLinked, Lists, Relinks, first_handle, handle_after, handles_of, without};
ghost use Rattle.vlm_words.specs.declared.resources.Queue.{Queue};
ghost use Rattle.vlm_records.specs.declared.handles.Place.{Place};
ghost use Rattle.vlm_records.specs.Armed.{IsLaidOut, armed_links, list_of, with_armed_links, with_list};
ghost use Rattle.vlm_records.specs.Shown.{SameBut, but_value_block, face_in, handles_at, new_face, order_links, room_in};
ghost use Rattle.vlm_records.specs.Changes.{AddsResource, RemovesResource};

use crate::handles::Armed;
use crate::locks::{InAboveCr, InAboveNl, InQueue, Lock};
use crate::queues::Queues;
use crate::tallies::Tally;
use slab::Slab;
use vlm_collections::{LAST_HANDLE, Linked, LinkedList, Links};
use vlm_words::resources::{Domain, Key, Queue, Site, ValueBlock};

/// Marks the order of making, of resources and of processes.
pub struct InOrder;

/// The record of a resource, at most 236 bytes.
#[derive(Clone, Copy)]
pub struct Resource {
    pub(crate) in_order: Links,
    // the locks that hold a mode and want nothing; a lock whose request is granted or cancelled joins at the end
    pub(crate) granted: LinkedList<InQueue>,
    // the locks that hold a mode and want another, oldest request first
    pub(crate) converting: LinkedList<InQueue>,
    // the locks that hold nothing and want a mode, oldest request first
    pub(crate) waiting: LinkedList<InQueue>,
    /// Counts of its locks by mode: those that hold each mode, and those that want it.
    pub tally: Tally,
    /// The hash of its key. It is kept, so that a removal need not hash the key again.
    pub hash: u32,
    /// Its serial: the number of its making, from 1.
    pub serial: u32,
    /// The domain of its root.
    pub domain: Domain,
    pub key: Key,
    // the granted locks that are armed and hold more than NL, in the order of the granted queue
    pub(crate) armed_above_nl: LinkedList<InAboveNl>,
    // the granted locks that are armed and hold more than CR, in the same order
    pub(crate) armed_above_cr: LinkedList<InAboveCr>,
    /// 0 for a root, at most 15.
    pub level: u8,
    /// Its value block, valid or not.
    pub value_block: ValueBlock,
}

impl Linked<InOrder> for Resource {
    ghost links = { λ r. r.in_order };

    ghost with_links = { λ r pair. record r { in_order = pair } };

    ghost links_written = { λ r pair. refl };

    ghost written_twice = { λ r a b. refl };

    ghost written_as_was = { λ r. refl };

    fn links(&self) -> Links {
        self.in_order
    }

    fn set_links(&mut self, pair: Links) {
        self.in_order = pair;
    }
}

impl Resource {
    ghost use Rattle.vlm_records.specs.Shown.{queue_links, queue_list, with_queue_links, with_queue_list};

    pub(crate) fn list(&self, queue: Queue) -> LinkedList<InQueue>
        ensures { result ≡ queue_list queue self.now }
    {
        match queue {
            Queue::Granted => self.granted,
            Queue::Conversion => self.converting,
            Queue::Waiting => self.waiting,
        }
    }

    pub(crate) fn unlink(&mut self, locks: &mut Slab<Lock>, queue: Queue, at: usize)
        requires { Lists queue_links locks.old (queue_list queue self.old) at }
        ensures linked { IsLinked queue_links locks.new (queue_list queue self.new) }
        ensures handles { handles_of queue_links locks.new (queue_list queue self.new)
            ≡ without at (handles_of queue_links locks.old (queue_list queue self.old)) }
        ensures others { (other : ℕ)
            → ¬ IsIn other (handles_of queue_links locks.old (queue_list queue self.old))
            → get locks.new other ≡ get locks.old other }
        ensures relinks { Relinks with_queue_links locks.old locks.new }
        ensures rest { self.new ≡ with_queue_list queue (queue_list queue self.new) self.old }
    {
        match queue {
            Queue::Granted => self.granted.unlink(locks, at),
            Queue::Conversion => self.converting.unlink(locks, at),
            Queue::Waiting => self.waiting.unlink(locks, at),
        }
    }

    pub(crate) fn push_back(&mut self, locks: &mut Slab<Lock>, queue: Queue, at: usize)
        requires linked { IsLinked queue_links locks.old (queue_list queue self.old) }
        requires present { ContainsKey locks.old at }
        requires within { at ≤ LAST_HANDLE }
        requires unlisted { ¬ IsIn at (handles_of queue_links locks.old (queue_list queue self.old)) }
        ensures linked { IsLinked queue_links locks.new (queue_list queue self.new) }
        ensures handles { handles_of queue_links locks.new (queue_list queue self.new)
            ≡ handles_of queue_links locks.old (queue_list queue self.old) ++ at ∷ [] }
        ensures others { (other : ℕ)
            → ¬ IsIn other (handles_of queue_links locks.old (queue_list queue self.old))
            → other ≢ at → get locks.new other ≡ get locks.old other }
        ensures relinks { Relinks with_queue_links locks.old locks.new }
        ensures rest { self.new ≡ with_queue_list queue (queue_list queue self.new) self.old }
    {
        match queue {
            Queue::Granted => self.granted.push_back(locks, at),
            Queue::Conversion => self.converting.push_back(locks, at),
            Queue::Waiting => self.waiting.push_back(locks, at),
        }
    }

    #[inline(always)]
    pub(crate) fn unlink_armed(&mut self, locks: &mut Slab<Lock>, which: Armed, at: usize)
        requires { Lists (armed_links which) locks.old (list_of which self.old) at }
        ensures linked { IsLinked (armed_links which) locks.new (list_of which self.new) }
        ensures handles { handles_of (armed_links which) locks.new (list_of which self.new)
            ≡ without at (handles_of (armed_links which) locks.old (list_of which self.old)) }
        ensures others { (other : ℕ)
            → ¬ IsIn other (handles_of (armed_links which) locks.old (list_of which self.old))
            → get locks.new other ≡ get locks.old other }
        ensures relinks { Relinks (with_armed_links which) locks.old locks.new }
        ensures rest { self.new ≡ with_list which (list_of which self.new) self.old }
    {
        match which {
            Armed::AboveNl => self.armed_above_nl.unlink(locks, at),
            Armed::AboveCr => self.armed_above_cr.unlink(locks, at),
        }
    }

    #[inline(always)]
    pub(crate) fn push_back_armed(&mut self, locks: &mut Slab<Lock>, which: Armed, at: usize)
        requires linked { IsLinked (armed_links which) locks.old (list_of which self.old) }
        requires present { ContainsKey locks.old at }
        requires within { at ≤ LAST_HANDLE }
        requires unlisted { ¬ IsIn at (handles_of (armed_links which) locks.old (list_of which self.old)) }
        ensures linked { IsLinked (armed_links which) locks.new (list_of which self.new) }
        ensures handles { handles_of (armed_links which) locks.new (list_of which self.new)
            ≡ handles_of (armed_links which) locks.old (list_of which self.old) ++ at ∷ [] }
        ensures others { (other : ℕ)
            → ¬ IsIn other (handles_of (armed_links which) locks.old (list_of which self.old))
            → other ≢ at → get locks.new other ≡ get locks.old other }
        ensures relinks { Relinks (with_armed_links which) locks.old locks.new }
        ensures rest { self.new ≡ with_list which (list_of which self.new) self.old }
    {
        match which {
            Armed::AboveNl => self.armed_above_nl.push_back(locks, at),
            Armed::AboveCr => self.armed_above_cr.push_back(locks, at),
        }
    }

    pub fn first_armed(&self, locks: &Slab<Lock>, which: Armed) -> Option<usize>
        requires { IsLinked (armed_links which) locks.now (list_of which self.now) }
        ensures { result ≡ first_handle (handles_of (armed_links which) locks.now (list_of which self.now)) }
    {
        match which {
            Armed::AboveNl => self.armed_above_nl.first(locks),
            Armed::AboveCr => self.armed_above_cr.first(locks),
        }
    }

    pub fn next_armed(&self, locks: &Slab<Lock>, which: Armed, at: usize) -> Option<usize>
        requires { Lists (armed_links which) locks.now (list_of which self.now) at }
        ensures { result ≡ handle_after at (handles_of (armed_links which) locks.now (list_of which self.now)) }
    {
        match which {
            Armed::AboveNl => self.armed_above_nl.next(locks, at),
            Armed::AboveCr => self.armed_above_cr.next(locks, at),
        }
    }
}

impl Queues {
    /// Adds a resource without locks, last in the order of making. The caller made the room.
    pub fn add_resource(
        &mut self,
        order: &mut LinkedList<InOrder>,
        serial: u32,
        site: &Site,
        hash: u32,
    ) -> usize
        requires laid_out { IsLaidOut self.old }
        requires linked { IsLinked order_links self.old.resources order.old }
        requires room { HasRoomFor self.old.resources 1 }
        requires within { self.old.resources.vacant_key ≤ LAST_HANDLE }
        ensures { AddsResource result (new_face serial site.now hash) order.old order.new self.old self.new }
    {
        let at = self.resources.insert_reserved(Resource {
            serial,
            domain: site.domain,
            key: site.key,
            hash,
            level: site.level,
            value_block: ValueBlock::new(),
            granted: LinkedList::new(),
            converting: LinkedList::new(),
            waiting: LinkedList::new(),
            armed_above_nl: LinkedList::new(),
            armed_above_cr: LinkedList::new(),
            tally: Tally::new(),
            in_order: Links::none(),
        });
        order.push_back(&mut self.resources, at);
        at
    }

    pub fn remove_resource(&mut self, order: &mut LinkedList<InOrder>, res: usize)
        requires laid_out { IsLaidOut self.old }
        requires linked { IsLinked order_links self.old.resources order.old }
        requires listed { IsIn res (handles_of order_links self.old.resources order.old) }
        requires idle { (queue : Queue) → handles_at self.old (Place.Queued res queue) ≡ [] }
        ensures { RemovesResource res order.old order.new self.old self.new }
    {
        order.unlink(&mut self.resources, res);
        self.resources.remove(res);
    }

    pub fn set_value_block(&mut self, res: usize, value_block: ValueBlock)
        requires laid_out { IsLaidOut self.old }
        requires there { ContainsKey self.old.resources res }
        ensures laid_out { IsLaidOut self.new }
        ensures handles { (place : Place) → handles_at self.new place ≡ handles_at self.old place }
        ensures locks { self.new.locks ≡ self.old.locks }
        ensures rest { SameBut but_value_block self.old.resources self.new.resources }
        ensures face { face_in (get self.new.resources res)
            ≡ record (face_in (get self.old.resources res)) { value_block = value_block } }
        ensures faces { (other : ℕ) → other ≢ res
            → get self.new.resources other ≡ get self.old.resources other }
        ensures resources_room { room_in self.new.resources ≡ room_in self.old.resources }
    {
        self.resources[res].value_block = value_block;
    }
}
