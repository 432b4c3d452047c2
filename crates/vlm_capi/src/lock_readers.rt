//! What a handle reads of single locks. Nothing changes, and without a core nothing is answered.

ghost use Rattle.vlm_core.specs.Blockers.{ShowsFirstBlocked, ShowsFirstBlocker, ShowsNextBlocked, ShowsNextBlocker};
ghost use Rattle.vlm_core.specs.Locks.{IsLaterOwn, IsLaterSublock, ShowsFirstOwn, ShowsFirstSublock, ShowsNamed, ShowsNextInQueue, ShowsNextOf, ShowsResourceOf};
ghost use Rattle.vlm_capi.specs.Shown.{Reads, ShowsFirstRow, ShowsFrom};
ghost use Rattle.vlm_capi.specs.Keys.{key_of, queue_of};

use crate::handle::Handle;
use crate::resource_keys::{key_of, queue_of};
use crate::shown::VlmResource;
use vlm_core::{LockView, ResourceView};

impl Handle {
    pub(crate) fn lock(&mut self, lkid: u32) -> Option<LockView>
        ensures { Reads (λ s. ShowsNamed s lkid) self.old.slot.held result self.new.slot.held }
    {
        self.with_core(|core| core.lock(lkid))?
    }

    pub(crate) fn resource_of_lock(&mut self, lkid: u32) -> Option<ResourceView>
        ensures { Reads (λ s. ShowsResourceOf s lkid) self.old.slot.held result self.new.slot.held }
    {
        self.with_core(|core| core.resource_of_lock(lkid))?
    }

    /// The first lock for which the request of a lock waits, or the next one after the lock `after`.
    pub(crate) fn blocker(&mut self, lkid: u32, after: Option<u32>) -> Option<Option<LockView>>
        ensures { Reads (λ s. ShowsFrom after (ShowsFirstBlocker s lkid) (ShowsNextBlocker s lkid)) self.old.slot.held
            result self.new.slot.held }
    {
        match after {
            None => self.with_core(|core| core.first_blocker(lkid))?,
            Some(after) => self.with_core(|core| core.next_blocker(lkid, after))?,
        }
    }

    /// The first lock whose request waits for a lock, or the next one after the lock `after`.
    pub(crate) fn blocked(&mut self, lkid: u32, after: Option<u32>) -> Option<Option<LockView>>
        ensures { Reads (λ s. ShowsFrom after (ShowsFirstBlocked s lkid) (ShowsNextBlocked s lkid)) self.old.slot.held
            result self.new.slot.held }
    {
        match after {
            None => self.with_core(|core| core.first_blocked(lkid))?,
            Some(after) => self.with_core(|core| core.next_blocked(lkid, after))?,
        }
    }

    pub(crate) fn first_own(&mut self, pid: u32) -> Option<Option<LockView>>
        ensures { Reads (λ s. ShowsFirstOwn s pid) self.old.slot.held result self.new.slot.held }
    {
        self.with_core(|core| core.first_own(pid))?
    }

    pub(crate) fn first_sublock(&mut self, lkid: u32) -> Option<Option<LockView>>
        ensures { Reads (λ s. ShowsFirstSublock s lkid) self.old.slot.held result self.new.slot.held }
    {
        self.with_core(|core| core.first_sublock(lkid))?
    }

    pub(crate) fn next_own(&mut self, lkid: u32) -> Option<Option<LockView>>
        ensures { Reads (λ s. ShowsNextOf s IsLaterOwn lkid) self.old.slot.held result self.new.slot.held }
    {
        self.with_core(|core| core.next_own(lkid))?
    }

    pub(crate) fn next_sublock(&mut self, lkid: u32) -> Option<Option<LockView>>
        ensures { Reads (λ s. ShowsNextOf s IsLaterSublock lkid) self.old.slot.held result self.new.slot.held }
    {
        self.with_core(|core| core.next_sublock(lkid))?
    }

    /// The first lock in a queue of the named resource. `Some(None)` if the queue is empty, `None` if there is no such
    /// resource or queue.
    pub(crate) fn first_row(&mut self, fields: &VlmResource, queue: u32) -> Option<Option<LockView>>
        ensures { Reads (λ s. ShowsFirstRow s (key_of fields.now) (queue_of queue)) self.old.slot.held result
            self.new.slot.held }
    {
        let queue = queue_of(queue)?;
        let key = key_of(fields)?;
        self.with_core(|core| core.first_in_queue(key.parent, key.domain, key.name, queue))?
    }

    pub(crate) fn next_row(&mut self, lkid: u32) -> Option<Option<LockView>>
        ensures { Reads (λ s. ShowsNextInQueue s lkid) self.old.slot.held result self.new.slot.held }
    {
        self.with_core(|core| core.next_in_queue(lkid))?
    }
}
