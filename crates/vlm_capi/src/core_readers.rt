//! What a handle reads of its core. Nothing changes, and without a core nothing is answered.

ghost use Rattle.std.specs.Prelude.{◌≡◌, ◌==◌, Some, false};
ghost use Rattle.vlm_capi.specs.Keys.{key_of};
ghost use Rattle.vlm_capi.specs.Lending.{core_of};
ghost use Rattle.vlm_capi.specs.Victims.{ReadsVictim};
ghost use Rattle.vlm_capi.specs.Shown.{Tells, block_shown, block_there, count_shown, found_shown, lock_count_shown, next_process_shown, next_resource_shown, pending_shown, process_count_shown, process_shown, queued_count_shown};

use crate::handle::Handle;
use crate::numbers::node_of;
use crate::resource_keys::key_of;
use crate::shown::VlmResource;
use vlm_core::{Core, ProcessView, ResourceView};
use vlm_words::blocks::Block;

impl Handle {
    /// A status block of a process. Numbers start at 1.
    #[tactic(auto, unfolding(crate::specs::Shown::block_shown))]
    pub(crate) fn block(&mut self, pid: u32, number: u32) -> Option<Block>
        ensures { Tells (block_shown (core_of self.old.slot.held) pid number) result
            self.old.slot.held self.new.slot.held }
    {
        if number > 255 {
            return None;
        }
        let number = number as u8;
        self.with_core(|core| core.block(pid, number))?
    }

    pub(crate) fn pending(&mut self, pid: u32) -> Option<usize>
        ensures { Tells (pending_shown (core_of self.old.slot.held) pid) result
            self.old.slot.held self.new.slot.held }
    {
        self.with_core(|core| core.pending(pid))?
    }

    pub(crate) fn process_count(&mut self) -> usize
        ensures { Tells (process_count_shown (core_of self.old.slot.held)) result
            self.old.slot.held self.new.slot.held }
    {
        self.with_core(|core| core.process_count()).unwrap_or(0)
    }

    /// The living process after the process with this ID, or with 0 the first one. `Some(None)` after the
    /// last one, `None` if no living process has the ID.
    pub(crate) fn next_process(&mut self, pid: u32) -> Option<Option<(ProcessView, usize)>>
        ensures { Tells (next_process_shown (core_of self.old.slot.held) (pid == 0) pid) result
            self.old.slot.held self.new.slot.held }
    {
        if pid == 0 {
            return self.with_core(|core| process_at(core, 0));
        }
        self.with_core(|core| process_after(core, pid))?
    }

    pub(crate) fn resource_count(&mut self) -> usize
        ensures { Tells (count_shown (core_of self.old.slot.held)) result
            self.old.slot.held self.new.slot.held }
    {
        self.with_core(|core| core.resource_count()).unwrap_or(0)
    }

    /// The status block of this number, or that there is none. `None` without a core.
    #[tactic(auto, unfolding(crate::specs::Shown::block_there))]
    pub(crate) fn status_block(&mut self, pid: u32, number: u32) -> Option<Option<Block>>
        ensures { Tells (block_there (core_of self.old.slot.held) pid number) result
            self.old.slot.held self.new.slot.held }
    {
        let number = node_of(number)?;
        self.with_core(|core| core.block(pid, number))
    }

    pub(crate) fn lock_count(&mut self) -> usize
        ensures { Tells (lock_count_shown (core_of self.old.slot.held)) result
            self.old.slot.held self.new.slot.held }
    {
        self.with_core(|core| core.lock_count()).unwrap_or(0)
    }

    pub(crate) fn queued_count(&mut self) -> usize
        ensures { Tells (queued_count_shown (core_of self.old.slot.held)) result
            self.old.slot.held self.new.slot.held }
    {
        self.with_core(|core| core.queued_count()).unwrap_or(0)
    }

    /// The lock whose request a search would end; `None` without a core.
    pub(crate) fn find_victim(&mut self) -> Option<Option<u32>>
        ensures told { ReadsVictim (core_of self.old.slot.held) result }
        ensures same { self.new.slot.held ≡ self.old.slot.held }
    {
        self.with_core(|core| core.find_victim())
    }

    pub(crate) fn find(&mut self, fields: &VlmResource) -> Option<ResourceView>
        ensures { Tells (found_shown (core_of self.old.slot.held) (key_of fields.now)) result
            self.old.slot.held self.new.slot.held }
    {
        let key = key_of(fields)?;
        self.with_core(|core| core.resource(key.parent, key.domain, key.name))?
    }

    /// The resource after the named resource, or with serial 0 the first one. `Some(None)` after the last one, `None`
    /// if there is no such resource.
    pub(crate) fn next_resource(&mut self, fields: &VlmResource) -> Option<Option<ResourceView>>
        ensures { Tells
            (next_resource_shown (core_of self.old.slot.held) (fields.now.serial == 0) (key_of fields.now))
            result self.old.slot.held self.new.slot.held }
    {
        if fields.serial == 0 {
            return self.with_core(|core| core.resource_at(0));
        }
        let key = key_of(fields)?;
        self.with_core(|core| core.resource_after(key.parent, key.domain, key.name))?
    }
}

fn process_at(core: &Core, index: usize) -> Option<(ProcessView, usize)>
    ensures { result ≡ process_shown (Some core.now) index }
{
    let process = core.process_at(index)?;
    let locks = core.own_count(process.pid);
    Some((process, locks))
}

fn process_after(core: &Core, pid: u32) -> Option<Option<(ProcessView, usize)>>
    ensures { result ≡ next_process_shown (Some core.now) false pid }
{
    match core.process_after(pid)? {
        Some(process) => {
            let locks = core.own_count(process.pid);
            Some(Some((process, locks)))
        }
        None => Some(None),
    }
}
