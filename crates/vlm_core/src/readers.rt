//! The readers. They show processes with their status blocks and pending ASTs, resources with their queues, and how a
//! root is used. They take no memory, and change nothing.

ghost use Rattle.std.specs.Prelude.{◌≡◌, IfSome, IsNone, find, length, slice_get};
ghost use Rattle.std.specs.Option.{option_map};
ghost use Rattle.vlm_model.specs.Pending.{first_pending};
ghost use Rattle.vlm_model.specs.Quotas.{locks_of};
ghost use Rattle.vlm_words.specs.State.{process_of};
ghost use Rattle.vlm_model.specs.StatusBlocks.{status_block_at};
ghost use Rattle.vlm_procs.specs.Views.{process_view};
ghost use Rattle.vlm_queue.specs.Views.{resource_view, row_shown, usage};
ghost use Rattle.vlm_core.specs.Readers.{IsFirstPending, NonePendingBelow, after_first, all_locks, all_queued, has_pid, key_of, root_of};
ghost use Rattle.vlm_words.specs.Resources.{is_at};

use crate::public::Core;
use vlm_machine::living;
use vlm_model::laws::law_process_ids_rise;
use vlm_procs::{ProcessView, pending, process_at, status_block};
use vlm_queue::{ResourceView, RowView, Usage, resource_at, resource_view, row_at, usage_of};
use vlm_words::blocks::Block;
use vlm_words::names::Name;
use vlm_words::resources::{Domain, Key, Queue};

// The key of a resource; with parent 0 it is a root.
pub(crate) fn key_of(parent: u32, domain: Domain, name: Name) -> Key
    ensures { result ≡ key_of parent domain name }
{
    if parent == 0 {
        Key::Root(domain, name)
    } else {
        Key::Below(parent, name)
    }
}

impl Core {
    /// A process's status block with this number, from 1. `None` if no living process has the ID, or the
    /// process has no such block.
    #[tactic(auto, unfolding(vlm_model::specs::StatusBlocks::status_block_at))]
    pub fn block(&self, pid: u32, number: u8) -> Option<Block>
        ensures { result ≡ status_block_at self.now.processes pid number }
    {
        let caller = living(&self.machine.store, pid)?;
        status_block(&self.machine.store, caller.at, number)
    }

    /// How many queued ASTs a process has not taken; `None` if no living process has the ID.
    pub fn pending(&self, pid: u32) -> Option<usize>
        ensures { result ≡ option_map (λ p. length p.asts) (process_of self.now.processes pid) }
    {
        let caller = living(&self.machine.store, pid)?;
        Some(pending(&self.machine.store, caller.at))
    }

    /// The first living process of a node, in order of making, with a pending AST, if there is one. It takes constant
    /// time.
    pub fn pending_of(&self, node: u8) -> Option<u32>
        ensures { result ≡ first_pending node self.now.processes }
    {
        law_process_ids_rise();
        self.machine.store.pending_of(node)
    }

    /// The first process with a pending AST: of the first node with such a process, the first in order of making.
    /// `None` if no AST is pending. It takes constant time.
    pub fn first_pending(&self) -> Option<u32>
        ensures some { IfSome result (λ pid. IsFirstPending pid self.now.processes) }
        ensures none { IsNone result → NonePendingBelow 9 self.now.processes }
    {
        for node in 1..9 {
            if let Some(pid) = self.pending_of(node) {
                return Some(pid);
            }
        }
        None
    }

    /// How many processes live.
    pub fn process_count(&self) -> usize
        ensures { result ≡ length self.now.processes }
    {
        self.machine.store.process_count()
    }

    /// The living process at an index, from 0, in order of making: its declaration, and how many ASTs of it are
    /// pending. `None` after the last. The cost grows with the index.
    pub fn process_at(&self, index: usize) -> Option<ProcessView>
        ensures { result ≡ option_map process_view (slice_get self.now.processes index) }
    {
        process_at(&self.machine.store, index)
    }

    /// The next living process, in order of making, after the process with this ID. `None` if no living
    /// process has it; `Some(None)` after the last. It takes constant time.
    pub fn process_after(&self, pid: u32) -> Option<Option<ProcessView>>
        ensures { result ≡ option_map (λ rest. option_map process_view (slice_get rest 0))
            (after_first (has_pid pid) self.now.processes) }
    {
        let store = &self.machine.store;
        let at = store.process(pid)?;
        match store.next_process(at) {
            Some(process) => Some(Some(ProcessView::of(process))),
            None => Some(None),
        }
    }

    /// How many resources have locks.
    pub fn resource_count(&self) -> usize
        ensures { result ≡ length self.now.resources }
    {
        self.machine.store.resource_count()
    }

    /// How many locks there are, waiting ones included. It takes constant time.
    pub fn lock_count(&self) -> usize
        ensures { result ≡ all_locks self.now.resources }
    {
        self.machine.store.lock_count()
    }

    /// How many requests are queued: conversions and waiting locks. It takes constant time.
    pub fn queued_count(&self) -> usize
        ensures { result ≡ all_queued self.now.resources }
    {
        self.machine.store.queued_count()
    }

    /// How many locks a process has, waiting ones included; 0 if no living process has the ID. It takes
    /// constant time.
    pub fn own_count(&self, pid: u32) -> usize
        ensures { result ≡ locks_of pid self.now.resources }
    {
        match self.machine.store.process(pid) {
            Some(process) => self.machine.store.own_lock_count(process),
            None => 0,
        }
    }

    /// The resource at an index, from 0, by rising serial, with its value block and tail. `None` after the last. The
    /// cost grows with the index; [`Core::store`] goes from one resource to the next.
    pub fn resource_at(&self, index: usize) -> Option<ResourceView>
        ensures { result ≡ option_map resource_view (slice_get self.now.resources index) }
    {
        resource_at(&self.machine.store, index)
    }

    /// The resource of this name, with its value block and tail: below the resource with serial `parent`, or the root
    /// in the domain if `parent` is 0. `None` if it has no locks. It takes constant time.
    pub fn resource(&self, parent: u32, domain: Domain, name: Name) -> Option<ResourceView>
        ensures { result ≡ option_map resource_view
            (find (is_at (key_of parent domain name)) self.now.resources) }
    {
        let store = &self.machine.store;
        let key = key_of(parent, domain, name);
        let res = store.resource(&key, store.hash_of(&key))?;
        Some(resource_view(store, res))
    }

    /// The next resource by serial after the resource of this name, named as in [`Core::resource`]. `None` if there is
    /// no such resource; `Some(None)` if it is the last one. It takes constant time.
    pub fn resource_after(
        &self,
        parent: u32,
        domain: Domain,
        name: Name,
    ) -> Option<Option<ResourceView>>
        ensures { result ≡ option_map (λ rest. option_map resource_view (slice_get rest 0))
            (after_first (is_at (key_of parent domain name)) self.now.resources) }
    {
        let store = &self.machine.store;
        let key = key_of(parent, domain, name);
        let res = store.resource(&key, store.hash_of(&key))?;
        match store.next_resource(res) {
            Some(next) => Some(Some(resource_view(store, next))),
            None => Some(None),
        }
    }

    /// The lock at an index, from 0, of a queue of the resource at an index, from 0. `None` if one of them is after the
    /// last. The cost grows with both.
    pub fn row_at(&self, resource: usize, queue: Queue, index: usize) -> Option<RowView>
        ensures { result ≡ row_shown (slice_get self.now.resources resource) queue index }
    {
        row_at(&self.machine.store, resource, queue, index)
    }

    /// How the root resource of this name in this domain is used, and its value block without the tail. `None` if it
    /// has no locks. It reads only counts, so its cost does not grow with what is held.
    pub fn usage(&self, domain: Domain, name: Name) -> Option<Usage>
        ensures { result ≡ option_map usage (root_of self.now.resources domain name) }
    {
        let store = &self.machine.store;
        let key = Key::Root(domain, name);
        let res = store.resource(&key, store.hash_of(&key))?;
        Some(usage_of(store, res))
    }
}
