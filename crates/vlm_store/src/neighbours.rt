//! Walks over the locks of a process, and over the sublocks of a lock. Each call takes constant time.

ghost use Rattle.std.specs.Prelude.{◌≡◌, ℕ, None};
ghost use Rattle.vlm_collections.specs.Lists.{IsIn, first_handle, handle_after, handle_before, last_handle};
ghost use Rattle.vlm_store.specs.Records.{HasNoParent, HasProcess, IsSound, IsStored, own_handles_at, sublocks_at};

use crate::store::Store;
use vlm_records::{LockAt, ProcAt};

impl Store {
    /// The first lock of a process, in the order of making, if it has any.
    pub fn first_own(&self, process: ProcAt) -> Option<LockAt>
        requires { HasProcess process self.now }
        ensures first { result ≡ first_handle (own_handles_at process self.now) }
        ensures sound { IsSound self.now }
    {
        let own = self.processes[process.slot()].own;
        let at = own.first(&self.queues.locks)?;
        Some(LockAt::of(at))
    }

    /// The last lock of a process, in the order of making, if it has any.
    pub fn last_own(&self, process: ProcAt) -> Option<LockAt>
        requires { HasProcess process self.now }
        ensures { result ≡ last_handle (own_handles_at process self.now) }
    {
        let own = self.processes[process.slot()].own;
        let at = own.last(&self.queues.locks)?;
        Some(LockAt::of(at))
    }

    /// The next lock of the same process, in the order of making, if there is one.
    pub fn next_own(&self, lock: LockAt) -> Option<LockAt>
        requires { IsStored lock self.now }
        ensures next { (process : ℕ) → IsIn lock (own_handles_at process self.now)
            → result ≡ handle_after lock (own_handles_at process self.now) }
        ensures sound { IsSound self.now }
    {
        let owner = self.queues.locks[lock.slot()].owner;
        let own = self.processes[owner.slot()].own;
        let at = own.next(&self.queues.locks, lock.slot())?;
        Some(LockAt::of(at))
    }

    /// The previous lock of the same process, in the order of making, if there is one.
    pub fn previous_own(&self, lock: LockAt) -> Option<LockAt>
        requires { IsStored lock self.now }
        ensures { (process : ℕ) → IsIn lock (own_handles_at process self.now)
            → result ≡ handle_before lock (own_handles_at process self.now) }
    {
        let owner = self.queues.locks[lock.slot()].owner;
        let own = self.processes[owner.slot()].own;
        let at = own.previous(&self.queues.locks, lock.slot())?;
        Some(LockAt::of(at))
    }

    /// The first sublock of a lock, in the order of making, if it has any.
    pub fn first_sublock(&self, lock: LockAt) -> Option<LockAt>
        requires { IsStored lock self.now }
        ensures first { result ≡ first_handle (sublocks_at lock self.now) }
        ensures sound { IsSound self.now }
    {
        let sublocks = self.queues.locks[lock.slot()].sublocks;
        let at = sublocks.first(&self.queues.locks)?;
        Some(LockAt::of(at))
    }

    /// The next sublock of the same parent lock, in the order of making, if there is one.
    pub fn next_sublock(&self, lock: LockAt) -> Option<LockAt>
        requires { IsStored lock self.now }
        ensures after { (parent : ℕ) → IsIn lock (sublocks_at parent self.now)
            → result ≡ handle_after lock (sublocks_at parent self.now) }
        ensures root { HasNoParent lock self.now → result ≡ None }
    {
        let Some(parent) = self.queues.locks[lock.slot()].parent.get() else {
            return None;
        };
        let sublocks = self.queues.locks[parent.slot()].sublocks;
        let at = sublocks.next(&self.queues.locks, lock.slot())?;
        Some(LockAt::of(at))
    }
}
