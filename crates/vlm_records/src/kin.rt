//! Locks join and leave the list of their process, and the sublocks of their parent lock.

ghost use Rattle.std.specs.Prelude.{◌≡◌, ◌≤◌, ℕ, Some, None};
ghost use Rattle.slab.specs.Slab.{get, ContainsKey};
ghost use Rattle.vlm_collections.specs.Lists.{Relinks, without};
ghost use Rattle.vlm_records.specs.Shown.{SameBut, room_in};
ghost use Rattle.vlm_records.specs.Kin.{IsBelow, IsOwned, below_handles, but_below, but_own, own_handles, owner_in, parent_in, with_own_links};
ghost use Rattle.vlm_records.specs.Changes.{JoinsParent, JoinsProcess};

use crate::handles::{LockAt, ProcAt};
use crate::locks::Lock;
use crate::processes::Process;
use slab::Slab;
use vlm_collections::LAST_HANDLE;

/// Takes a lock out of the list of its process.
pub fn leave_process(
    processes: &mut Slab<Process>,
    locks: &mut Slab<Lock>,
    at: usize,
    owner: ProcAt,
)
    requires owned { IsOwned processes.old locks.old None }
    requires owner { owner_in (get locks.old at) ≡ Some owner }
    requires present { ContainsKey locks.old at }
    ensures owned { IsOwned processes.new locks.new (Some at) }
    ensures handles { (owner : ℕ) → own_handles processes.new locks.new owner
        ≡ without at (own_handles processes.old locks.old owner) }
    ensures relinks { Relinks with_own_links locks.old locks.new }
    ensures rest { SameBut but_own processes.old processes.new }
    ensures locks_room { room_in locks.new ≡ room_in locks.old }
    ensures processes_room { room_in processes.new ≡ room_in processes.old }
{
    processes[owner.slot()].own.unlink(locks, at);
}

/// Puts a new lock at the end of the list of its process.
pub fn join_process(processes: &mut Slab<Process>, locks: &mut Slab<Lock>, at: usize, owner: ProcAt)
    requires owned { IsOwned processes.old locks.old (Some at) }
    requires owner { owner_in (get locks.old at) ≡ Some owner }
    requires present { ContainsKey locks.old at }
    requires within { at ≤ LAST_HANDLE }
    requires there { (owner : ℕ) → owner_in (get locks.old at) ≡ Some owner
        → ContainsKey processes.old owner }
    ensures { JoinsProcess at processes.old locks.old processes.new locks.new }
{
    processes[owner.slot()].own.push_back(locks, at);
}

/// Takes a lock out of the sublocks of its parent lock, if it has one.
pub fn leave_parent(locks: &mut Slab<Lock>, at: usize, parent: Option<LockAt>)
    requires below { IsBelow locks.old None }
    requires parent { parent_in (get locks.old at) ≡ parent }
    requires present { ContainsKey locks.old at }
    ensures below { IsBelow locks.new (Some at) }
    ensures handles { (parent : ℕ) → below_handles locks.new parent
        ≡ without at (below_handles locks.old parent) }
    ensures rest { SameBut but_below locks.old locks.new }
    ensures locks_room { room_in locks.new ≡ room_in locks.old }
{
    let Some(parent) = parent else {
        return;
    };
    let mut sublocks = locks[parent.slot()].sublocks;
    sublocks.unlink(locks, at);
    locks[parent.slot()].sublocks = sublocks;
}

/// Puts a new lock at the end of the sublocks of its parent lock, if it has one.
pub fn join_parent(locks: &mut Slab<Lock>, at: usize, parent: Option<LockAt>)
    requires below { IsBelow locks.old (Some at) }
    requires parent { parent_in (get locks.old at) ≡ parent }
    requires present { ContainsKey locks.old at }
    requires within { at ≤ LAST_HANDLE }
    requires there { (parent : ℕ) → parent_in (get locks.old at) ≡ Some parent
        → ContainsKey locks.old parent }
    ensures { JoinsParent at locks.old locks.new }
{
    let Some(parent) = parent else {
        return;
    };
    let mut sublocks = locks[parent.slot()].sublocks;
    sublocks.push_back(locks, at);
    locks[parent.slot()].sublocks = sublocks;
}
