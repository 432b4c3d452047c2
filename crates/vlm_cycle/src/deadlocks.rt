//! Finds out whether a request is deadlocked.

ghost use Rattle.std.specs.Prelude.{◌≡◌, ℕ};
ghost use Rattle.std.specs.Bool.{OnFalse, OnTrue};
ghost use Rattle.vlm_model.specs.Deadlocks.{IsDeadlocked};
ghost use Rattle.vlm_store.specs.Records.{HasProcess, IsProcess};
ghost use Rattle.vlm_locks.specs.Rest.{IsAtRest};
ghost use Rattle.vlm_locks.specs.Standing.{IsLocated};
ghost use Rattle.vlm_cycle.specs.Covering.{IsNearBehind};
ghost use Rattle.vlm_cycle.specs.Marking.{KeepsRoom, Marks};
ghost use Rattle.vlm_cycle.specs.Waiting.{IsRoomy, searched};

use crate::blockers::find_waited_for;
use crate::scratch::Scratch;
use vlm_locks::{LocatedLock, located_lock};
use vlm_store::{ProcAt, Store};

// Finds owners of the locks for which the requests of a process wait, as `find_waited_for` does. The cost grows with
// its locks, and with the locks that are looked at for each queued one.
fn find_behind_own(store: &Store, scratch: &mut Scratch, owner: ProcAt)
    requires rest { IsAtRest store.now }
    requires owner { HasProcess owner store.now }
    requires roomy { IsRoomy store.now scratch.old }
    ensures { (pid : ℕ) → IsProcess owner pid store.now
        → Marks (IsNearBehind store.now pid) scratch.old scratch.new }
{
    let mut at = store.first_own(owner);
    while let Some(lock) = at {
        let located = located_lock(store, lock);
        find_waited_for(store, scratch, &located);
        at = store.next_own(lock);
    }
}

fn find_behind(store: &Store, scratch: &mut Scratch, pid: u32)
    requires rest { IsAtRest store.now }
    requires roomy { IsRoomy store.now scratch.old }
    ensures { Marks (IsNearBehind store.now pid) scratch.old scratch.new }
{
    if let Some(owner) = store.process(pid) {
        find_behind_own(store, scratch, owner);
    }
}

/// Whether the request of a lock is deadlocked. The cost grows with the locks of the processes that are found.
pub(crate) fn is_deadlocked(store: &Store, scratch: &mut Scratch, waiting: &LocatedLock) -> bool
    requires rest { IsAtRest store.now }
    requires located { IsLocated waiting.now store.now }
    requires roomy { IsRoomy store.now scratch.old }
    ensures yes { OnTrue result (IsDeadlocked (searched store.now) waiting.now.row) }
    ensures no { OnFalse result (¬ IsDeadlocked (searched store.now) waiting.now.row) }
    ensures room { KeepsRoom scratch.old scratch.new }
    ensures ranks { scratch.new.ranks ≡ scratch.old.ranks }
{
    scratch.clear();
    find_waited_for(store, scratch, waiting);
    while let Some(pid) = scratch.take() {
        find_behind(store, scratch, pid);
        if scratch.seen.has(waiting.row.pid()) {
            return true;
        }
    }
    scratch.seen.has(waiting.row.pid())
}
