//! Notes the locks that go together: all locks of a process, or all locks below a lock.

ghost use Rattle.std.specs.Prelude.{◌≡◌, ◌≤◌, ◌+◌, ◌++◌, ℕ, [], length};
ghost use Rattle.vlm_store.specs.Records.{HasProcess, IsProcess, IsStored, sublocks_at};
ghost use Rattle.vlm_store.specs.Total.{lock_total};
ghost use Rattle.vlm_locks.specs.declared.joint_withdrawals.Scope.TheVariants.{All, Below};
ghost use Rattle.vlm_locks.specs.GivingUp.{AreChosen, AreOfLocks, IsOwnScope, SublocksGoToo, noted_lkids};
ghost use Rattle.vlm_locks.specs.Rest.{IsAtRest};
ghost use Rattle.vlm_locks.specs.RunningDown.{SublocksAreOwn};
ghost use Rattle.vlm_locks.specs.Touched.{touched_handles};

use crate::touched::{Note, Touched};
use vlm_store::{LockAt, ProcAt, Store};

pub(crate) fn note_own(store: &Store, touched: &mut Touched, owner: ProcAt)
    requires rest { IsAtRest store.now }
    requires owner { HasProcess owner store.now }
    requires none { touched.old.noted ≡ [] }
    requires room { lock_total store.now ≤ touched.old.room }
    ensures chosen { (pid : ℕ) → IsProcess owner pid store.now
        → AreChosen All pid store.now (noted_lkids touched.new.noted) }
    ensures locks { AreOfLocks touched.new.noted store.now }
    ensures room { touched.new.room ≡ touched.old.room }
{
    let mut next = store.first_own(owner);
    while let Some(lock) = next {
        touched.note(Note::of_lock(store, lock));
        next = store.next_own(lock);
    }
}

fn note_sublocks(store: &Store, touched: &mut Touched, lock: LockAt)
    requires rest { IsAtRest store.now }
    requires stored { IsStored lock store.now }
    requires locks { AreOfLocks touched.old.noted store.now }
    requires room { length touched.old.noted + length (sublocks_at lock store.now)
        ≤ touched.old.room }
    ensures noted { touched_handles touched.new.noted
        ≡ touched_handles touched.old.noted ++ sublocks_at lock store.now }
    ensures locks { AreOfLocks touched.new.noted store.now }
    ensures room { touched.new.room ≡ touched.old.room }
{
    let mut next = store.first_sublock(lock);
    while let Some(sublock) = next {
        touched.note(Note::of_lock(store, sublock));
        next = store.next_sublock(sublock);
    }
}

// Notes all locks below the lock with this ID, by rising ID. It goes level by level, and the
// notes are its queue of locks whose sublocks come next. So it looks at no other lock, and takes no memory.
pub(crate) fn note_below(store: &Store, touched: &mut Touched, top: u32)
    requires rest { IsAtRest store.now }
    requires top { (pid : ℕ) × IsOwnScope (Below top) pid store.now }
    requires together { SublocksAreOwn store.now }
    requires closed { SublocksGoToo (Below top) store.now }
    requires none { touched.old.noted ≡ [] }
    requires room { lock_total store.now ≤ touched.old.room }
    ensures chosen { (pid : ℕ) → IsOwnScope (Below top) pid store.now
        → AreChosen (Below top) pid store.now (noted_lkids touched.new.noted) }
    ensures locks { AreOfLocks touched.new.noted store.now }
    ensures room { touched.new.room ≡ touched.old.room }
{
    let Some(lock) = store.lock(top) else {
        return;
    };
    note_sublocks(store, touched, lock);
    let mut passed = 0;
    while passed < touched.notes().len() {
        let lock = touched.notes()[passed].lock();
        note_sublocks(store, touched, lock);
        passed += 1;
    }
    touched.in_order();
}
