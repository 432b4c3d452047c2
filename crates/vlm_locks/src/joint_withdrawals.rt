//! Gives up several locks of a process together.

ghost use Rattle.std.specs.Prelude.{◌≡◌, ◌≤◌, []};
ghost use Rattle.vlm_store.specs.Records.{IsProcess};
ghost use Rattle.vlm_store.specs.Total.{lock_total};
ghost use Rattle.vlm_locks.specs.GivingUp.{AreChosen, AreGivenUp, AreGone, AreOfLocks, CanGo, HaveEnded, IsOwnScope, Rise, SublocksGoToo, noted_lkids};
ghost use Rattle.vlm_locks.specs.Owing.{IsPaid};
ghost use Rattle.vlm_locks.specs.Rest.{IsAtRest};
ghost use Rattle.vlm_locks.specs.RunningDown.{CanEndProcesses, GrantedWantNothing, SublocksAreOwn};

use crate::located_locks::located_lock;
use crate::noted_locks::{note_below, note_own};
use crate::releases::{end_notices, give_up};
use crate::touched::{Note, Touched};
use crate::withdrawals::Withdrawal;
use vlm_store::{ProcAt, Store};

/// Which of the locks of a process are given up together.
#[derive(Clone, Copy)]
pub enum Scope {
    All,
    /// The locks at any depth below the lock with this ID, without that lock.
    Below(u32),
}

/// Locks of a process that are given up together.
#[derive(Clone, Copy)]
pub struct JointWithdrawal {
    pub owner: ProcAt,
    pub pid: u32,
    pub scope: Scope,
    /// Whether to mark a resource's value block invalid if one of them holds PW or EX there, granted or converting.
    pub invalidates: bool,
}

fn note_scope(store: &Store, touched: &mut Touched, joint: &JointWithdrawal)
    requires rest { IsAtRest store.now }
    requires owner { IsProcess joint.now.owner joint.now.pid store.now }
    requires own { IsOwnScope joint.now.scope joint.now.pid store.now }
    requires together { SublocksAreOwn store.now }
    requires closed { SublocksGoToo joint.now.scope store.now }
    requires none { touched.old.noted ≡ [] }
    requires room { lock_total store.now ≤ touched.old.room }
    ensures chosen { AreChosen joint.now.scope joint.now.pid store.now (noted_lkids touched.new.noted) }
    ensures locks { AreOfLocks touched.new.noted store.now }
    ensures room { touched.new.room ≡ touched.old.room }
{
    match joint.scope {
        Scope::All => note_own(store, touched, joint.owner),
        Scope::Below(top) => note_below(store, touched, top),
    }
}

fn end_noted(store: &mut Store, notes: &[Note], invalidates: bool)
    requires rise { Rise (noted_lkids notes.now) }
    requires locks { AreOfLocks notes.now store.old }
    requires rest { IsAtRest store.old }
    requires granted { GrantedWantNothing store.old }
    requires paid { IsPaid store.old }
    ensures ended { HaveEnded (noted_lkids notes.now) invalidates store.old store.new }
{
    for note in notes {
        let located = located_lock(store, note.lock());
        let withdrawal = Withdrawal::together(located.row.lkid(), invalidates);
        end_notices(store, &located, &withdrawal);
    }
}

// The last lock goes first, so that sublocks go before their parents. Its note becomes a note of its resource.
fn remove_noted(store: &mut Store, touched: &mut Touched, joint: &JointWithdrawal)
    requires owner { IsProcess joint.now.owner joint.now.pid store.old }
    requires can_go { CanGo joint.now.pid touched.old store.old }
    ensures gone { AreGone (noted_lkids touched.old.noted) joint.now.invalidates store.old store.new
        (record { noted = []; room = touched.old.room }) touched.new }
    ensures can_end { CanEndProcesses touched.new store.new }
{
    let mut left = touched.notes().len();
    while left > 0 {
        left -= 1;
        let located = located_lock(store, touched.notes()[left].lock());
        let withdrawal = Withdrawal::together(located.row.lkid(), joint.invalidates);
        give_up(store, &located, &withdrawal);
        touched.replace(left, Note::of_resource(store, located.res));
    }
}

/// Gives up locks of a process together. First their requests end with ABORT and queue their completion ASTs, by rising
/// ID. Then all of the locks go. It notes their resources, and grants nothing. The cost grows with the
/// number of locks that go; for sorting them, with that number times its logarithm.
pub fn give_up_together(store: &mut Store, touched: &mut Touched, joint: &JointWithdrawal)
    requires owner { IsProcess joint.now.owner joint.now.pid store.old }
    requires own { IsOwnScope joint.now.scope joint.now.pid store.old }
    requires can_end { CanEndProcesses touched.old store.old }
    requires closed { SublocksGoToo joint.now.scope store.old }
    requires none { touched.old.noted ≡ [] }
    ensures given_up { AreGivenUp joint.now.scope joint.now.invalidates joint.now.pid store.old store.new
        touched.old touched.new }
    ensures can_end { CanEndProcesses touched.new store.new }
{
    let invalidates = joint.invalidates;
    note_scope(store, touched, joint);
    end_noted(store, touched.notes(), invalidates);
    remove_noted(store, touched, joint);
}
