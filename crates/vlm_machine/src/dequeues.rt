//! The step that gives locks up, or cancels a request.

ghost use Rattle.std.specs.Prelude.{◌≡◌, ◌==◌, ◌&&◌, None, Some, [], true, false, not, IfErr, IfOk, OnOk, if◌then◌else◌};
ghost use Rattle.std.specs.Result.{result_err};
ghost use Rattle.vlm_model.specs.Dequeue.{cancel_refusal, conversion_ending, deq_change, deq_flags_refusal, deq_refusal, is_mixed, sublocks_refusal, withdrawal_of};
ghost use Rattle.vlm_model.specs.Checks.{lock_refusal};
ghost use Rattle.vlm_words.specs.Flags.{cancel, deq_flag_bits, deqall, has_flag, invvalblk};
ghost use Rattle.vlm_model.specs.Endings.How.{by_abort};
ghost use Rattle.vlm_model.specs.Stepped.{Outcome};
ghost use Rattle.vlm_words.specs.declared.steps.Dequeue.{Dequeue};
ghost use Rattle.vlm_store.specs.Records.{HasNoSublocks, HasResource};
ghost use Rattle.vlm_locks.specs.GivingUp.{IsOwnScope};
ghost use Rattle.vlm_locks.specs.Rest.{OthersStay};
ghost use Rattle.vlm_locks.specs.Standing.{IsLocated};
ghost use Rattle.vlm_locks.specs.Withdrawals.{plain_withdrawal};
ghost use Rattle.vlm_locks.specs.Withdrawing.{goes};
ghost use Rattle.vlm_machine.specs.Admissions.{IsAdmittedDequeue, IsCaller, IsCheckedDequeue, IsChildless, scope_of, refusal_alone};
ghost use Rattle.vlm_machine.specs.Between.{IsBetweenSteps};
ghost use Rattle.vlm_machine.specs.Machine.{plain_state};
ghost use Rattle.vlm_machine.specs.Notes.{HasRoomToNote, IsToSweep};

use crate::flags::deq_flags;
use crate::processes::Caller;
use crate::records::Machine;
use vlm_locks::{
    EndReason, JointWithdrawal, LocatedLock, Scope, Touched, Withdrawal, give_up_together, withdraw,
};
use vlm_words::conditions::Cond;
use vlm_words::flags::DeqFlags;
use vlm_words::steps::{Answer, Dequeue, Step};

/// A dequeue that has passed the checks of its caller, its flags and the lock that it names.
#[derive(Clone, Copy)]
pub(crate) struct CheckedDequeue {
    caller: Caller,
    flags: DeqFlags,
    // the ID that it names, or 0 if it names no lock
    lkid: u32,
}

impl Machine {
    /// Gives up or cancels the named lock. With DEQALL it gives up all locks of the caller, or all below the named one.
    pub(crate) fn deq(&mut self, touched: &mut Touched, dequeue: &Dequeue) -> Answer
        requires between { IsBetweenSteps (plain_state self.old) }
        requires notes { HasRoomToNote touched.old self.old }
        ensures outcome { Outcome (plain_state self.old) (Step.Deq dequeue.now)
            (plain_state self.new) result }
        ensures none { touched.new.noted ≡ [] }
        ensures room { touched.new.room ≡ touched.old.room }
    {
        match self.checked_dequeue(dequeue) {
            Ok(checked) => {
                if checked.flags.has(DeqFlags::DEQALL) {
                    self.deq_all(touched, &checked)
                } else {
                    self.deq_one(dequeue, &checked)
                }
            }
            Err(refusal) => Answer::Plain(refusal),
        }
    }

    // The checks of the caller, the flags and the named lock, in this order.
    #[tactic(auto, unfolding(vlm_model::specs::Dequeue::deq_refusal))]
    fn checked_dequeue(&self, dequeue: &Dequeue) -> Result<CheckedDequeue, Cond>
        ensures refused { IfErr result
            (λ refusal. deq_refusal (plain_state self.now) dequeue.now ≡ Some refusal) }
        ensures checked { IfOk result
            (λ checked. IsCheckedDequeue self.now dequeue.now checked) }
    {
        let caller = self.checked_caller(dequeue.pid)?;
        let flags = checked_flags(dequeue)?;
        let lkid = self.checked_lkid(&caller, dequeue.lock)?;
        Ok(CheckedDequeue {
            caller,
            flags,
            lkid,
        })
    }

    // One lock: its checks, its change, and the sweep of its resource.
    fn deq_one(&mut self, dequeue: &Dequeue, checked: &CheckedDequeue) -> Answer
        requires between { IsBetweenSteps (plain_state self.old) }
        requires checked { IsCheckedDequeue self.old dequeue.now checked.now }
        requires alone { has_flag dequeue.now.flags deqall ≡ false }
        ensures { Outcome (plain_state self.old) (Step.Deq dequeue.now)
            (plain_state self.new) result }
    {
        let lock = match self.checked_lock(&checked.caller, checked.lkid) {
            Ok(lock) => lock,
            Err(refusal) => return Answer::Plain(refusal),
        };
        let located = self.located(lock);
        match self.check_alone(checked.flags, &located) {
            Ok(()) => {
                self.deq_change(dequeue, checked.flags, &located);
                self.sweep(located.res);
                Answer::Plain(Cond::Normal)
            }
            Err(refusal) => Answer::Plain(refusal),
        }
    }

    // With DEQALL: the check of the lock, the change, and one sweep. It never answers CANCELGRANT or SUBLOCKS.
    fn deq_all(&mut self, touched: &mut Touched, checked: &CheckedDequeue) -> Answer
        requires between { IsBetweenSteps (plain_state self.old) }
        requires notes { HasRoomToNote touched.old self.old }
        requires caller { IsCaller checked.now.caller self.old.records }
        ensures outcome { (d : Dequeue) → IsCheckedDequeue self.old d checked.now
            → has_flag d.flags deqall ≡ true
            → Outcome (plain_state self.old) (Step.Deq d) (plain_state self.new) result }
        ensures none { touched.new.noted ≡ [] }
        ensures room { touched.new.room ≡ touched.old.room }
    {
        match self.checked_scope(&checked.caller, checked.lkid) {
            Ok(scope) => {
                self.deq_all_change(touched, checked, scope);
                self.sweep_touched(touched);
                Answer::Plain(Cond::Normal)
            }
            Err(refusal) => Answer::Plain(refusal),
        }
    }

    // All locks of the caller, or those below the named one. IVLOCKID if the caller has no such lock.
    fn checked_scope(&self, caller: &Caller, lkid: u32) -> Result<Scope, Cond>
        ensures refusal { result_err result ≡ (if lkid == 0 then None
            else lock_refusal (plain_state self.now) caller.now.pid lkid) }
        ensures scope { IfOk result (λ scope. scope ≡ scope_of lkid) }
        ensures own { IfOk result (λ scope. IsOwnScope scope caller.now.pid self.now.records) }
    {
        if lkid == 0 {
            return Ok(Scope::All);
        }
        self.checked_lock(caller, lkid)?;
        Ok(Scope::Below(lkid))
    }

    // The checks of one lock, in their order.
    fn check_alone(&self, flags: DeqFlags, located: &LocatedLock) -> Result<(), Cond>
        requires between { IsBetweenSteps (plain_state self.now) }
        requires located { IsLocated located.now self.now.records }
        ensures refusal { (d : Dequeue) → deq_flag_bits flags ≡ d.flags
            → IsAdmittedDequeue self.now d located.now
            → result_err result ≡ refusal_alone (plain_state self.now) d }
        ensures childless { (d : Dequeue) → deq_flag_bits flags ≡ d.flags
            → OnOk result (IsChildless self.now d located.now) }
    {
        let cancels = flags.has(DeqFlags::CANCEL);
        self.check_cancel(cancels, located)?;
        self.check_sublocks(cancels, located)
    }

    // CANCELGRANT if the lock to cancel is granted.
    #[tactic(auto, unfolding(vlm_model::specs::Dequeue::cancel_refusal))]
    fn check_cancel(&self, cancels: bool, located: &LocatedLock) -> Result<(), Cond>
        ensures { (d : Dequeue) → cancels ≡ has_flag d.flags cancel
            → IsAdmittedDequeue self.now d located.now
            → result_err result ≡ cancel_refusal (plain_state self.now) d }
    {
        if cancels && located.is_granted() {
            Err(Cond::Cancelgrant)
        } else {
            Ok(())
        }
    }

    // SUBLOCKS if the lock to give up has sublocks. A waiting lock has none.
    #[tactic(auto, unfolding(vlm_model::specs::Dequeue::sublocks_refusal))]
    fn check_sublocks(&self, cancels: bool, located: &LocatedLock) -> Result<(), Cond>
        requires between { IsBetweenSteps (plain_state self.now) }
        requires located { IsLocated located.now self.now.records }
        ensures refusal { result_err result
            ≡ sublocks_refusal (plain_state self.now) cancels located.now.row.lkid }
        ensures childless { OnOk result (goes cancels located.now.queue ≡ true
            → HasNoSublocks located.now.lock self.now.records) }
    {
        if !cancels && self.store.has_sublocks(located.lock) {
            Err(Cond::Sublocks)
        } else {
            Ok(())
        }
    }

    #[tactic(auto, unfolding(vlm_model::specs::Dequeue::deq_change))]
    fn deq_change(&mut self, dequeue: &Dequeue, flags: DeqFlags, located: &LocatedLock)
        requires flags { deq_flag_bits flags ≡ dequeue.now.flags }
        requires admitted { IsAdmittedDequeue self.old dequeue.now located.now }
        requires childless { IsChildless self.old dequeue.now located.now }
        requires between { IsBetweenSteps (plain_state self.old) }
        ensures change { plain_state self.new ≡ deq_change (plain_state self.old) dequeue.now }
        ensures others { OthersStay located.now.res self.old.records self.new.records }
        ensures there { HasResource located.now.res self.new.records }
    {
        let withdrawal = withdrawal_of(located.row.lkid(), flags, dequeue);
        withdraw(&mut self.store, located, &withdrawal);
    }

    fn deq_all_change(&mut self, touched: &mut Touched, checked: &CheckedDequeue, scope: Scope)
        requires caller { IsCaller checked.now.caller self.old.records }
        requires scope { scope ≡ scope_of checked.now.lkid }
        requires own { IsOwnScope scope checked.now.caller.pid self.old.records }
        requires between { IsBetweenSteps (plain_state self.old) }
        requires notes { HasRoomToNote touched.old self.old }
        ensures change { (d : Dequeue) → IsCheckedDequeue self.old d checked.now
            → has_flag d.flags deqall ≡ true
            → plain_state self.new ≡ deq_change (plain_state self.old) d }
        ensures to_sweep { IsToSweep touched.new self.new }
        ensures room { touched.new.room ≡ touched.old.room }
    {
        let invalidates = checked.flags.has(DeqFlags::INVVALBLK);
        let joint = JointWithdrawal {
            owner: checked.caller.at,
            pid: checked.caller.pid,
            scope,
            invalidates,
        };
        give_up_together(&mut self.store, touched, &joint);
    }
}

// BADPARAM if a flag is unknown, if DEQALL comes with CANCEL or a value, or if a tail comes without a value.
#[tactic(auto, unfolding(vlm_model::specs::Dequeue::deq_flags_refusal))]
fn checked_flags(dequeue: &Dequeue) -> Result<DeqFlags, Cond>
    ensures refusal { result_err result ≡ deq_flags_refusal dequeue.now }
    ensures flags { IfOk result (λ flags. deq_flag_bits flags ≡ dequeue.now.flags) }
    ensures fitting { IfOk result (λ _. is_mixed dequeue.now ≡ false) }
{
    let flags = deq_flags(dequeue.flags).ok_or(Cond::Badparam)?;
    if flags.has(DeqFlags::DEQALL) && (flags.has(DeqFlags::CANCEL) || dequeue.value.is_some()) {
        return Err(Cond::Badparam);
    }
    if dequeue.tail.is_some() && dequeue.value.is_none() {
        return Err(Cond::Badparam);
    }
    Ok(flags)
}

// The lock goes, or with CANCEL only its request. A cancel leaves the value block alone.
fn withdrawal_of(lkid: u32, flags: DeqFlags, dequeue: &Dequeue) -> Withdrawal
    requires { deq_flag_bits flags ≡ dequeue.now.flags }
    ensures { plain_withdrawal result ≡ record {
      lkid = lkid;
      waiting = by_abort;
      converting = conversion_ending (has_flag dequeue.now.flags cancel);
      stays = has_flag dequeue.now.flags cancel;
      value = if has_flag dequeue.now.flags cancel then None else dequeue.now.value;
      tail = if has_flag dequeue.now.flags cancel then None else dequeue.now.tail;
      invalidates = has_flag dequeue.now.flags invvalblk && not (has_flag dequeue.now.flags cancel);
    } }
{
    let cancels = flags.has(DeqFlags::CANCEL);
    Withdrawal {
        lkid,
        waiting: EndReason::Aborted,
        converting: if cancels {
            EndReason::Cancelled
        } else {
            EndReason::Aborted
        },
        stays: cancels,
        value: if cancels { None } else { dequeue.value },
        tail: if cancels { None } else { dequeue.tail },
        invalidates: flags.has(DeqFlags::INVVALBLK) && !cancels,
    }
}
