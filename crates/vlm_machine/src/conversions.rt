//! The step that converts a lock to another mode.

ghost use Rattle.std.specs.Prelude.{◌≡◌, Some, IfErr, IfOk, OnErr, OnOk};
ghost use Rattle.std.specs.Result.{result_err};
ghost use Rattle.vlm_model.specs.Convert.{ConversionAdmission, admission_refusal, convert_admission, convert_change, convert_lkid, convert_refusal, is_queued_legally_from, pair_refusal};
ghost use Rattle.vlm_words.specs.Flags.{flag_bits};
ghost use Rattle.vlm_model.specs.Stepped.{NamesRoutine, Outcome};
ghost use Rattle.vlm_store.specs.Records.{HasResource};
ghost use Rattle.vlm_locks.specs.Rest.{OthersStay};
ghost use Rattle.vlm_locks.specs.Standing.{IsLockOf, IsLocatedLockOf};
ghost use Rattle.vlm_machine.specs.Admissions.{IsAdmittedConversion};
ghost use Rattle.vlm_machine.specs.Between.{IsBetweenSteps};
ghost use Rattle.vlm_machine.specs.Machine.{plain_state};

use crate::checks::{acceptance, check_queue};
use crate::flags::checked_request_flags;
use crate::records::Machine;
use std::alloc::AllocError;
use vlm_locks::{LocatedLock, convert, converts_at_once};
use vlm_store::{LockAt, StoredState};
use vlm_words::conditions::Cond;
use vlm_words::flags::EnqFlags;
use vlm_words::locks::Request;
use vlm_words::modes::{Mode, quecvt_legal};
use vlm_words::steps::{Answer, Conversion, Step};

/// The lock and the flags of a conversion, after the first checks.
#[derive(Clone, Copy)]
pub(crate) struct NamedLock {
    lock: LockAt,
    flags: EnqFlags,
}

impl Machine {
    /// Converts a granted lock to another mode: its checks, its change, and the sweep of its resource.
    pub(crate) fn convert(&mut self, conversion: &Conversion) -> Answer
        requires { IsBetweenSteps (plain_state self.old) }
        ensures { Outcome (plain_state self.old) (Step.Convert conversion.now)
            (plain_state self.new) result }
    {
        match self.checked_names(conversion) {
            Ok(named) => {
                let located = self.located(named.lock);
                self.convert_named(conversion, named.flags, &located)
            }
            Err(refusal) => Answer::Plain(refusal),
        }
    }

    // The checks of the caller, the flags, the status block and the lock, in this order.
    #[tactic(auto, unfolding(vlm_model::specs::Convert::convert_refusal))]
    fn checked_names(&self, conversion: &Conversion) -> Result<NamedLock, Cond>
        ensures refused { IfErr result
            (λ refusal. convert_refusal (plain_state self.now) conversion.now ≡ Some refusal) }
        ensures passed { let s = plain_state self.now in OnOk result
            (convert_refusal s conversion.now
            ≡ admission_refusal s conversion.now (convert_admission s conversion.now)) }
        ensures flags { IfOk result (λ named. flag_bits named.flags ≡ conversion.now.flags) }
        ensures lock { IfOk result (λ named. IsLockOf conversion.now.pid
            (convert_lkid (plain_state self.now) conversion.now) named.lock self.now.records) }
    {
        let caller = self.checked_caller(conversion.pid)?;
        let flags = checked_request_flags(conversion.flags)?;
        self.check_status_block(&caller, conversion.block)?;
        let lkid = self.checked_lkid(&caller, conversion.lock)?;
        let lock = self.checked_lock(&caller, lkid)?;
        Ok(NamedLock { lock, flags })
    }

    // The later checks, the change, and the sweep.
    fn convert_named(
        &mut self,
        conversion: &Conversion,
        flags: EnqFlags,
        located: &LocatedLock,
    ) -> Answer
        requires between { IsBetweenSteps (plain_state self.old) }
        requires flags { flag_bits flags ≡ conversion.now.flags }
        requires located { let lkid = convert_lkid (plain_state self.old) conversion.now
            in IsLocatedLockOf conversion.now.pid lkid located.now self.old.records }
        requires passed { let s = plain_state self.old in convert_refusal s conversion.now
            ≡ admission_refusal s conversion.now (convert_admission s conversion.now) }
        ensures outcome { Outcome (plain_state self.old) (Step.Convert conversion.now)
            (plain_state self.new) result }
    {
        let at_once = match self.checked_admission(flags, located, conversion) {
            Ok(at_once) => at_once,
            Err(refusal) => return Answer::Plain(refusal),
        };
        match self.convert_change(conversion, flags, located, at_once) {
            Ok(()) => {
                self.sweep(located.res);
                Answer::Lock(acceptance(flags, at_once), located.row.lkid())
            }
            Err(AllocError) => Answer::Plain(Cond::Insfmem),
        }
    }

    // The later checks, in their order. Answers whether the request is granted at once.
    fn checked_admission(
        &self,
        flags: EnqFlags,
        located: &LocatedLock,
        conversion: &Conversion,
    ) -> Result<bool, Cond>
        requires flags { flag_bits flags ≡ conversion.now.flags }
        requires located { let lkid = convert_lkid (plain_state self.now) conversion.now
            in IsLocatedLockOf conversion.now.pid lkid located.now self.now.records }
        ensures refusal { let admission = convert_admission (plain_state self.now) conversion.now
            in result_err result
            ≡ admission_refusal (plain_state self.now) conversion.now admission }
        ensures admitted { IfOk result (λ at_once.
            IsAdmittedConversion self.now conversion.now located.now at_once) }
    {
        if !located.is_granted() {
            return Err(Cond::Cvtungrant);
        }
        check_pair(conversion, flags, &located.row)?;
        self.check_request_numbers()?;
        let at_once = converts_at_once(&self.store, located, flags, conversion.mode);
        check_queue(flags, at_once)?;
        Ok(at_once)
    }

    // The change: the lock converts, its status block is written, and its request number is used up.
    fn convert_change(
        &mut self,
        conversion: &Conversion,
        flags: EnqFlags,
        located: &LocatedLock,
        at_once: bool,
    ) -> Result<(), AllocError>
        requires flags { flag_bits flags ≡ conversion.now.flags }
        requires admitted { IsAdmittedConversion self.old conversion.now located.now at_once }
        requires between { IsBetweenSteps (plain_state self.old) }
        ensures change { OnOk result ((a : ConversionAdmission)
            → convert_admission (plain_state self.old) conversion.now ≡ Some a
            → plain_state self.new ≡ convert_change (plain_state self.old) conversion.now a) }
        ensures others { OnOk result
            (OthersStay located.now.res self.old.records self.new.records) }
        ensures there { OnOk result (HasResource located.now.res self.new.records) }
        ensures unchanged { OnErr result (self.new ≡ self.old) }
        ensures named { OnErr result (NamesRoutine conversion.now) }
    {
        let asked = Request {
            number: self.last_request + 1,
            mode: conversion.mode,
            flags,
            block: conversion.block,
            completion: conversion.ast,
            blocking: conversion.bast,
            param: conversion.param,
        };
        convert(&mut self.store, located, &asked, at_once)?;
        self.last_request += 1;
        Ok(())
    }
}

// BADPARAM if QUECVT does not go with a conversion from the held mode.
#[tactic(auto, unfolding(vlm_model::specs::Convert::pair_refusal))]
fn check_pair(conversion: &Conversion, flags: EnqFlags, row: &StoredState) -> Result<(), Cond>
    requires { flag_bits flags ≡ conversion.now.flags }
    ensures { result_err result ≡ pair_refusal conversion.now row.now }
{
    if flags.has(EnqFlags::QUECVT) && !is_legal_from(row.held(), conversion.mode) {
        Err(Cond::Badparam)
    } else {
        Ok(())
    }
}

fn is_legal_from(held: Option<Request>, mode: Mode) -> bool
    ensures { result ≡ is_queued_legally_from held mode }
{
    match held {
        Some(held) => quecvt_legal(held.mode, mode),
        None => false,
    }
}
