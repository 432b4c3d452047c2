//! The step that asks for a new lock.

ghost use Rattle.std.specs.Prelude.{◌≡◌, ◌<◌, ◌^◌, ◌+◌, ℕ, true, false, is_some, find, unwrap_or, [], ◌∷◌, if◌then◌else◌, IfOk, IsOk, OnErr, OnOk};
ghost use Rattle.std.specs.List.{AllByRecursion};
ghost use Rattle.std.specs.Result.{result_err};
ghost use Rattle.vlm_words.specs.declared.locks.Request.{Request};
ghost use Rattle.vlm_words.specs.declared.resources.Site.{Site};
ghost use Rattle.vlm_words.specs.declared.steps.NewRequest.{NewRequest};
ghost use Rattle.vlm_model.specs.Enqueue.{enq_change, enq_form_refusal, enq_limit_refusal, enq_refusal, expedite_refusal, is_at_once, name_refusal};
ghost use Rattle.vlm_words.specs.Names.{is_name};
ghost use Rattle.vlm_words.specs.Resources.{is_at, new_resource, IsKeyed};
ghost use Rattle.vlm_words.specs.Flags.{expedite, flag_bits, has_flag};
ghost use Rattle.vlm_model.specs.Stable.{IsStable};
ghost use Rattle.vlm_model.specs.Stepped.{Outcome};
ghost use Rattle.vlm_model.specs.Sweeps.{state_after_sweep};
ghost use Rattle.vlm_store.specs.Index.{hash_key};
ghost use Rattle.vlm_store.specs.Plain.{plain_resources};
ghost use Rattle.vlm_store.specs.Records.{FindsResource, HasResource, IsUnchanged};
ghost use Rattle.vlm_locks.specs.Entering.{HasRoomToEnter};
ghost use Rattle.vlm_locks.specs.Rest.{IsAtRest, OthersStay};
ghost use Rattle.vlm_locks.specs.Sweeping.{AreStableBut};
ghost use Rattle.vlm_machine.specs.Admissions.{IsAdmitted, IsAskedBy, IsChecked};
ghost use Rattle.vlm_machine.specs.Between.{IsBetweenSteps};
ghost use Rattle.vlm_machine.specs.Machine.{plain_state};
ghost use Rattle.vlm_machine.specs.Notes.{HasRoomToNote};

use crate::checks::{acceptance, check_queue};
use crate::flags::checked_request_flags;
use crate::parents::{Parent, lock_of};
use crate::processes::Caller;
use crate::records::Machine;
use std::alloc::AllocError;
use vlm_locks::{NewLock, Touched, enter, enters_at_once};
use vlm_store::{LockAt, ProcAt, ResAt, Store};
use vlm_words::conditions::Cond;
use vlm_words::flags::EnqFlags;
use vlm_words::locks::Request;
use vlm_words::modes::Mode;
use vlm_words::names::NameArg;
use vlm_words::resources::{Key, Site};
use vlm_words::steps::{Answer, NewRequest, Step};

/// The flags and the parent that a new request names.
#[derive(Clone, Copy)]
pub(crate) struct RequestForm {
    pub(crate) flags: EnqFlags,
    // the ID of the parent lock, 0 for none
    pub(crate) parent: u32,
}

/// The hash of a resource's key, the handle of the resource, if it exists, and whether the request is granted at once.
#[derive(Clone, Copy)]
pub(crate) struct ResourceLookup {
    hash: u32,
    res: Option<ResAt>,
    at_once: bool,
}

/// A new request that has passed its checks, with the handles and the hash that they found.
#[derive(Clone, Copy)]
pub(crate) struct CheckedRequest {
    owner: ProcAt,
    flags: EnqFlags,
    // 0 for no parent
    parent_lkid: u32,
    parent: Option<LockAt>,
    // the site of its resource, and what a look-up found there
    site: Site,
    found: ResourceLookup,
}

// Looks up the resource of a new request, and finds out whether the request is granted at once.
#[inline(always)]
fn look_up(store: &Store, key: &Key, flags: EnqFlags, mode: Mode) -> ResourceLookup
    requires { IsAtRest store.now }
    ensures hash { result.hash ≡ hash_key store.now.keys key.now }
    ensures found { FindsResource store.now key.now result.res }
    ensures at_once { (asked : Request) (serial : ℕ) (site : Site)
        → asked.flags ≡ flags → asked.mode ≡ mode
        → site.key ≡ key.now → IsKeyed site.domain site.key → result.at_once ≡ is_at_once asked
        (unwrap_or (find (is_at site.key) (plain_resources store.now)) (new_resource serial site)) }
{
    let hash = store.hash_of(key);
    match store.resource(key, hash) {
        Some(res) => ResourceLookup {
            hash,
            res: Some(res),
            at_once: enters_at_once(store, res, flags, mode),
        },
        None => ResourceLookup {
            hash,
            res: None,
            at_once: true,
        },
    }
}

// The last serial after the lock has entered.
fn last_given(last_serial: u32, new_lock: &NewLock) -> u32
    ensures { result ≡ (if is_some new_lock.now.res then last_serial else new_lock.now.serial) }
{
    match new_lock.res {
        Some(_) => last_serial,
        None => new_lock.serial,
    }
}

impl Machine {
    /// Asks for a new lock: its checks, its growth, its change, and the sweep of its resource. The growth also makes
    /// room to note the resource when the lock ends.
    pub(crate) fn enq(&mut self, touched: &mut Touched, request: &NewRequest) -> Answer
        requires between { IsBetweenSteps (plain_state self.old) }
        requires notes { HasRoomToNote touched.old self.old }
        ensures outcome { Outcome (plain_state self.old) (Step.Enq request.now)
            (plain_state self.new) result }
        ensures notes { HasRoomToNote touched.new self.new }
    {
        let checked = self.checked_request(request);
        let checked = match &checked {
            Ok(checked) => checked,
            Err(refusal) => return Answer::Plain(*refusal),
        };
        let Ok(()) = touched.make_room_beyond(self.store.lock_count()) else {
            return Answer::Plain(Cond::Insfmem);
        };
        let new_lock = self.new_lock(request, checked);
        match self.enq_change(&new_lock) {
            Ok(res) => {
                self.sweep_entered(&new_lock, res);
                Answer::Lock(
                    acceptance(new_lock.asked.flags, new_lock.at_once),
                    new_lock.lkid,
                )
            }
            Err(AllocError) => Answer::Plain(Cond::Insfmem),
        }
    }

    // The checks in their order. This function, `looked_up`, `look_up` and `checked_parent` are inlined: each has one
    // caller, which would copy the record that a call answers.
    #[tactic(auto, unfolding(vlm_model::specs::Enqueue::enq_refusal, vlm_model::specs::Enqueue::enq_form_refusal, vlm_model::specs::Enqueue::enq_limit_refusal, vlm_model::specs::Trees::site_refusal))]
    #[inline(always)]
    fn checked_request(&self, request: &NewRequest) -> Result<CheckedRequest, Cond>
        requires { IsBetweenSteps (plain_state self.now) }
        ensures refusal { result_err result ≡ enq_refusal (plain_state self.now) request.now }
        ensures checked { IfOk result (λ checked. IsChecked self.now request.now checked) }
    {
        let caller = self.checked_caller(request.pid)?;
        let flags = checked_request_flags(request.flags)?;
        self.check_status_block(&caller, request.block)?;
        let parent_lkid = self.checked_lkid(&caller, request.parent)?;
        check_name(&request.name)?;
        check_expedite(request.mode, flags)?;
        let parent = self.checked_parent(&caller, parent_lkid)?;
        self.check_privilege(&caller, flags, parent_lkid)?;
        self.check_quota(&caller)?;
        self.check_numbers()?;
        let form = RequestForm {
            flags,
            parent: parent_lkid,
        };
        let checked = self.looked_up(&caller, &form, &parent, request);
        check_queue(flags, checked.found.at_once)?;
        Ok(checked)
    }

    #[inline(always)]
    fn looked_up(
        &self,
        caller: &Caller,
        form: &RequestForm,
        parent: &Option<Parent>,
        request: &NewRequest,
    ) -> CheckedRequest
        requires asked { IsAskedBy self.now request.now caller.now form.now parent.now }
        requires between { IsBetweenSteps (plain_state self.now) }
        requires lkid { self.now.next_lkid < 2 ^ 32 }
        requires number { self.now.next_request < 2 ^ 64 }
        ensures { IsChecked self.now request.now result }
    {
        let site = self.site_of(caller, form, parent, &request.name);
        CheckedRequest {
            owner: caller.at,
            flags: form.flags,
            parent_lkid: form.parent,
            parent: lock_of(parent),
            site,
            found: look_up(&self.store, &site.key, form.flags, request.mode),
        }
    }

    // The new lock, with the next ID and the next request number.
    fn new_lock(&self, request: &NewRequest, checked: &CheckedRequest) -> NewLock
        requires between { IsBetweenSteps (plain_state self.now) }
        requires checked { IsChecked self.now request.now checked.now }
        ensures { IsAdmitted self.now request.now result }
    {
        NewLock {
            asked: Request {
                number: self.last_request + 1,
                mode: request.mode,
                flags: checked.flags,
                block: request.block,
                completion: request.ast,
                blocking: request.bast,
                param: request.param,
            },
            lkid: self.last_lkid + 1,
            pid: request.pid,
            parent_lkid: checked.parent_lkid,
            owner: checked.owner,
            parent: checked.parent,
            site: checked.site,
            hash: checked.found.hash,
            serial: self.last_serial + 1,
            res: checked.found.res,
            at_once: checked.found.at_once,
        }
    }

    // Sweeps the resource that a new lock has entered. After a grant at once there is nothing to do, since nobody is
    // queued there. Only an expedited lock may be granted beside a queue.
    fn sweep_entered(&mut self, new_lock: &NewLock, res: ResAt)
        requires there { HasResource res self.old.records }
        requires stable { AreStableBut (res ∷ []) self.old.records.resources }
        requires at_once { new_lock.now.at_once ≡ true
            → has_flag (flag_bits new_lock.now.asked.flags) expedite ≡ false
            → AllByRecursion IsStable (plain_state self.old).resources }
        ensures { plain_state self.new ≡ state_after_sweep (plain_state self.old) }
    {
        if new_lock.at_once && !new_lock.asked.flags.has(EnqFlags::EXPEDITE) {
            return;
        }
        self.sweep(res);
    }

    // The growth and the change: the lock enters its resource, its status block is written, and its numbers are used
    // up. If memory for the lock or for the ASTs of its routines is refused, nothing is changed, except that there may
    // be more room.
    fn enq_change(&mut self, new_lock: &NewLock) -> Result<ResAt, AllocError>
        requires admitted { (e : NewRequest) × IsAdmitted self.old e new_lock.now }
        requires between { IsBetweenSteps (plain_state self.old) }
        ensures change { OnOk result ((e : NewRequest) → IsAdmitted self.old e new_lock.now
            → plain_state self.new ≡ enq_change (plain_state self.old) e) }
        ensures others { IfOk result (λ res. OthersStay res self.old.records self.new.records) }
        ensures there { IfOk result (λ res. HasResource res self.new.records) }
        ensures succeeds { HasRoomToEnter new_lock.now self.old.records → IsOk result }
        ensures state { OnErr result (plain_state self.new ≡ plain_state self.old) }
        ensures unchanged { OnErr result (IsUnchanged self.old.records self.new.records) }
    {
        let res = enter(&mut self.store, new_lock)?;
        self.last_lkid += 1;
        self.last_request += 1;
        self.last_serial = last_given(self.last_serial, new_lock);
        Ok(res)
    }
}

// IVBUFLEN if the bytes are not a name.
#[tactic(auto, unfolding(vlm_model::specs::Enqueue::name_refusal, vlm_words::specs::Names::name_of))]
fn check_name(name: &NameArg) -> Result<(), Cond>
    ensures refusal { result_err result ≡ name_refusal name.now }
    ensures name { OnOk result (is_name name.now ≡ true) }
{
    if name.is_name() {
        Ok(())
    } else {
        Err(Cond::Ivbuflen)
    }
}

// UNSUPPORTED for EXPEDITE at a mode other than NL.
#[tactic(auto, unfolding(vlm_model::specs::Enqueue::expedite_refusal))]
fn check_expedite(mode: Mode, flags: EnqFlags) -> Result<(), Cond>
    ensures { result_err result ≡ expedite_refusal (flag_bits flags) mode }
{
    if flags.has(EnqFlags::EXPEDITE) && !matches!(mode, Mode::Nl) {
        Err(Cond::Unsupported)
    } else {
        Ok(())
    }
}
