//! The checks that several steps share. They only read, and answer the refusal.

ghost use Rattle.std.specs.Prelude.{◌≡◌, ◌<◌, ◌≤◌, ◌^◌, ℕ, IfOk, OnOk};
ghost use Rattle.std.specs.Result.{result_err};
ghost use Rattle.vlm_model.specs.Checks.{acceptance, caller_refusal, lock_refusal, named_lkid, numbers_refusal, queue_refusal, request_numbers_refusal, status_block_refusal, which_refusal};
ghost use Rattle.vlm_words.specs.Flags.{flag_bits};
ghost use Rattle.vlm_model.specs.Rundown.{leave_refusal};
ghost use Rattle.vlm_model.specs.StatusBlocks.{status_block_of};
ghost use Rattle.vlm_model.specs.Quotas.{quota_refusal};
ghost use Rattle.vlm_machine.specs.Admissions.{IsCaller};
ghost use Rattle.vlm_machine.specs.Machine.{plain_state};
ghost use Rattle.vlm_locks.specs.Standing.{IsLockOf, IsLocatedLockOf};
ghost use Rattle.vlm_store.specs.Records.{IsStored};

use crate::nodes::has_departed;
use crate::processes::{Caller, living};
use crate::records::Machine;
use vlm_locks::{LocatedLock, find_lock, located_lock};
use vlm_procs::{has_room, has_status_block, status_block};
use vlm_store::LockAt;
use vlm_words::blocks::Block;
use vlm_words::conditions::Cond;
use vlm_words::flags::EnqFlags;
use vlm_words::ids::process_node;
use vlm_words::steps::Which;

impl Machine {
    /// BADPARAM if the node does not exist, DEPARTED if it has departed.
    #[tactic(auto, unfolding(vlm_model::specs::Rundown::leave_refusal))]
    pub(crate) fn check_node(&self, node: u8) -> Result<(), Cond>
        ensures refusal { result_err result ≡ leave_refusal (plain_state self.now) node }
        ensures first { OnOk result (1 ≤ node) }
        ensures last { OnOk result (node ≤ 8) }
    {
        if node < 1 || 8 < node {
            return Err(Cond::Badparam);
        }
        if has_departed(&self.nodes, u16::from(node)) {
            return Err(Cond::Departed);
        }
        Ok(())
    }

    /// The caller. DEPARTED if its node has departed, NONEXPR if no living process has the ID.
    #[tactic(auto, unfolding(vlm_model::specs::Checks::caller_refusal))]
    pub(crate) fn checked_caller(&self, pid: u32) -> Result<Caller, Cond>
        ensures refusal { result_err result ≡ caller_refusal (plain_state self.now) pid }
        ensures caller { IfOk result (λ caller. IsCaller caller self.now.records) }
        ensures pid { IfOk result (λ caller. caller.pid ≡ pid) }
    {
        if has_departed(&self.nodes, process_node(pid)) {
            return Err(Cond::Departed);
        }
        living(&self.store, pid).ok_or(Cond::Nonexpr)
    }

    /// NOLOCKID if the IDs or the request numbers are used up.
    #[tactic(auto, unfolding(vlm_model::specs::Checks::numbers_refusal))]
    pub(crate) fn check_numbers(&self) -> Result<(), Cond>
        ensures refusal { result_err result ≡ numbers_refusal (plain_state self.now) }
        ensures lkid { OnOk result (self.now.next_lkid < 2 ^ 32) }
        ensures request { OnOk result (self.now.next_request < 2 ^ 64) }
    {
        if self.last_lkid < u32::MAX && self.last_request < u64::MAX {
            Ok(())
        } else {
            Err(Cond::Nolockid)
        }
    }

    /// NOLOCKID if the request numbers are used up.
    #[tactic(auto, unfolding(vlm_model::specs::Checks::request_numbers_refusal))]
    pub(crate) fn check_request_numbers(&self) -> Result<(), Cond>
        ensures refusal { result_err result ≡ request_numbers_refusal (plain_state self.now) }
        ensures request { OnOk result (self.now.next_request < 2 ^ 64) }
    {
        if self.last_request < u64::MAX {
            Ok(())
        } else {
            Err(Cond::Nolockid)
        }
    }

    /// EXENQLM if the caller has as many locks as its quota.
    #[tactic(auto, unfolding(vlm_model::specs::Quotas::quota_refusal))]
    pub(crate) fn check_quota(&self, caller: &Caller) -> Result<(), Cond>
        requires { IsCaller caller.now self.now.records }
        ensures { result_err result ≡ quota_refusal (plain_state self.now) caller.now.pid }
    {
        if has_room(&self.store, caller.at) {
            Ok(())
        } else {
            Err(Cond::Exenqlm)
        }
    }

    #[tactic(auto, unfolding(vlm_model::specs::Checks::status_block_refusal, vlm_model::specs::StatusBlocks::status_block_at))]
    fn checked_status_block(&self, caller: &Caller, number: u8) -> Result<Block, Cond>
        requires { IsCaller caller.now self.now.records }
        ensures refusal { result_err result
            ≡ status_block_refusal (plain_state self.now) caller.now.pid number }
        ensures block { IfOk result (λ block. block
            ≡ status_block_of (plain_state self.now).processes caller.now.pid number) }
    {
        status_block(&self.store, caller.at, number).ok_or(Cond::Accvio)
    }

    /// ACCVIO if the caller has no status block with this number.
    #[tactic(auto, unfolding(vlm_model::specs::Checks::status_block_refusal))]
    pub(crate) fn check_status_block(&self, caller: &Caller, number: u8) -> Result<(), Cond>
        requires { IsCaller caller.now self.now.records }
        ensures { result_err result
            ≡ status_block_refusal (plain_state self.now) caller.now.pid number }
    {
        if has_status_block(&self.store, caller.at, number) {
            Ok(())
        } else {
            Err(Cond::Accvio)
        }
    }

    /// The named ID, given directly or by a status block. ACCVIO if the caller has no such block.
    #[tactic(auto, unfolding(vlm_model::specs::Checks::which_refusal))]
    pub(crate) fn checked_lkid(&self, caller: &Caller, lock: Which) -> Result<u32, Cond>
        requires { IsCaller caller.now self.now.records }
        ensures refusal { result_err result
            ≡ which_refusal (plain_state self.now) caller.now.pid lock }
        ensures lkid { IfOk result
            (λ lkid. lkid ≡ named_lkid (plain_state self.now) caller.now.pid lock) }
    {
        match lock {
            Which::Id(lkid) => Ok(lkid),
            Which::Block(number) => Ok(self.checked_status_block(caller, number)?.lkid),
        }
    }

    /// The lock of the caller with this ID. IVLOCKID if the caller has no such lock.
    #[tactic(auto, unfolding(vlm_model::specs::Checks::lock_refusal))]
    // Inlined: each step finds one lock.
    #[inline(always)]
    pub(crate) fn checked_lock(&self, caller: &Caller, lkid: u32) -> Result<LockAt, Cond>
        ensures refusal { result_err result
            ≡ lock_refusal (plain_state self.now) caller.now.pid lkid }
        ensures lock { IfOk result
            (λ lock. IsLockOf caller.now.pid lkid lock self.now.records) }
    {
        find_lock(&self.store, caller.pid, lkid).ok_or(Cond::Ivlockid)
    }

    pub(crate) fn located(&self, lock: LockAt) -> LocatedLock
        requires { IsStored lock self.now.records }
        ensures lock { result.lock ≡ lock }
        ensures located { (pid lkid : ℕ) → IsLockOf pid lkid lock self.now.records
            → IsLocatedLockOf pid lkid result self.now.records }
    {
        located_lock(&self.store, lock)
    }
}

/// NOTQUEUED if a request that must not queue is not granted at once.
pub(crate) fn check_queue(flags: EnqFlags, at_once: bool) -> Result<(), Cond>
    ensures { result_err result ≡ queue_refusal (flag_bits flags) at_once }
{
    if flags.has(EnqFlags::NOQUEUE) && !at_once {
        Err(Cond::Notqueued)
    } else {
        Ok(())
    }
}

/// The condition for an accepted request: SYNCH if it is granted at once with SYNCSTS, else NORMAL.
pub(crate) fn acceptance(flags: EnqFlags, at_once: bool) -> Cond
    ensures { result ≡ acceptance (flag_bits flags) at_once }
{
    if flags.has(EnqFlags::SYNCSTS) && at_once {
        Cond::Synch
    } else {
        Cond::Normal
    }
}
