//! The group, privilege and quota of a process.

ghost use Rattle.std.specs.Prelude.{◌≡◌, ℕ, false, nat_lt};
ghost use Rattle.std.specs.Option.{option_map_or};
ghost use Rattle.vlm_model.specs.Quotas.{locks_of, quota_of};
ghost use Rattle.vlm_words.specs.State.{process_of};
ghost use Rattle.vlm_store.specs.Plain.{plain_processes, plain_resources};
ghost use Rattle.vlm_store.specs.Records.{HasProcess, IsProcess, NoneIsLoose};

use vlm_store::{ProcAt, Store};

/// The UIC group of a process.
pub fn group_of(store: &Store, at: ProcAt) -> u16
    requires { HasProcess at store.now }
    ensures { (pid : ℕ) → IsProcess at pid store.now → result
        ≡ option_map_or (λ p. p.group) (process_of (plain_processes store.now) pid) 0 }
{
    store.process_record(at).authorization.group
}

/// Whether a process has the privilege SYSLCK.
pub fn has_syslck(store: &Store, at: ProcAt) -> bool
    requires { HasProcess at store.now }
    ensures { (pid : ℕ) → IsProcess at pid store.now → result
        ≡ option_map_or (λ p. p.syslck) (process_of (plain_processes store.now) pid) false }
{
    store.process_record(at).authorization.syslck
}

/// Whether a process may have one more lock: it has fewer than its quota, counting waiting ones. No lock may be loose.
pub fn has_room(store: &Store, at: ProcAt) -> bool
    requires there { HasProcess at store.now }
    requires queued { NoneIsLoose store.now }
    ensures { (pid : ℕ) → IsProcess at pid store.now → result
        ≡ nat_lt (locks_of pid (plain_resources store.now))
        (quota_of (plain_processes store.now) pid) }
{
    store.own_lock_count(at) < usize::from(store.process_record(at).authorization.quota)
}
