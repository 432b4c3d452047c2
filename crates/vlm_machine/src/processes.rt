//! The process that makes a step.

ghost use Rattle.std.specs.Prelude.{◌≡◌, None, IfNone, IfSome, IsSome};
ghost use Rattle.vlm_words.specs.State.{process_of};
ghost use Rattle.vlm_store.specs.Plain.{plain_processes};
ghost use Rattle.vlm_machine.specs.Admissions.{IsCaller};

use vlm_store::{ProcAt, Store};

/// A living process that makes a step.
#[derive(Clone, Copy)]
pub struct Caller {
    pub at: ProcAt,
    pub pid: u32,
}

pub fn living(store: &Store, pid: u32) -> Option<Caller>
    ensures caller { IfSome result (λ caller. IsCaller caller store.now) }
    ensures pid { IfSome result (λ caller. caller.pid ≡ pid) }
    ensures lives { IfSome result (λ _. IsSome (process_of (plain_processes store.now) pid)) }
    ensures none { IfNone result (process_of (plain_processes store.now) pid ≡ None) }
{
    let at = store.process(pid)?;
    Some(Caller { at, pid })
}
