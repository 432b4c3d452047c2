//! The ASTs of processes.

ghost use Rattle.std.specs.Prelude.{◌≡◌, ◌<◌, ◌≤◌, ◌+◌, ◌-◌, ℕ, length, IsOk, OnErr, OnOk};
ghost use Rattle.vlm_model.specs.Asts.{asts_of, processes_after_queueing, processes_after_take};
ghost use Rattle.vlm_words.specs.Processes.{oldest};
ghost use Rattle.vlm_store.specs.Plain.{plain_processes};
ghost use Rattle.vlm_store.specs.Records.{DueChanges, DuesStay, HasProcess, IsOwed, IsProcess, SameButNotices, on_stored, owed_less, owed_more};

use std::alloc::AllocError;
use vlm_store::{ProcAt, Store};
use vlm_words::asts::Ast;

/// How many ASTs are pending for a process.
pub fn pending(store: &Store, at: ProcAt) -> usize
    requires { HasProcess at store.now }
    ensures { (pid : ℕ) → IsProcess at pid store.now → result
        ≡ length (asts_of (plain_processes store.now) pid) }
{
    store.process_record(at).asts.len()
}

/// Takes the oldest pending AST of a process, if there is one.
pub fn take(store: &mut Store, at: ProcAt) -> Option<Ast>
    requires { HasProcess at store.old }
    ensures taken { (pid : ℕ) → IsProcess at pid store.old → result
        ≡ oldest (asts_of (plain_processes store.old) pid) }
    ensures left { (pid : ℕ) → IsProcess at pid store.old → plain_processes store.new
        ≡ processes_after_take pid (plain_processes store.old) }
    ensures dues { DuesStay store.old store.new }
    ensures only_notices { SameButNotices store.old store.new }
{
    store.take_ast(at)
}

/// Makes room for this many more ASTs of a process, and counts them as due. If memory is refused, nothing is changed.
// Kept out of line: only requests that name routines come here.
#[inline(never)]
pub fn owe(store: &mut Store, at: ProcAt, count: usize) -> Result<(), AllocError>
    requires { HasProcess at store.old }
    ensures exact { OnOk result (store.new ≡ record store.old {
      processes = on_stored at (owed_more count) store.old.processes;
    }) }
    ensures processes { OnOk result (plain_processes store.new ≡ plain_processes store.old) }
    ensures owed { OnOk result ((pid : ℕ) → IsProcess at pid store.old
        → DueChanges pid (λ due. due + count) store.old store.new) }
    ensures only_notices { OnOk result (SameButNotices store.old store.new) }
    ensures succeeds { count ≡ 0 → IsOk result }
    ensures refused { OnErr result (store.new ≡ store.old) }
{
    store.owe(at, count)
}

/// Queues a due AST of a process, at the end. It takes no memory.
pub fn queue_ast(store: &mut Store, at: ProcAt, ast: Ast)
    requires there { HasProcess at store.old }
    requires owed { IsOwed at 1 store.old }
    ensures queued { (pid : ℕ) → IsProcess at pid store.old → plain_processes store.new
        ≡ processes_after_queueing pid ast (plain_processes store.old) }
    ensures owed { (pid : ℕ) → IsProcess at pid store.old
        → DueChanges pid (λ due. due - 1) store.old store.new }
    ensures only_notices { SameButNotices store.old store.new }
{
    store.queue_ast(at, ast);
}

/// Gives back the room of this many due ASTs, which will not come.
pub fn forgive(store: &mut Store, at: ProcAt, count: usize)
    requires there { HasProcess at store.old }
    requires owed { IsOwed at count store.old }
    ensures exact { store.new ≡ record store.old {
      processes = on_stored at (owed_less count) store.old.processes;
    } }
    ensures processes { plain_processes store.new ≡ plain_processes store.old }
    ensures owed { (pid : ℕ) → IsProcess at pid store.old
        → DueChanges pid (λ due. due - count) store.old store.new }
    ensures only_notices { SameButNotices store.old store.new }
{
    store.forgive(at, count);
}
