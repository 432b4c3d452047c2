//! Warns the armed locks of a resource that block a queued request.

ghost use Rattle.std.specs.Prelude.{◌≡◌, ◌≤◌, true, IfSome, Some};
ghost use Rattle.vlm_words.specs.declared.locks.LockState.{LockState};
ghost use Rattle.vlm_model.specs.Asts.{blocking_asts, is_to_warn, processes_after_asts};
ghost use Rattle.vlm_words.specs.Dues.{row_due};
ghost use Rattle.vlm_store.specs.Plain.{plain_processes};
ghost use Rattle.vlm_store.specs.Records.{HasResource, IsProcess, IsSound, IsStored, SameButNotices, StoredResource, Stores, due_of, resource_at, rows_of_locks};
ghost use Rattle.vlm_locks.specs.Owing.{IsPaid, OwedMoves};
ghost use Rattle.vlm_locks.specs.Warning.{IsLockWarned, IsWarned, SparesOthers, disarmed_row};

use vlm_procs::{forgive, queue_ast};
use vlm_store::{Armed, LockAt, ProcAt, ResAt, Store, StoredState};
use vlm_words::asts::{Ast, AstKind};
use vlm_words::modes::Mode;

#[tactic(auto, unfolding(vlm_model::specs::Asts::is_to_warn))]
fn is_to_warn(store: &Store, res: ResAt, row: &StoredState) -> bool
    requires { HasResource res store.now }
    ensures { (r : StoredResource) → resource_at res store.now.resources ≡ Some r → result
        ≡ is_to_warn (rows_of_locks r.converting) (rows_of_locks r.waiting) row.now }
{
    match row.held() {
        Some(held) => row.is_armed() && store.blocks_a_request(res, held.mode),
        None => false,
    }
}

// Queues the blocking AST of a lock, or forgives the AST owed for it if the granted request names no routine.
fn queue_warning(store: &mut Store, at: ProcAt, row: &StoredState)
    requires process { IsProcess at row.now.pid store.old }
    requires owed { row_due row.now ≤ due_of row.now.pid store.old }
    requires armed { row.now.armed ≡ true }
    ensures queued { plain_processes store.new ≡ processes_after_asts
        (blocking_asts row.now.held row.now.lkid row.now.pid) (plain_processes store.old) }
    ensures owed { OwedMoves row.now (disarmed_row row.now) store.old store.new }
    ensures only_notices { SameButNotices store.old store.new }
{
    let Some(held) = row.held() else {
        forgive(store, at, 1);
        return;
    };
    let Some(routine) = held.blocking else {
        forgive(store, at, 1);
        return;
    };
    let ast = Ast {
        kind: AstKind::Blocking,
        routine,
        param: held.param,
        lkid: row.lkid(),
    };
    queue_ast(store, at, ast);
}

fn warn_lock(store: &mut Store, res: ResAt, lock: LockAt)
    requires there { HasResource res store.old }
    requires stored { IsStored lock store.old }
    requires paid { IsPaid store.old }
    ensures warned { (r : StoredResource) (row : LockState)
        → resource_at res store.old.resources ≡ Some r → Stores store.old lock row
        → IsLockWarned r lock row store.old store.new }
    ensures sound { IsSound store.new }
{
    let record = store.lock_record(lock);
    let row = record.row;
    let owner = record.owner;
    if !is_to_warn(store, res, &row) {
        return;
    }
    queue_warning(store, owner, &row);
    store.disarm(lock);
}

// The next lock is read before a lock is warned, since a warned lock leaves the list.
fn warn_armed(store: &mut Store, res: ResAt, which: Armed)
    requires there { HasResource res store.old }
    requires spares { SparesOthers which res store.old }
    requires paid { IsPaid store.old }
    ensures warned { IfSome (resource_at res store.old.resources)
        (λ r. IsWarned res r store.old store.new) }
    ensures paid { IsPaid store.new }
{
    let mut at = store.first_armed(res, which);
    while let Some(lock) = at {
        at = store.next_armed(res, which, lock);
        warn_lock(store, res, lock);
    }
}

/// Warns the granted locks of a resource that are armed and block a queued request, in their order: queues the blocking
/// AST of each, and disarms it. The cost grows with the locks that are warned: after all grants, each lock of the
/// chosen list blocks some request (see [`Armed`]).
#[inline(never)]
pub(crate) fn warn(store: &mut Store, res: ResAt)
    requires there { HasResource res store.old }
    requires paid { IsPaid store.old }
    ensures warned { IfSome (resource_at res store.old.resources)
        (λ r. IsWarned res r store.old store.new) }
    ensures paid { IsPaid store.new }
{
    if store.blocks_a_request(res, Mode::Cr) {
        warn_armed(store, res, Armed::AboveNl);
    } else {
        warn_armed(store, res, Armed::AboveCr);
    }
}
