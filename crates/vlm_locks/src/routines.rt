//! The routines of requests, and the ASTs that are owed for them.

ghost use Rattle.std.specs.Prelude.{◌≡◌, ◌+◌, ℕ, IsOk, OnErr, OnOk};
ghost use Rattle.vlm_words.specs.Dues.{routines_of};
ghost use Rattle.vlm_store.specs.Plain.{plain_processes};
ghost use Rattle.vlm_store.specs.Records.{DueChanges, HasProcess, IsOwed, IsProcess, SameButNotices, on_stored, owed_less, owed_more};

use std::alloc::AllocError;
use vlm_procs::{forgive, owe};
use vlm_store::{ProcAt, Store};
use vlm_words::locks::Request;

fn routines_of(want: Option<Request>) -> usize
    ensures { result ≡ routines_of want }
{
    match want {
        None => 0,
        Some(request) => {
            usize::from(request.completion.is_some()) + usize::from(request.blocking.is_some())
        }
    }
}

/// Owes a process the ASTs of the routines that its request names, if it names any.
// Inlined: most requests name no routine, and need only the test.
#[inline(always)]
pub(crate) fn owe_routines(
    store: &mut Store,
    owner: ProcAt,
    want: Option<Request>,
) -> Result<(), AllocError>
    requires { HasProcess owner store.old }
    ensures exact { OnOk result (store.new ≡ record store.old {
      processes = on_stored owner (owed_more (routines_of want)) store.old.processes;
    }) }
    ensures processes { OnOk result (plain_processes store.new ≡ plain_processes store.old) }
    ensures owed { OnOk result ((pid : ℕ) → IsProcess owner pid store.old
        → DueChanges pid (λ due. due + routines_of want) store.old store.new) }
    ensures only_notices { OnOk result (SameButNotices store.old store.new) }
    ensures refused { OnErr result (store.new ≡ store.old) }
    ensures succeeds { routines_of want ≡ 0 → IsOk result }
{
    match routines_of(want) {
        0 => Ok(()),
        count => owe(store, owner, count),
    }
}

/// Forgives a process the ASTs of the routines that its request names.
// Kept out of line: only a refusal of memory comes here.
#[inline(never)]
pub(crate) fn forgive_routines(store: &mut Store, owner: ProcAt, want: Option<Request>)
    requires there { HasProcess owner store.old }
    requires owed { IsOwed owner (routines_of want) store.old }
    ensures { store.new ≡ record store.old {
      processes = on_stored owner (owed_less (routines_of want)) store.old.processes;
    } }
{
    forgive(store, owner, routines_of(want));
}
