//! Finds the victim: the most recent deadlocked request.

ghost use Rattle.std.specs.Prelude.{◌≡◌};
ghost use Rattle.std.specs.Bool.{OnFalse, OnTrue};
ghost use Rattle.vlm_model.specs.Deadlocks.{wanted_number};
ghost use Rattle.vlm_locks.specs.Rest.{IsAtRest};
ghost use Rattle.vlm_cycle.specs.Finding.{IsFit, IsLater, IsNotLater, IsVictimOf, IsLocatedIfAny};
ghost use Rattle.vlm_cycle.specs.Marking.{KeepsRoom};
ghost use Rattle.vlm_cycle.specs.Waiting.{IsRoomy};

use crate::deadlocks::is_deadlocked;
use crate::passes::{Pass, Purpose};
use crate::rank_checks::check_ranks;
use crate::scratch::Scratch;
use crate::tarjan_walk::rank_processes;
use vlm_locks::LocatedLock;
use vlm_store::{Store, StoredState};

/// The number of a row's queued request, 0 if there is none.
pub(crate) fn wanted_number(row: &StoredState) -> u64
    ensures { result ≡ wanted_number row.now }
{
    match row.want() {
        Some(request) => request.number,
        None => 0,
    }
}

pub(crate) fn is_later(row: &StoredState, best: &Option<LocatedLock>) -> bool
    ensures later { OnTrue result (IsLater row.now best.now) }
    ensures earlier { OnFalse result (IsNotLater row.now best.now) }
{
    match best {
        Some(best) => wanted_number(&best.row) < wanted_number(row),
        None => true,
    }
}

fn best_guess(
    store: &Store,
    scratch: &mut Scratch,
    guess: Option<LocatedLock>,
) -> Option<LocatedLock>
    requires rest { IsAtRest store.now }
    requires stands { IsLocatedIfAny store.now guess }
    requires roomy { IsRoomy store.now scratch.old }
    ensures fit { IsFit store.now result }
    ensures room { KeepsRoom scratch.old scratch.new }
    ensures ranks { scratch.new.ranks ≡ scratch.old.ranks }
{
    let located = guess?;
    if is_deadlocked(store, scratch, &located) {
        return Some(located);
    }
    None
}

/// The lock of the most recent deadlocked request, if a request is deadlocked. It takes no memory. The cost grows with
/// the queued requests, and with the locks of their resources and of the processes that own or block them. For each
/// request that the ranks leave in doubt, it grows with the locks of the processes to which the request leads.
pub fn victim(store: &Store, scratch: &mut Scratch) -> Option<LocatedLock>
    requires rest { IsAtRest store.now }
    requires roomy { IsRoomy store.now scratch.old }
    ensures victim { IsVictimOf store.now result }
    ensures located { IsFit store.now result }
    ensures room { KeepsRoom scratch.old scratch.new }
{
    rank_processes(store, &mut scratch.ranks);
    let check = check_ranks(store, scratch);
    let mut pass = Pass {
        purpose: Purpose::Search,
        falls: check.falls,
        found: best_guess(store, scratch, check.found),
    };
    for lock in store.queued_locks() {
        pass.over_first(store, scratch, lock);
    }
    pass.found
}
