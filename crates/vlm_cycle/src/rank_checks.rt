//! Checks the ranks: whether no process waits for one of a higher rank.

ghost use Rattle.std.specs.Prelude.{◌≡◌, true};
ghost use Rattle.vlm_locks.specs.Rest.{IsAtRest};
ghost use Rattle.vlm_cycle.specs.Finding.{IsLocatedIfAny};
ghost use Rattle.vlm_cycle.specs.Marking.{KeepsRoom};
ghost use Rattle.vlm_cycle.specs.Ranking.{Falls};
ghost use Rattle.vlm_cycle.specs.Waiting.{IsRoomy};

use crate::passes::{Pass, Purpose};
use crate::scratch::Scratch;
use vlm_store::Store;

/// Checks whether no process waits for one of a higher rank, and guesses the victim. The cost grows with the locks of
/// the resources that have queued requests.
pub(crate) fn check_ranks(store: &Store, scratch: &mut Scratch) -> Pass
    requires rest { IsAtRest store.now }
    requires roomy { IsRoomy store.now scratch.old }
    ensures falls { result.falls ≡ true → Falls store.now scratch.old.ranks }
    ensures located { IsLocatedIfAny store.now result.found }
    ensures room { KeepsRoom scratch.old scratch.new }
    ensures ranks { scratch.new.ranks ≡ scratch.old.ranks }
{
    let mut pass = Pass {
        purpose: Purpose::Check,
        falls: true,
        found: None,
    };
    for lock in store.queued_locks() {
        pass.over_first(store, scratch, lock);
    }
    pass
}
