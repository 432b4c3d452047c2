//! Compares the rank of a queued request with the ranks for which it waits.

ghost use Rattle.std.specs.Prelude.{◌≡◌, ◌+◌, ◌<◌, ◌≤◌, ℕ, Some, true};
ghost use Rattle.vlm_words.specs.declared.locks.LockState.{LockState};
ghost use Rattle.vlm_words.specs.declared.modes.Mode.{Mode};
ghost use Rattle.vlm_words.specs.declared.resources.Queue.{Queue};
ghost use Rattle.vlm_store.specs.Records.{HasResource, IsStored, Stores};
ghost use Rattle.vlm_queue.specs.Walks.{IsInQueue, rows_queued};
ghost use Rattle.vlm_locks.specs.Standing.{IsLocated};
ghost use Rattle.vlm_cycle.specs.Ranking.{CountsHolders, IsCounted, AreBlockerRanksAt, AreBlockerRanksOf, PassesOne, highest_of, rank_of};
ghost use Rattle.vlm_cycle.specs.Waiting.{OwnsWaitedFor};

use crate::blocker_ranks::BlockerRanks;
use crate::ranks::Ranks;
use vlm_locks::LocatedLock;
use vlm_queue::{head, next};
use vlm_store::{LockAt, ResAt, Store};
use vlm_words::resources::Queue;

/// The rank of a request's owner, and a bound above the ranks of all processes for which the request waits.
#[derive(Clone, Copy)]
pub(crate) struct RankedRequest {
    pub(crate) rank: u32,
    pub(crate) top: u64,
}

impl RankedRequest {
    /// Whether it waits for no process of a higher rank.
    pub(crate) fn falls(&self) -> bool
        ensures { result ≡ true → self.now.top ≤ self.now.rank + 1 }
    {
        self.top <= u64::from(self.rank) + 1
    }

    /// Whether it waits only for processes of lower ranks.
    pub(crate) fn is_below(&self) -> bool
        ensures { result ≡ true → self.now.top ≤ self.now.rank }
    {
        self.top <= u64::from(self.rank)
    }
}

fn owner_rank(store: &Store, ranks: &Ranks, lock: LockAt) -> u32
    requires { IsStored lock store.now }
    ensures { (row : LockState) → Stores store.now lock row
        → result ≡ rank_of store.now ranks.now row.pid }
{
    ranks.of(store.lock_record(lock).owner)
}

pub(crate) fn located_in(store: &Store, res: ResAt, queue: Queue, lock: LockAt) -> LocatedLock
    requires there { HasResource res store.now }
    requires come { IsInQueue res queue (Some lock) store.now }
    ensures located { IsLocated result store.now }
    ensures stored { Stores store.now lock result.row }
    ensures only { (row : LockState) → Stores store.now lock row → row ≡ result.row }
    ensures res { result.res ≡ res }
    ensures queue { result.queue ≡ queue }
    ensures lock { result.lock ≡ lock }
{
    let record = store.lock_record(lock);
    LocatedLock {
        lock,
        owner: record.owner,
        row: record.row,
        res,
        queue,
    }
}

fn hold_queue(
    store: &Store,
    ranks: &Ranks,
    blocker_ranks: &mut BlockerRanks,
    res: ResAt,
    queue: Queue,
)
    requires there { HasResource res store.now }
    ensures counted { CountsHolders store.now ranks.now blocker_ranks.new.held
        (rows_queued res queue store.now) }
    ensures kept { (mode : Mode) (lkid other : ℕ)
        → IsCounted (highest_of blocker_ranks.old.held mode) lkid other
        → IsCounted (highest_of blocker_ranks.new.held mode) lkid other }
{
    let mut at = head(store, res, queue);
    while let Some(lock) = at {
        let rank = owner_rank(store, ranks, lock);
        blocker_ranks.hold(&store.lock_record(lock).row, rank);
        at = next(store, lock);
    }
}

/// The bounds of a resource before its first queued request. The cost grows with the locks that hold a mode on it.
pub(crate) fn blocker_ranks_of(store: &Store, ranks: &Ranks, res: ResAt) -> BlockerRanks
    requires there { HasResource res store.now }
    ensures { AreBlockerRanksOf store.now ranks.now result res Queue.Conversion }
{
    let mut blocker_ranks = BlockerRanks::new();
    hold_queue(store, ranks, &mut blocker_ranks, res, Queue::Granted);
    hold_queue(store, ranks, &mut blocker_ranks, res, Queue::Conversion);
    blocker_ranks
}

/// Compares the rank of a lock's request, and adds the request to the bounds for later ones.
pub(crate) fn rank_request(
    store: &Store,
    ranks: &Ranks,
    blocker_ranks: &mut BlockerRanks,
    waiting: &LocatedLock,
) -> RankedRequest
    requires located { IsLocated waiting.now store.now }
    requires blocker_ranks { AreBlockerRanksAt store.now ranks.now blocker_ranks.old waiting.now }
    ensures rank { result.rank ≡ rank_of store.now ranks.now waiting.now.row.pid }
    ensures top { (pid : ℕ) → OwnsWaitedFor store.now waiting.now.row pid
        → rank_of store.now ranks.now pid < result.top }
    ensures passes { PassesOne waiting.now.row (rank_of store.now ranks.now waiting.now.row.pid)
        blocker_ranks.old blocker_ranks.new }
{
    let rank = owner_rank(store, ranks, waiting.lock);
    let top = blocker_ranks.top(&waiting.row);
    blocker_ranks.pass(&waiting.row, rank);
    RankedRequest { rank, top }
}
