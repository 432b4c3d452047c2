//! A pass over the queued requests, resource by resource, with the rank of each: it checks the ranks, or searches.

ghost use Rattle.std.specs.Prelude.{◌≡◌, ◌+◌, ◌<◌, ◌≤◌, ◌++◌, ℕ, true, [], ◌∷◌};
ghost use Rattle.vlm_words.specs.declared.resources.Queue.{Queue};
ghost use Rattle.vlm_store.specs.Records.{HasResource, IsStored, Records};
ghost use Rattle.vlm_queue.specs.Walks.{rows_queued};
ghost use Rattle.vlm_locks.specs.Rest.{IsAtRest};
ghost use Rattle.vlm_locks.specs.Standing.{IsLocated};
ghost use Rattle.vlm_cycle.specs.Finding.{Improves, IsLocatedIfAny};
ghost use Rattle.vlm_cycle.specs.Leading.{IsFirstOn, rows_queued_on};
ghost use Rattle.vlm_cycle.specs.Marking.{KeepsRoom};
ghost use Rattle.vlm_cycle.specs.Passing.{MayPass, Passes};
ghost use Rattle.vlm_cycle.specs.Ranking.{AreBlockerRanksOf, Falls, PassesQueue, rank_of};
ghost use Rattle.vlm_cycle.specs.Waiting.{IsRoomy, OwnsWaitedFor};

use crate::blocker_ranks::BlockerRanks;
use crate::deadlocks::is_deadlocked;
use crate::first_requests::resource_of_first;
use crate::ranked_requests::{RankedRequest, blocker_ranks_of, located_in, rank_request};
use crate::scratch::Scratch;
use crate::victims::is_later;
use vlm_locks::LocatedLock;
use vlm_queue::{head, next};
use vlm_store::{LockAt, ResAt, Store};
use vlm_words::resources::Queue;

/// What a pass does with a request.
#[derive(Clone, Copy)]
pub(crate) enum Purpose {
    Check,
    /// Searches, if the rank leaves open whether the request is deadlocked.
    Search,
}

/// A pass, with its result so far.
#[derive(Clone, Copy)]
pub(crate) struct Pass {
    pub(crate) purpose: Purpose,
    /// Whether no request waits for a process of a higher rank. A check finds out; a search gets the check's result.
    pub(crate) falls: bool,
    /// A search: the most recent deadlocked request. A check: the most recent request that waits for a process of its
    /// own rank or a higher one.
    pub(crate) found: Option<LocatedLock>,
}

impl Pass {
    fn check(&mut self, ranked: &RankedRequest, waiting: &LocatedLock)
        ensures purpose { self.new.purpose ≡ self.old.purpose }
        ensures before { self.new.falls ≡ true → self.old.falls ≡ true }
        ensures falls { self.new.falls ≡ true → ranked.now.top ≤ ranked.now.rank + 1 }
        ensures located { (s : Records) → IsLocated waiting.now s → IsLocatedIfAny s self.old.found
            → IsLocatedIfAny s self.new.found }
    {
        self.falls = self.falls && ranked.falls();
        if !ranked.is_below() && is_later(&waiting.row, &self.found) {
            self.found = Some(*waiting);
        }
    }

    // Keeps a request that is deadlocked and more recent than the one found. If no process waits for one of a higher
    // rank, a request that waits only for lower ranks is not deadlocked, and needs no search.
    fn search(
        &mut self,
        store: &Store,
        scratch: &mut Scratch,
        ranked: &RankedRequest,
        waiting: &LocatedLock,
    )
        requires rest { IsAtRest store.now }
        requires located { IsLocated waiting.now store.now }
        requires roomy { IsRoomy store.now scratch.old }
        requires falls { self.old.falls ≡ true → Falls store.now scratch.old.ranks }
        requires rank { ranked.now.rank ≡ rank_of store.now scratch.old.ranks waiting.now.row.pid }
        requires top { (pid : ℕ) → OwnsWaitedFor store.now waiting.now.row pid
            → rank_of store.now scratch.old.ranks pid < ranked.now.top }
        ensures purpose { self.new.purpose ≡ self.old.purpose }
        ensures falls { self.new.falls ≡ self.old.falls }
        ensures improves { Improves store.now (waiting.now.row ∷ []) self.old.found self.new.found }
        ensures room { KeepsRoom scratch.old scratch.new }
        ensures ranks { scratch.new.ranks ≡ scratch.old.ranks }
    {
        if !is_later(&waiting.row, &self.found) {
            return;
        }
        if self.falls && ranked.is_below() {
            return;
        }
        if is_deadlocked(store, scratch, waiting) {
            self.found = Some(*waiting);
        }
    }

    fn over_request(
        &mut self,
        store: &Store,
        scratch: &mut Scratch,
        ranked: &RankedRequest,
        waiting: &LocatedLock,
    )
        requires rest { IsAtRest store.now }
        requires located { IsLocated waiting.now store.now }
        requires roomy { IsRoomy store.now scratch.old }
        requires may { MayPass store.now scratch.old.ranks self.old }
        requires rank { ranked.now.rank ≡ rank_of store.now scratch.old.ranks waiting.now.row.pid }
        requires top { (pid : ℕ) → OwnsWaitedFor store.now waiting.now.row pid
            → rank_of store.now scratch.old.ranks pid < ranked.now.top }
        ensures passes { Passes store.now scratch.old.ranks (waiting.now.row ∷ []) self.old self.new }
        ensures room { KeepsRoom scratch.old scratch.new }
        ensures ranks { scratch.new.ranks ≡ scratch.old.ranks }
    {
        match self.purpose {
            Purpose::Check => self.check(ranked, waiting),
            Purpose::Search => self.search(store, scratch, ranked, waiting),
        }
    }

    fn over_queue(
        &mut self,
        store: &Store,
        scratch: &mut Scratch,
        blocker_ranks: &mut BlockerRanks,
        res: ResAt,
        queue: Queue,
    )
        requires rest { IsAtRest store.now }
        requires there { HasResource res store.now }
        requires roomy { IsRoomy store.now scratch.old }
        requires may { MayPass store.now scratch.old.ranks self.old }
        requires blocker_ranks { AreBlockerRanksOf store.now scratch.old.ranks blocker_ranks.old res
            queue }
        ensures passes { Passes store.now scratch.old.ranks (rows_queued res queue store.now)
            self.old self.new }
        ensures room { KeepsRoom scratch.old scratch.new }
        ensures ranks { scratch.new.ranks ≡ scratch.old.ranks }
        ensures queue { PassesQueue store.now scratch.old.ranks (rows_queued res queue store.now)
            blocker_ranks.old blocker_ranks.new }
    {
        let mut at = head(store, res, queue);
        while let Some(lock) = at {
            let located = located_in(store, res, queue, lock);
            let ranked = rank_request(store, &scratch.ranks, blocker_ranks, &located);
            self.over_request(store, scratch, &ranked, &located);
            at = next(store, lock);
        }
    }

    fn over_resource(&mut self, store: &Store, scratch: &mut Scratch, res: ResAt)
        requires rest { IsAtRest store.now }
        requires there { HasResource res store.now }
        requires roomy { IsRoomy store.now scratch.old }
        requires may { MayPass store.now scratch.old.ranks self.old }
        ensures passes { Passes store.now scratch.old.ranks (rows_queued res Queue.Conversion store.now
            ++ rows_queued res Queue.Waiting store.now) self.old self.new }
        ensures room { KeepsRoom scratch.old scratch.new }
        ensures ranks { scratch.new.ranks ≡ scratch.old.ranks }
    {
        let mut blocker_ranks = blocker_ranks_of(store, &scratch.ranks, res);
        self.over_queue(store, scratch, &mut blocker_ranks, res, Queue::Conversion);
        self.over_queue(store, scratch, &mut blocker_ranks, res, Queue::Waiting);
    }

    /// Passes over a resource, if this lock has the first queued request there.
    pub(crate) fn over_first(&mut self, store: &Store, scratch: &mut Scratch, lock: LockAt)
        requires rest { IsAtRest store.now }
        requires stored { IsStored lock store.now }
        requires roomy { IsRoomy store.now scratch.old }
        requires may { MayPass store.now scratch.old.ranks self.old }
        ensures kept { Passes store.now scratch.old.ranks [] self.old self.new }
        ensures passes { (res : ℕ) → IsFirstOn store.now lock res
            → Passes store.now scratch.old.ranks (rows_queued_on res store.now) self.old self.new }
        ensures room { KeepsRoom scratch.old scratch.new }
        ensures ranks { scratch.new.ranks ≡ scratch.old.ranks }
    {
        if let Some(res) = resource_of_first(store, lock) {
            self.over_resource(store, scratch, res);
        }
    }
}
