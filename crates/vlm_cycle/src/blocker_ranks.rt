//! Bounds of the ranks for which the queued requests of a resource wait.

ghost use Rattle.std.specs.Prelude.{◌≡◌, ◌≢◌, ◌<◌, ◌≤◌, ℕ, Some, false};
ghost use Rattle.vlm_words.specs.declared.locks.Request.{Request};
ghost use Rattle.vlm_words.specs.declared.modes.Mode.{Mode};
ghost use Rattle.vlm_words.specs.Flags.{flag_bits, has_flag, nodlckwt};
ghost use Rattle.vlm_words.specs.Modes.{is_compatible};
ghost use Rattle.vlm_cycle.specs.Ranking.{CountsHeld, IsAbove, IsAboveAll, IsCounted, PassesOne, highest_of};

use crate::conflicts::blocks_those_behind;
use vlm_store::StoredState;
use vlm_words::flags::EnqFlags;
use vlm_words::modes::{Mode, compatible};

/// Bounds on the ranks of some locks: `most` is above all of them, and `rest` above all except the lock of the highest
/// rank. So the bound without any one lock is known.
#[derive(Clone, Copy)]
pub(crate) struct HighestRank {
    // the lock of the highest rank
    lkid: u32,
    most: u64,
    rest: u64,
}

impl HighestRank {
    pub(crate) fn add(&mut self, lkid: u32, rank: u32)
        ensures counted { IsCounted self.new lkid rank }
        ensures kept { (other below : ℕ) → IsCounted self.old other below
            → IsCounted self.new other below }
    {
        let above = u64::from(rank) + 1;
        if self.most < above {
            if self.lkid != lkid {
                self.rest = self.most;
                self.lkid = lkid;
            }
            self.most = above;
        } else if self.lkid != lkid && self.rest < above {
            self.rest = above;
        }
    }

    /// A bound above the ranks of the other locks.
    pub(crate) fn but(&self, lkid: u32) -> u64
        ensures { (other rank : ℕ) → other ≢ lkid → IsCounted self.now other rank
            → rank < result }
    {
        if self.lkid == lkid {
            self.rest
        } else {
            self.most
        }
    }
}

/// Bounds above the ranks of the owners for whose locks a request may wait.
#[derive(Clone, Copy)]
pub(crate) struct BlockerRanks {
    // for each mode: the locks that hold it without NODLCKBLK
    pub(crate) held: [HighestRank; 6],
    // above the ranks of the owners of earlier requests for which later ones wait
    pub(crate) before: u64,
}

impl BlockerRanks {
    pub(crate) fn new() -> BlockerRanks {
        let none = HighestRank {
            lkid: 0,
            most: 0,
            rest: 0,
        };
        BlockerRanks {
            held: [none; 6],
            before: 0,
        }
    }

    pub(crate) fn hold(&mut self, row: &StoredState, rank: u32)
        ensures counted { CountsHeld self.new.held row.now.held row.now.lkid rank }
        ensures kept { (mode : Mode) (lkid other : ℕ)
            → IsCounted (highest_of self.old.held mode) lkid other
            → IsCounted (highest_of self.new.held mode) lkid other }
    {
        let Some(held) = row.held() else {
            return;
        };
        if held.flags.has(EnqFlags::NODLCKBLK) {
            return;
        }
        let mut highest = self.held[held.mode.rank()];
        highest.add(row.lkid(), rank);
        self.held[held.mode.rank()] = highest;
    }

    fn of_mode(&self, mode: Mode, held: Mode, lkid: u32) -> u64
        ensures { is_compatible mode held ≡ false → IsAbove self.now.held held lkid result }
    {
        if compatible(mode, held) {
            0
        } else {
            self.held[held.rank()].but(lkid)
        }
    }

    // A bound above the ranks of the others that hold a mode that is incompatible with the wanted one.
    fn against(&self, mode: Mode, lkid: u32) -> u64
        ensures { IsAboveAll self.now.held mode lkid result }
    {
        let nl = self.of_mode(mode, Mode::Nl, lkid);
        let cr = self.of_mode(mode, Mode::Cr, lkid);
        let cw = self.of_mode(mode, Mode::Cw, lkid);
        let pr = self.of_mode(mode, Mode::Pr, lkid);
        let pw = self.of_mode(mode, Mode::Pw, lkid);
        let ex = self.of_mode(mode, Mode::Ex, lkid);
        nl.max(cr).max(cw).max(pr).max(pw).max(ex)
    }

    /// A bound above the ranks of the owners for whose locks the request of a row waits.
    pub(crate) fn top(&self, row: &StoredState) -> u64
        ensures held { (want : Request) → row.now.want ≡ Some want
            → has_flag (flag_bits want.flags) nodlckwt ≡ false
            → IsAboveAll self.now.held want.mode row.now.lkid result }
        ensures before { (want : Request) → row.now.want ≡ Some want
            → has_flag (flag_bits want.flags) nodlckwt ≡ false → self.now.before ≤ result }
    {
        let Some(want) = row.want() else {
            return 0;
        };
        if want.flags.has(EnqFlags::NODLCKWT) {
            return 0;
        }
        self.against(want.mode, row.lkid()).max(self.before)
    }

    pub(crate) fn pass(&mut self, row: &StoredState, rank: u32)
        ensures { PassesOne row.now rank self.old self.new }
    {
        if blocks_those_behind(&row.want()) {
            self.before = self.before.max(u64::from(rank) + 1);
        }
    }
}
