//! The waits of a queued request, as the ranking follows them.

ghost use Rattle.std.specs.Option.{ForSome};
ghost use Rattle.vlm_store.specs.Records.{IsStored};
ghost use Rattle.vlm_cycle.specs.Notes.{IsWanting};

use crate::conflicts::{blocks_those_behind, holds_against};
use crate::ranks::Ranks;
use crate::tarjan_nodes::BlockerKind;
use vlm_store::{LockAt, ResAt, Store, StoredState};
use vlm_words::flags::EnqFlags;
use vlm_words::modes::Mode;
use vlm_words::resources::Queue;

/// A queued request that waits for others.
#[derive(Clone, Copy)]
pub(crate) struct AwaitedModes {
    pub(crate) lock: LockAt,
    pub(crate) res: ResAt,
    /// Whether it is in the waiting queue, after the conversions.
    pub(crate) is_behind_conversions: bool,
    pub(crate) mode: Mode,
}

// The mode for which a row waits; no mode if it has no request, or with NODLCKWT.
fn awaited_mode(row: &StoredState) -> Option<Mode> {
    let request = row.want()?;
    if request.flags.has(EnqFlags::NODLCKWT) {
        return None;
    }
    Some(request.mode)
}

pub(crate) fn awaited_modes(store: &Store, lock: LockAt) -> Option<AwaitedModes>
    requires stored { IsStored lock store.now }
    ensures there { ForSome result (λ w. IsWanting store.now w) }
{
    let record = store.lock_record(lock);
    let mode = awaited_mode(&record.row)?;
    let (res, queue) = record.place.parts();
    let is_behind_conversions = match queue {
        Queue::Granted => return None,
        Queue::Conversion => false,
        Queue::Waiting => true,
    };
    Some(AwaitedModes {
        lock,
        res,
        is_behind_conversions,
        mode,
    })
}

impl AwaitedModes {
    pub(crate) fn waits_for(&self, part: BlockerKind, lock: LockAt, row: &StoredState) -> bool {
        if lock.slot() == self.lock.slot() {
            return false;
        }
        let holds = holds_against(self.mode, &row.held());
        let blocks = blocks_those_behind(&row.want());
        match part {
            BlockerKind::Before => blocks,
            BlockerKind::Alike => false,
            BlockerKind::Granted => holds,
            BlockerKind::Converting => holds || (self.is_behind_conversions && blocks),
        }
    }

    /// Whether the request of this row, earlier in its queue, waits for all holders for which this one waits.
    pub(crate) fn is_like(&self, row: &StoredState) -> bool {
        match row.want() {
            Some(request) => request.mode.rank() == self.mode.rank(),
            None => false,
        }
    }
}

/// Whether later requests, of which `own` is one, need not look at the locks before this queued lock. Its owner waits
/// for these locks too. Later requests wait for its owner, or it is theirs, or the owner's component is closed.
pub(crate) fn is_covering(store: &Store, ranks: &Ranks, own: LockAt, lock: LockAt) -> bool
    requires own { IsStored own store.now }
    requires lock { IsStored lock store.now }
{
    let record = store.lock_record(lock);
    match record.row.want() {
        Some(request) => {
            let blocks = !request.flags.has(EnqFlags::NODLCKBLK)
                || record.owner == store.lock_record(own).owner
                || ranks.of(record.owner) > 0;
            blocks && !request.flags.has(EnqFlags::NODLCKWT)
        }
        None => false,
    }
}
