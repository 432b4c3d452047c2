//! The counts of a resource's locks by mode.

ghost use Rattle.std.specs.Prelude.{◌≡◌, IsSome, None, Some};
ghost use Rattle.std.specs.Option.{ForSome};
ghost use Rattle.slab.specs.Slab.{ContainsKey};
ghost use Rattle.vlm_words.specs.declared.modes.Mode.{Mode};
ghost use Rattle.vlm_words.specs.declared.resources.Queue.{Queue};
ghost use Rattle.vlm_records.specs.declared.handles.Place.{Place};
ghost use Rattle.vlm_records.specs.Tallies.{has_mode, one_if, weight_of};
ghost use Rattle.vlm_records.specs.Tallies.Count.{of_held};
ghost use Rattle.vlm_records.specs.Kept.{Recounts, WritesCounts};
ghost use Rattle.vlm_records.specs.Shown.{IsPlaced, IsTallied, handles_but, handles_fit, noted, own_share, rows};

use crate::handles::{LockAt, ResAt};
use crate::locks::Lock;
use crate::queues::Queues;
use crate::rows::StoredState;
use crate::tallies::Counted;
use vlm_words::modes::Mode;
use vlm_words::resources::Queue;

// The mode that the lock holds on this resource; none if the lock is on another resource, waits or is loose.
fn held_on(res: ResAt, lock: &Lock) -> Option<Mode>
    ensures { (mode : Mode) → one_if (has_mode mode result)
        ≡ own_share (weight_of of_held mode) res lock.now }
{
    let (at, queue) = lock.place.parts();
    if lock.loose || at != res {
        return None;
    }
    match queue {
        Queue::Granted | Queue::Conversion => lock.row.held_mode(),
        Queue::Waiting => None,
    }
}

impl Queues {
    pub(crate) fn count_out(&mut self, at: usize)
        requires placed { IsPlaced self.old None }
        requires present { ContainsKey self.old.locks at }
        requires in_queue { IsSome (noted self.old at) }
        requires tallied { IsTallied self.old None }
        ensures tallied { IsTallied self.new (Some at) }
        ensures counts { WritesCounts self.old self.new }
    {
        let Lock { row, place, .. } = &self.locks[at];
        let (res, queue) = place.parts();
        let counted = Counted::of(queue, row);
        self.resources[res.slot()].tally.remove(counted);
    }

    pub(crate) fn count_in(&mut self, at: usize)
        requires placed { IsPlaced self.old None }
        requires present { ContainsKey self.old.locks at }
        requires in_queue { IsSome (noted self.old at) }
        requires tallied { IsTallied self.old (Some at) }
        ensures tallied { IsTallied self.new None }
        ensures counts { WritesCounts self.old self.new }
    {
        let Lock { row, place, .. } = &self.locks[at];
        let (res, queue) = place.parts();
        let counted = Counted::of(queue, row);
        self.resources[res.slot()].tally.add(counted);
    }

    pub(crate) fn recount(&mut self, at: usize, row: &StoredState)
        requires placed { IsPlaced self.old None }
        requires present { ContainsKey self.old.locks at }
        requires in_queue { IsSome (noted self.old at) }
        requires tallied { IsTallied self.old None }
        ensures counts { WritesCounts self.old self.new }
        ensures change { (place : Place) → noted self.old at ≡ Some place
            → Recounts place (rows self.old at) row.now self.old.resources self.new.resources }
    {
        let Lock {
            row: was,
            place,
            ..
        } = &self.locks[at];
        let (res, queue) = place.parts();
        let counted = Counted::of(queue, was);
        let tally = &mut self.resources[res.slot()].tally;
        tally.remove(counted);
        tally.add(Counted::of(queue, row));
    }

    /// Whether the mode is compatible with the held mode of every lock of a resource, except the asking lock. It
    /// reads counts, not locks.
    // Inlined: its caller reads the same lock and resource.
    #[inline(always)]
    pub fn fits(&self, res: ResAt, mode: Mode, except: Option<LockAt>) -> bool
        requires placed { IsPlaced self.now None }
        requires tallied { IsTallied self.now None }
        requires there { ContainsKey self.now.resources res }
        requires except { ForSome except (λ at. ContainsKey self.now.locks at) }
        ensures { result
            ≡ handles_fit mode (rows self.now)
            (handles_but self.now except (Place.Queued res Queue.Granted))
            (handles_but self.now except (Place.Queued res Queue.Conversion)) }
    {
        let tally = &self.resources[res.slot()].tally;
        match except {
            None => tally.fits(mode),
            Some(except) => {
                let lock = &self.locks[except.slot()];
                tally.fits_beside(mode, held_on(res, lock))
            }
        }
    }
}
