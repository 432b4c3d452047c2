//! Locks join and leave the lists of armed locks of their resource.
//!
//! A step that warns must not walk over locks that block nobody. Two lists are enough for that. NL blocks no request,
//! and CR blocks only one for EX. So a request for EX is blocked by each armed lock above NL. Any other request that
//! waits is blocked by each armed lock above CR: all locks that are held together above CR hold the same mode.

ghost use Rattle.std.specs.Prelude.{◌≤◌, ℕ, IsSome, None, Option, Some};
ghost use Rattle.slab.specs.Slab.{ContainsKey};
ghost use Rattle.vlm_records.specs.declared.handles.Armed.{Armed};
ghost use Rattle.vlm_records.specs.Armed.{IsArmed, IsLaidOut, StandsLast, other_list};
ghost use Rattle.vlm_records.specs.Kept.{KeepsPlaces};
ghost use Rattle.vlm_records.specs.Shown.{IsPlaced, IsTallied, noted};

use crate::handles::Armed;
use crate::queues::Queues;
use vlm_collections::LAST_HANDLE;

impl Queues {
    // Takes a lock out of a list of armed locks, if it is in the list.
    // Kept out of line: few locks are armed.
    #[inline(never)]
    fn leave_list(&mut self, which: Armed, at: usize)
        requires placed { IsPlaced self.old None }
        requires tallied { IsTallied self.old None }
        requires armed { IsArmed which self.old None }
        requires present { ContainsKey self.old.locks at }
        requires in_queue { IsSome (noted self.old at) }
        ensures armed { IsArmed which self.new (Some at) }
        ensures other { (out : Option ℕ) → IsArmed (other_list which) self.old out
            → IsArmed (other_list which) self.new out }
        ensures places { KeepsPlaces self.old self.new }
    {
        let Some(res) = self.locks[at].armed_on(which) else {
            return;
        };
        self.resources[res.slot()].unlink_armed(&mut self.locks, which, at);
    }

    // Puts a lock, the last in its queue, at the end of a list of armed locks, if it belongs there.
    // Kept out of line, as `leave_list` is.
    #[inline(never)]
    fn join_list(&mut self, which: Armed, at: usize)
        requires placed { IsPlaced self.old None }
        requires tallied { IsTallied self.old None }
        requires armed { IsArmed which self.old (Some at) }
        requires present { ContainsKey self.old.locks at }
        requires in_queue { IsSome (noted self.old at) }
        requires within { at ≤ LAST_HANDLE }
        requires last { StandsLast self.old at }
        ensures armed { IsArmed which self.new None }
        ensures other { (out : Option ℕ) → IsArmed (other_list which) self.old out
            → IsArmed (other_list which) self.new out }
        ensures places { KeepsPlaces self.old self.new }
    {
        let Some(res) = self.locks[at].armed_on(which) else {
            return;
        };
        self.resources[res.slot()].push_back_armed(&mut self.locks, which, at);
    }

    /// Takes a lock out of both lists of armed locks, if it is armed.
    pub(crate) fn leave_armed(&mut self, at: usize)
        requires laid_out { IsLaidOut self.old }
        requires present { ContainsKey self.old.locks at }
        requires in_queue { IsSome (noted self.old at) }
        ensures armed { (which : Armed) → IsArmed which self.new (Some at) }
        ensures places { KeepsPlaces self.old self.new }
    {
        if !self.locks[at].row.is_armed() {
            return;
        }
        self.leave_list(Armed::AboveNl, at);
        self.leave_list(Armed::AboveCr, at);
    }

    /// Puts a lock, the last in its queue, at the end of the lists of armed locks that it belongs in.
    pub(crate) fn join_armed(&mut self, at: usize)
        requires placed { IsPlaced self.old None }
        requires tallied { IsTallied self.old None }
        requires armed { (which : Armed) → IsArmed which self.old (Some at) }
        requires present { ContainsKey self.old.locks at }
        requires in_queue { IsSome (noted self.old at) }
        requires within { at ≤ LAST_HANDLE }
        requires last { StandsLast self.old at }
        ensures armed { (which : Armed) → IsArmed which self.new None }
        ensures places { KeepsPlaces self.old self.new }
    {
        if !self.locks[at].row.is_armed() {
            return;
        }
        self.join_list(Armed::AboveNl, at);
        self.join_list(Armed::AboveCr, at);
    }
}
