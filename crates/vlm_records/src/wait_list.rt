//! Locks join and leave the wait list, which has all queued locks.

ghost use Rattle.std.specs.Prelude.{◌≡◌, ◌≤◌, None, Some};
ghost use Rattle.slab.specs.Slab.{get, ContainsKey};
ghost use Rattle.vlm_records.specs.WaitList.{IsWaitList};
ghost use Rattle.vlm_records.specs.Shown.{SameBut, but_in_wait_list, noted_in, room_in};

use crate::handles::Place;
use crate::locks::{InWaitList, Lock};
use slab::Slab;
use vlm_collections::{LAST_HANDLE, LinkedList};

pub fn leave_wait_list(
    locks: &mut Slab<Lock>,
    wait_list: &mut LinkedList<InWaitList>,
    at: usize,
    place: &Place,
)
    requires wait_list { IsWaitList locks.old wait_list.old None }
    requires noted { noted_in (get locks.old at) ≡ Some place.now }
    ensures wait_list { IsWaitList locks.new wait_list.new (Some at) }
    ensures rest { SameBut but_in_wait_list locks.old locks.new }
    ensures room { room_in locks.new ≡ room_in locks.old }
{
    if place.is_queued() {
        wait_list.unlink(locks, at);
    }
}

/// Puts a lock at the end of the wait list, if its place is a conversion or waiting queue.
pub fn join_wait_list(
    locks: &mut Slab<Lock>,
    wait_list: &mut LinkedList<InWaitList>,
    at: usize,
    place: &Place,
)
    requires wait_list { IsWaitList locks.old wait_list.old (Some at) }
    requires noted { noted_in (get locks.old at) ≡ Some place.now }
    requires present { ContainsKey locks.old at }
    requires within { at ≤ LAST_HANDLE }
    ensures wait_list { IsWaitList locks.new wait_list.new None }
    ensures rest { SameBut but_in_wait_list locks.old locks.new }
    ensures room { room_in locks.new ≡ room_in locks.old }
{
    if place.is_queued() {
        wait_list.push_back(locks, at);
    }
}
