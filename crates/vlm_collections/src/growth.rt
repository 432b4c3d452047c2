//! Room for one more record.

ghost use Rattle.std.specs.Prelude.{◌≡◌, ◌<◌, ◌≤◌, IsOk, OnOk};
ghost use Rattle.slab.specs.Slab.{HasRoomFor};

use crate::link::LAST_HANDLE;
use slab::Slab;
use std::alloc::AllocError;

/// Makes room for one more record. It is refused if memory is, or if the slab's next handle is too great for a link.
pub fn reserve_slot<T>(records: &mut Slab<T>) -> Result<(), AllocError>
    ensures records { records.new ≡ record records.old { capacity = records.new.capacity } }
    ensures capacity { records.old.capacity ≤ records.new.capacity }
    ensures slot { OnOk result (HasRoomFor records.new 1) }
    ensures handle { OnOk result (records.new.vacant_key ≤ LAST_HANDLE) }
    ensures succeeds { HasRoomFor records.old 1 → records.old.vacant_key ≤ LAST_HANDLE
        → IsOk result }
{
    if records.vacant_key() > LAST_HANDLE {
        return Err(AllocError);
    }
    records.reserve(1)
}
