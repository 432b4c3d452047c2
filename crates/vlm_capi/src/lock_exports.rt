//! The functions that C calls to read single locks. include/vlm.h describes them for their callers.
//!
//! A walk answers the next lock with each call, and a struct with lock 0 after the last one. A call writes nothing and
//! answers BADPARAM if there is no lock, process or resource of that name, or if the struct has another size.

ghost use Rattle.std.specs.Prelude.{◌≡◌, ◌==◌};
ghost use Rattle.std.specs.Option.{option_map};
ghost use Rattle.vlm_core.specs.Blockers.{ShowsFirstBlocked, ShowsFirstBlocker, ShowsNextBlocked, ShowsNextBlocker};
ghost use Rattle.vlm_core.specs.Locks.{IsLaterOwn, IsLaterSublock, ShowsFirstOwn, ShowsFirstSublock, ShowsNamed, ShowsNextInQueue, ShowsNextOf, ShowsResourceOf};
ghost use Rattle.vlm_capi.specs.Copies.{Told, sized};
ghost use Rattle.vlm_capi.specs.Shown.{ReadTold, ShowsFirstRow, lock_of, lock_or_none, resource_of};
ghost use Rattle.vlm_capi.specs.Keys.{key_of, queue_of};

use crate::copies::{copy_out, sized};
use crate::handle::Handle;
use crate::shown::{
    LOCK_SIZE, RESOURCE_SIZE, VlmLock, VlmResource, lock_of, lock_or_none, resource_of,
};
use vlm_core::LockView;

fn write_next(next: Option<Option<LockView>>, out: &mut VlmLock) -> u32
    ensures { Told (sized (out.old.size == 64) (option_map lock_or_none next)) out.old out.new result }
{
    let shown = next.map(|lock| lock_or_none(&lock));
    copy_out(sized(out.size == LOCK_SIZE, shown), out)
}

/// Copies the lock with this ID.
#[unsafe(no_mangle)]
pub extern "C" fn vlm_find_lock(handle: &mut Handle, lkid: u32, out: &mut VlmLock) -> u32
    ensures { ReadTold (λ s. ShowsNamed s lkid) lock_of handle.old.slot.held handle.new.slot.held
        (out.old.size == 64) out.old out.new result }
{
    let shown = handle.lock(lkid).map(|lock| lock_of(&lock));
    copy_out(sized(out.size == LOCK_SIZE, shown), out)
}

/// Copies the resource of a lock.
#[unsafe(no_mangle)]
pub extern "C" fn vlm_lock_resource(handle: &mut Handle, lkid: u32, out: &mut VlmResource) -> u32
    ensures { ReadTold (λ s. ShowsResourceOf s lkid) resource_of handle.old.slot.held handle.new.slot.held
        (out.old.size == 144) out.old out.new result }
{
    let shown = handle
        .resource_of_lock(lkid)
        .map(|resource| resource_of(&resource));
    copy_out(sized(out.size == RESOURCE_SIZE, shown), out)
}

/// Copies the first lock for which the queued request of a lock waits.
#[unsafe(no_mangle)]
pub extern "C" fn vlm_first_blocker(handle: &mut Handle, lkid: u32, out: &mut VlmLock) -> u32
    ensures { ReadTold (λ s. ShowsFirstBlocker s lkid) lock_or_none handle.old.slot.held handle.new.slot.held
        (out.old.size == 64) out.old out.new result }
{
    write_next(handle.blocker(lkid, None), out)
}

/// Copies the next lock for which it waits.
#[unsafe(no_mangle)]
pub extern "C" fn vlm_next_blocker(
    handle: &mut Handle,
    lkid: u32,
    blocker: u32,
    out: &mut VlmLock,
) -> u32
    ensures { ReadTold (λ s. ShowsNextBlocker s lkid blocker) lock_or_none handle.old.slot.held
        handle.new.slot.held (out.old.size == 64) out.old out.new result }
{
    write_next(handle.blocker(lkid, Some(blocker)), out)
}

/// Copies the first lock whose queued request waits for a lock.
#[unsafe(no_mangle)]
pub extern "C" fn vlm_first_blocked(handle: &mut Handle, lkid: u32, out: &mut VlmLock) -> u32
    ensures { ReadTold (λ s. ShowsFirstBlocked s lkid) lock_or_none handle.old.slot.held handle.new.slot.held
        (out.old.size == 64) out.old out.new result }
{
    write_next(handle.blocked(lkid, None), out)
}

/// Copies the next lock whose queued request waits for it.
#[unsafe(no_mangle)]
pub extern "C" fn vlm_next_blocked(
    handle: &mut Handle,
    lkid: u32,
    blocked: u32,
    out: &mut VlmLock,
) -> u32
    ensures { ReadTold (λ s. ShowsNextBlocked s lkid blocked) lock_or_none handle.old.slot.held
        handle.new.slot.held (out.old.size == 64) out.old out.new result }
{
    write_next(handle.blocked(lkid, Some(blocked)), out)
}

/// Copies the first lock of a process, in the order of making.
#[unsafe(no_mangle)]
pub extern "C" fn vlm_first_own(handle: &mut Handle, pid: u32, out: &mut VlmLock) -> u32
    ensures { ReadTold (λ s. ShowsFirstOwn s pid) lock_or_none handle.old.slot.held handle.new.slot.held
        (out.old.size == 64) out.old out.new result }
{
    write_next(handle.first_own(pid), out)
}

/// Copies the first sublock of a lock, in the order of making.
#[unsafe(no_mangle)]
pub extern "C" fn vlm_first_sublock(handle: &mut Handle, lkid: u32, out: &mut VlmLock) -> u32
    ensures { ReadTold (λ s. ShowsFirstSublock s lkid) lock_or_none handle.old.slot.held handle.new.slot.held
        (out.old.size == 64) out.old out.new result }
{
    write_next(handle.first_sublock(lkid), out)
}

/// Copies the next lock of the same process.
#[unsafe(no_mangle)]
pub extern "C" fn vlm_next_own(handle: &mut Handle, lkid: u32, out: &mut VlmLock) -> u32
    ensures { ReadTold (λ s. ShowsNextOf s IsLaterOwn lkid) lock_or_none handle.old.slot.held handle.new.slot.held
        (out.old.size == 64) out.old out.new result }
{
    write_next(handle.next_own(lkid), out)
}

/// Copies the next sublock of the same parent lock.
#[unsafe(no_mangle)]
pub extern "C" fn vlm_next_sublock(handle: &mut Handle, lkid: u32, out: &mut VlmLock) -> u32
    ensures { ReadTold (λ s. ShowsNextOf s IsLaterSublock lkid) lock_or_none handle.old.slot.held handle.new.slot.held
        (out.old.size == 64) out.old out.new result }
{
    write_next(handle.next_sublock(lkid), out)
}

/// Copies the first lock in a queue of the resource that parent, domain and name of the struct name.
#[unsafe(no_mangle)]
pub extern "C" fn vlm_first_row(
    handle: &mut Handle,
    resource: &VlmResource,
    queue: u32,
    out: &mut VlmLock,
) -> u32
    ensures { ReadTold (λ s. ShowsFirstRow s (key_of resource.now) (queue_of queue)) lock_or_none
        handle.old.slot.held handle.new.slot.held (out.old.size == 64) out.old out.new result }
{
    write_next(handle.first_row(resource, queue), out)
}

/// Copies the next lock in the queue of a lock.
#[unsafe(no_mangle)]
pub extern "C" fn vlm_next_row(handle: &mut Handle, lkid: u32, out: &mut VlmLock) -> u32
    ensures { ReadTold (λ s. ShowsNextInQueue s lkid) lock_or_none handle.old.slot.held handle.new.slot.held
        (out.old.size == 64) out.old out.new result }
{
    write_next(handle.next_row(lkid), out)
}
