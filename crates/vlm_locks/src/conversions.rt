//! The conversion of a granted lock.

ghost use Rattle.std.specs.Prelude.{◌≡◌, ◌≤◌, None, Some, IfSome, IsOk, OnErr, OnOk};
ghost use Rattle.vlm_words.specs.declared.locks.Request.{Request};
ghost use Rattle.vlm_words.specs.declared.resources.Queue.{Queue};
ghost use Rattle.vlm_model.specs.Convert.{converts_at_once};
ghost use Rattle.vlm_words.specs.Rows.{fits, granted_row, rows_without};
ghost use Rattle.vlm_words.specs.Dues.{routines_of, row_due};
ghost use Rattle.vlm_store.specs.Plain.{plain_processes, plain_resource};
ghost use Rattle.vlm_store.specs.Records.{DuesStay, IsSameLock, IsSound, StoredResource, due_of, resource_at, rows_of_locks};
ghost use Rattle.vlm_locks.specs.Converting.{IsConvertedAtOnce, moved_in, processes_converting, HasConverted};
ghost use Rattle.vlm_locks.specs.Owing.{DueMoves, IsPaid, OwedMoves, OwesMore};
ghost use Rattle.vlm_locks.specs.Rest.{IsAtRest, IsReplaced, OtherLocksStay};
ghost use Rattle.vlm_locks.specs.Standing.{IsLocated};

use crate::endings::{end_by_grant, grant_without_value_block};
use crate::located_locks::LocatedLock;
use crate::routines::owe_routines;
use std::alloc::AllocError;
use vlm_procs::accept;
use vlm_queue::is_empty;
use vlm_store::{Place, Store, StoredState};
use vlm_words::flags::EnqFlags;
use vlm_words::locks::Request;
use vlm_words::modes::Mode;
use vlm_words::resources::Queue;

fn fits_others(store: &Store, located: &LocatedLock, mode: Mode) -> bool
    requires located { IsLocated located.now store.now }
    requires granted { located.now.queue ≡ Queue.Granted }
    ensures { (r : StoredResource) → resource_at located.now.res store.now.resources ≡ Some r
        → result ≡ fits mode (rows_without located.now.row.lkid (rows_of_locks r.granted))
        (rows_of_locks r.converting) }
{
    store.can_hold(located.res, mode, Some(located.lock))
}

/// Whether a conversion of a granted lock is granted at once: the mode fits beside all other locks of the resource, and
/// with QUECVT no conversion is queued there.
#[tactic(auto, unfolding(vlm_model::specs::Convert::converts_at_once))]
pub fn converts_at_once(store: &Store, located: &LocatedLock, flags: EnqFlags, mode: Mode) -> bool
    requires located { IsLocated located.now store.now }
    requires granted { located.now.queue ≡ Queue.Granted }
    ensures { (r : StoredResource) (asked : Request)
        → resource_at located.now.res store.now.resources ≡ Some r
        → asked.flags ≡ flags → asked.mode ≡ mode
        → result ≡ converts_at_once asked located.now.row.lkid (plain_resource r) }
{
    fits_others(store, located, mode)
        && (!flags.has(EnqFlags::QUECVT) || is_empty(store, located.res, Queue::Conversion))
}

fn convert_now(store: &mut Store, located: &LocatedLock, row: &StoredState, asked: &Request)
    requires located { IsLocated located.now store.old }
    requires row { IsSameLock located.now.row row.now }
    requires wanted { row.now.want ≡ Some asked.now }
    requires owed { row_due row.now ≤ due_of row.now.pid store.old }
    ensures granted { let accepted = processes_converting located.now asked.now store.old
        in IfSome (resource_at located.now.res store.old.resources)
        (λ r. IsConvertedAtOnce located.now row.now accepted r store.old store.new) }
    ensures due { DueMoves located.now.row (granted_row row.now) store.old store.new }
    ensures owed { OwedMoves row.now (granted_row row.now) store.old store.new }
    ensures locks { OtherLocksStay located.now.lock store.old store.new }
    ensures sound { IsSound store.new }
{
    let granted = Place::Queued(located.res, Queue::Granted);
    store.move_lock(located.lock, &row.granted(), granted);
    if asked.flags.has(EnqFlags::VALBLK) {
        accept(store, located.owner, asked.block, row.lkid());
        let mut value_block = store.resource_record(located.res).value_block;
        end_by_grant(&mut value_block, store, located.owner, row, true);
        store.set_value_block(located.res, value_block);
    } else {
        grant_without_value_block(store, located.owner, row, asked);
    }
}

fn convert_later(store: &mut Store, located: &LocatedLock, row: StoredState, asked: &Request)
    requires located { IsLocated located.now store.old }
    requires row { IsSameLock located.now.row row }
    ensures replaced { IfSome (resource_at located.now.res store.old.resources) (λ r.
        IsReplaced located.now.res r (moved_in located.now row Queue.Conversion r)
        store.old store.new) }
    ensures statuses { plain_processes store.new
        ≡ processes_converting located.now asked.now store.old }
    ensures due { DueMoves located.now.row row store.old store.new }
    ensures dues { DuesStay store.old store.new }
    ensures locks { OtherLocksStay located.now.lock store.old store.new }
    ensures sound { IsSound store.new }
{
    let queued = Place::Queued(located.res, Queue::Conversion);
    store.move_lock(located.lock, &row, queued);
    accept(store, located.owner, asked.block, located.row.lkid());
}

fn convert_owed(store: &mut Store, located: &LocatedLock, asked: &Request, at_once: bool)
    requires rest { IsAtRest store.old }
    requires located { IsLocated located.now store.old }
    requires granted { located.now.queue ≡ Queue.Granted }
    requires at_once { IfSome (resource_at located.now.res store.old.resources)
        (λ r. at_once ≡ converts_at_once asked.now located.now.row.lkid (plain_resource r)) }
    requires wants_nothing { located.now.row.want ≡ None }
    requires owed { OwesMore located.now.row.pid (routines_of (Some asked.now)) store.old }
    ensures { HasConverted located.now asked.now store.old store.new }
{
    let row = located.row.wanting(asked);
    if at_once {
        convert_now(store, located, &row, asked);
    } else {
        convert_later(store, located, row, asked);
    }
}

/// Converts a granted lock. Owes its process the ASTs of the request's routines. Then the lock is granted at once, or
/// goes to the end of the conversion queue and keeps its mode. A grant at once takes effect on the status block of the
/// request, and with VALBLK on the value block of the resource. If memory is refused, nothing is changed.
pub fn convert(
    store: &mut Store,
    located: &LocatedLock,
    asked: &Request,
    at_once: bool,
) -> Result<(), AllocError>
    requires rest { IsAtRest store.old }
    requires located { IsLocated located.now store.old }
    requires granted { located.now.queue ≡ Queue.Granted }
    requires at_once { IfSome (resource_at located.now.res store.old.resources)
        (λ r. at_once ≡ converts_at_once asked.now located.now.row.lkid (plain_resource r)) }
    requires wants_nothing { located.now.row.want ≡ None }
    requires paid { IsPaid store.old }
    ensures done { OnOk result (HasConverted located.now asked.now store.old store.new) }
    ensures refused { OnErr result (store.new ≡ store.old) }
    ensures succeeds { routines_of (Some asked.now) ≡ 0 → IsOk result }
{
    owe_routines(store, located.owner, Some(*asked))?;
    convert_owed(store, located, asked, at_once);
    Ok(())
}
