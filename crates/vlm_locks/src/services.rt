//! The service of a resource's queues.

ghost use Rattle.std.specs.Prelude.{◌≡◌, ◌≢◌, ◌≤◌, IfSome, false};
ghost use Rattle.vlm_words.specs.declared.resources.Queue.{Queue};
ghost use Rattle.vlm_words.specs.Dues.{row_due};
ghost use Rattle.vlm_model.specs.Effects.{blocks_after, blocks_with};
ghost use Rattle.vlm_model.specs.Grants.{grant_endings, service};
ghost use Rattle.vlm_words.specs.Rows.{granted_row};
ghost use Rattle.vlm_records.specs.declared.handles.Place.{Place};
ghost use Rattle.vlm_store.specs.Plain.{plain_processes, plain_resource};
ghost use Rattle.vlm_store.specs.Records.{HasResource, IsSound, IsStored, SameButNotices, StoredLock, Stores, due_of, moving, resource_at, with_lists};
ghost use Rattle.vlm_locks.specs.Owing.{IsPaid, OwedMoves};
ghost use Rattle.vlm_locks.specs.Serving.{HasGranted, IsServed, IsServiceOf, nothing_queued, service_from, wanted_fits_beside};

use crate::endings::end_by_grant;
use crate::warnings::warn;
use vlm_queue::{head, is_empty};
use vlm_store::{LockAt, Place, ResAt, Store, StoredState};
use vlm_words::locks::Request;
use vlm_words::resources::{Queue, ValueBlock};

fn wanted_fits(store: &Store, res: ResAt, lock: LockAt, want: Option<Request>) -> bool
    requires there { HasResource res store.now }
    requires stored { IsStored lock store.now }
    ensures { IfSome (resource_at res store.now.resources) (λ r. result
        ≡ wanted_fits_beside want lock r) }
{
    match want {
        None => false,
        Some(request) => store.can_hold(res, request.mode, Some(lock)),
    }
}

fn grant(
    value_block: &mut ValueBlock,
    store: &mut Store,
    res: ResAt,
    lock: LockAt,
    row: &StoredState,
)
    requires there { HasResource res store.old }
    requires stored { Stores store.old lock row.now }
    requires owed { row_due row.now ≤ due_of row.now.pid store.old }
    ensures moved { let granted : StoredLock = record { at = lock; row = granted_row row.now }
        in SameButNotices
        (with_lists (moving (Place.Queued res Queue.Granted) granted) store.old) store.new }
    ensures effect { blocks_with value_block.new (plain_processes store.new)
        ≡ blocks_after (grant_endings false row.now)
        (blocks_with value_block.old (plain_processes store.old)) }
    ensures owed { OwedMoves row.now (granted_row row.now) store.old store.new }
{
    let owner = store.lock_record(lock).owner;
    store.move_lock(lock, &row.granted(), Place::Queued(res, Queue::Granted));
    end_by_grant(value_block, store, owner, row, false);
}

// Grants from the front of a queue while the first lock fits.
fn serve_queue(value_block: &mut ValueBlock, store: &mut Store, res: ResAt, queue: Queue)
    requires there { HasResource res store.old }
    requires queued { Queue.Granted ≢ queue }
    requires paid { IsPaid store.old }
    requires sound { IsSound store.old }
    ensures served { IsServiceOf (service_from queue) res
        value_block.old store.old value_block.new store.new }
    ensures paid { IsPaid store.new }
{
    while let Some(lock) = head(store, res, queue) {
        let row = store.lock_record(lock).row;
        if !wanted_fits(store, res, lock, row.want()) {
            break;
        }
        grant(value_block, store, res, lock, &row);
    }
}

// Grants from the conversion queue; if that is empty then, from the waiting queue.
fn serve_queues(value_block: &mut ValueBlock, store: &mut Store, res: ResAt)
    requires there { HasResource res store.old }
    requires paid { IsPaid store.old }
    requires sound { IsSound store.old }
    ensures served { IsServiceOf service res value_block.old store.old value_block.new store.new }
    ensures paid { IsPaid store.new }
{
    serve_queue(value_block, store, res, Queue::Conversion);
    match head(store, res, Queue::Conversion) {
        None => serve_queue(value_block, store, res, Queue::Waiting),
        Some(_) => {}
    }
}

pub(crate) fn nothing_queued(store: &Store, res: ResAt) -> bool
    requires { HasResource res store.now }
    ensures nothing { IfSome (resource_at res store.now.resources) (λ r. result
        ≡ nothing_queued (plain_resource r)) }
    ensures sound { IsSound store.now }
{
    is_empty(store, res, Queue::Conversion) && is_empty(store, res, Queue::Waiting)
}

// Kept out of line, as `warn` is: most sweeps find nothing queued.
#[inline(never)]
fn grant_queued(store: &mut Store, res: ResAt)
    requires there { HasResource res store.old }
    requires paid { IsPaid store.old }
    ensures granted { HasGranted res store.old store.new }
    ensures there { HasResource res store.new }
    ensures paid { IsPaid store.new }
{
    let mut value_block = store.resource_record(res).value_block;
    serve_queues(&mut value_block, store, res);
    store.set_value_block(res, value_block);
}

/// Grants what can be granted on a resource: conversions first, then new requests, each queue up to the first request
/// that does not fit. Each grant takes effect on the value block and the status block, and queues its completion AST.
/// Then it warns the granted locks that block the other requests. The cost grows with the locks granted and warned.
pub(crate) fn serve(store: &mut Store, res: ResAt)
    requires there { HasResource res store.old }
    requires paid { IsPaid store.old }
    ensures served { IsServed res store.old store.new }
    ensures there { HasResource res store.new }
    ensures paid { IsPaid store.new }
{
    grant_queued(store, res);
    warn(store, res);
}
