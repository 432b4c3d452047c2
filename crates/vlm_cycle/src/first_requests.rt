//! The locks with the first queued request on their resources.

ghost use Rattle.std.specs.Prelude.{◌≡◌, ◌++◌, ℕ, Some};
ghost use Rattle.std.specs.Option.{ForSome};
ghost use Rattle.vlm_words.specs.declared.resources.Queue.{Queue};
ghost use Rattle.vlm_records.specs.declared.handles.Place.{Place};
ghost use Rattle.vlm_store.specs.Records.{HasResource, IsStored, first_at, locks_at};
ghost use Rattle.vlm_cycle.specs.Leading.{IsFirstOn};

use vlm_queue::head;
use vlm_store::{LockAt, ResAt, Store};
use vlm_words::resources::Queue;

pub(crate) fn first_queued(store: &Store, res: ResAt) -> Option<LockAt>
    requires { HasResource res store.now }
    ensures { result ≡ first_at (locks_at (Place.Queued res Queue.Conversion) store.now
        ++ locks_at (Place.Queued res Queue.Waiting) store.now) }
{
    match head(store, res, Queue::Conversion) {
        Some(converting) => Some(converting),
        None => head(store, res, Queue::Waiting),
    }
}

/// The resource on which a lock has the first queued request, if there is one. Each resource with queued requests has
/// one such lock, so a walk along all queued locks comes to each of these resources once.
pub(crate) fn resource_of_first(store: &Store, lock: LockAt) -> Option<ResAt>
    requires { IsStored lock store.now }
    ensures there { ForSome result (λ res. HasResource res store.now) }
    ensures first { (res : ℕ) → IsFirstOn store.now lock res → result ≡ Some res }
{
    let (res, _) = store.lock_record(lock).place.parts();
    let first = first_queued(store, res)?;
    if first == lock {
        return Some(res);
    }
    None
}
