//! Walks over all resources, and over the locks of a queue.

ghost use Rattle.std.specs.Prelude.{◌≡◌, ◌∷◌, IfSome, Some, slice_get};
ghost use Rattle.std.specs.Option.{ForSome, option_map};
ghost use Rattle.vlm_records.specs.declared.handles.Place.{Place};
ghost use Rattle.vlm_store.specs.Plain.{plain_resources};
ghost use Rattle.vlm_store.specs.Records.{HasResource, IsSound, IsStored, locks_at};
ghost use Rattle.vlm_queue.specs.Views.{resource_view, row_shown};
ghost use Rattle.vlm_queue.specs.Walks.{lock_at_index, resource_at_index, plain_resource_at, resources_left};

use crate::queues::{head, next};
use crate::views::{ResourceView, RowView, resource_view, row_view};
use vlm_store::{LockAt, ResAt, Store};
use vlm_words::resources::Queue;

/// The first resource by serial, where a walk over all resources begins.
pub fn first_resource(store: &Store) -> Option<ResAt>
    ensures there { ForSome result (λ res. HasResource res store.now) }
    ensures left { resources_left result store.now ≡ plain_resources store.now }
{
    store.first_resource()
}

/// The next resource by serial, if there is one.
pub fn next_resource(store: &Store, res: ResAt) -> Option<ResAt>
    requires { HasResource res store.now }
    ensures there { ForSome result (λ next. HasResource next store.now) }
    ensures left { IfSome (plain_resource_at res store.now) (λ r.
        resources_left (Some res) store.now ≡ r ∷ resources_left result store.now) }
{
    store.next_resource(res)
}

fn nth_resource(store: &Store, index: usize) -> Option<ResAt>
    ensures found { result ≡ resource_at_index index store.now.resources }
    ensures there { IfSome result (λ res. HasResource res store.now) }
    ensures sound { IsSound store.now }
{
    let mut at = store.first_resource();
    for _ in 0..index {
        let Some(res) = at else {
            return None;
        };
        at = store.next_resource(res);
    }
    at
}

fn nth_lock(store: &Store, res: ResAt, queue: Queue, index: usize) -> Option<LockAt>
    requires { HasResource res store.now }
    ensures found { result ≡ lock_at_index index (locks_at (Place.Queued res queue) store.now) }
    ensures there { IfSome result (λ lock. IsStored lock store.now) }
{
    let mut at = head(store, res, queue);
    for _ in 0..index {
        let Some(lock) = at else {
            return None;
        };
        at = next(store, lock);
    }
    at
}

/// The resource at an index, from 0, by serial, or `None` after the last. The cost grows with the index.
pub fn resource_at(store: &Store, index: usize) -> Option<ResourceView>
    ensures { result ≡ option_map resource_view (slice_get (plain_resources store.now) index) }
{
    let res = nth_resource(store, index)?;
    Some(resource_view(store, res))
}

/// The lock at an index, from 0, in a queue of the resource at an index, or `None`. The cost grows with both indexes.
pub fn row_at(store: &Store, resource: usize, queue: Queue, index: usize) -> Option<RowView>
    ensures { result ≡ row_shown (slice_get (plain_resources store.now) resource) queue index }
{
    let res = nth_resource(store, resource)?;
    let lock = nth_lock(store, res, queue, index)?;
    Some(row_view(store, lock))
}
