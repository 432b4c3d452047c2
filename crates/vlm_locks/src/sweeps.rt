//! The sweep of the resources that a step has touched.

ghost use Rattle.std.specs.Prelude.{◌≡◌, [], ◌∷◌};
ghost use Rattle.vlm_model.specs.Sweeps.{processes_after_service, resources_after_sweep};
ghost use Rattle.vlm_store.specs.Plain.{plain_processes, plain_resources};
ghost use Rattle.vlm_store.specs.Records.{HasResource, IsSound};
ghost use Rattle.vlm_locks.specs.Owing.{IsPaid};
ghost use Rattle.vlm_locks.specs.Rest.{IsAtRest};
ghost use Rattle.vlm_locks.specs.Sweeping.{AreStableBut, IsSwept, Parted, StandInOrder, HasSwept};
ghost use Rattle.vlm_locks.specs.Touched.{touched_handles};

use crate::services::{nothing_queued, serve};
use crate::touched::Note;
use vlm_model::laws::law_a_sweep_touches_only_what_is_not_stable;
use vlm_queue::is_idle;
use vlm_store::{ResAt, Store};

// Most sweeps find nothing queued: then there is nothing to grant and nobody to warn.
fn sweep_one(store: &mut Store, res: ResAt)
    requires there { HasResource res store.old }
    requires paid { IsPaid store.old }
    ensures swept { (was : Parted res store.old.resources)
        → IsSwept res store.old store.new was }
    ensures paid { IsPaid store.new }
    ensures sound { IsSound store.new }
{
    if nothing_queued(store, res) {
        if is_idle(store, res) {
            store.remove_resource(res);
        }
        return;
    }
    serve(store, res);
    if is_idle(store, res) {
        store.remove_resource(res);
    }
}

/// Ends a step that touched one resource. It grants the queued requests that can be granted, warns the locks that block
/// the others, and removes the resource if no lock is left on it.
pub fn sweep_resource(store: &mut Store, res: ResAt)
    requires rest { IsAtRest store.old }
    requires there { HasResource res store.old }
    requires stable { AreStableBut (res ∷ []) store.old.resources }
    requires paid { IsPaid store.old }
    ensures resources { plain_resources store.new
        ≡ resources_after_sweep (plain_processes store.old) (plain_resources store.old) }
    ensures statuses { plain_processes store.new
        ≡ processes_after_service (plain_processes store.old) (plain_resources store.old) }
    ensures rest { IsAtRest store.new }
    ensures paid { IsPaid store.new }
{
    law_a_sweep_touches_only_what_is_not_stable();
    sweep_one(store, res);
}

/// Ends a step that touched these resources: sweeps each as [`sweep_resource`] does, in the order of making. No other
/// resource needs a sweep. The cost grows with the resources touched and the locks granted and warned.
pub fn sweep(store: &mut Store, touches: &[Note])
    requires rest { IsAtRest store.old }
    requires in_order { StandInOrder (touched_handles touches.now) store.old.resources }
    requires stable { AreStableBut (touched_handles touches.now) store.old.resources }
    requires paid { IsPaid store.old }
    ensures { HasSwept (touched_handles touches.now) store.old store.new }
{
    law_a_sweep_touches_only_what_is_not_stable();
    for touch in touches {
        sweep_one(store, touch.res());
    }
}
