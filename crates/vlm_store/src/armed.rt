//! Walks over the armed locks of a resource. Each call takes constant time.

ghost use Rattle.std.specs.Prelude.{◌≡◌};
ghost use Rattle.vlm_store.specs.Armed.{IsArmedAt, armed_at};
ghost use Rattle.vlm_store.specs.Records.{HasResource, IsSound, at_after, first_at};

use crate::store::Store;
use vlm_records::{Armed, LockAt, ResAt};

impl Store {
    /// The first lock in a list of armed locks of a resource, if there is one.
    pub fn first_armed(&self, res: ResAt, which: Armed) -> Option<LockAt>
        requires { HasResource res self.now }
        ensures first { result ≡ first_at (armed_at which res self.now) }
        ensures sound { IsSound self.now }
    {
        let at = self.queues.resources[res.slot()].first_armed(&self.queues.locks, which)?;
        Some(LockAt::of(at))
    }

    /// The lock after this one in a list of armed locks of a resource, if there is one.
    pub fn next_armed(&self, res: ResAt, which: Armed, lock: LockAt) -> Option<LockAt>
        requires there { HasResource res self.now }
        requires armed { IsArmedAt which res lock self.now }
        ensures { result ≡ at_after lock (armed_at which res self.now) }
    {
        let resource = &self.queues.resources[res.slot()];
        let at = resource.next_armed(&self.queues.locks, which, lock.slot())?;
        Some(LockAt::of(at))
    }
}
