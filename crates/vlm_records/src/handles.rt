//! The handles of records, the place of a lock, and the kinds of lists of armed locks.

ghost use Rattle.std.specs.Prelude.{◌≡◌};
ghost use Rattle.vlm_records.specs.Armed.{floor};
ghost use Rattle.vlm_records.specs.declared.handles.Place.{Place};

use std::marker::Model;
use vlm_collections::At;
use vlm_words::resources::Queue;

/// Each of these types names a kind of record.
pub struct LockKind;

pub struct ResourceKind;

pub struct ProcessKind;

pub type LockAt = At<LockKind>;

pub type ResAt = At<ResourceKind>;

pub type ProcAt = At<ProcessKind>;

/// A list of armed granted locks of a resource: those above NL, or those above CR. A step that warns walks one of them:
/// above NL if a queued request wants EX, else above CR. NL is compatible with all modes, CR with all except EX.
#[derive(Clone, Copy)]
pub enum Armed {
    AboveNl,
    AboveCr,
}

impl Armed {
    pub(crate) fn floor(self) -> usize
        ensures { result ≡ floor self }
    {
        match self {
            Armed::AboveNl => 0,
            Armed::AboveCr => 1,
        }
    }
}

/// Where a lock is.
#[derive(Clone, Copy)]
pub enum Place {
    Queued(ResAt, Queue),
}

impl Place {
    ghost use Rattle.vlm_records.specs.WaitList.{is_queued};

    pub fn parts(&self) -> (ResAt, Queue)
        ensures { self.now ≡ Place.Queued result.0 result.1 }
    {
        let Place::Queued(res, queue) = *self;
        (res, queue)
    }

    pub fn is_queued(&self) -> bool
        ensures { result ≡ is_queued self.now }
    {
        matches!(*self, Place::Queued(_, Queue::Conversion | Queue::Waiting))
    }
}

/// A place in eight bytes, as a record keeps it.
#[derive(Clone, Copy)]
pub struct StoredPlace {
    res: ResAt,
    queue: Queue,
}

impl Model for StoredPlace {
    ghost use Rattle.vlm_records.specs.declared.handles.Place.{Place};

    ghost Value = { Place };

    ghost use Rattle.vlm_records.specs.StoredPlaces.{place_parts, place_shown};

    ghost view = { place_shown };

    ghost inverse = { place_parts };
}

impl StoredPlace {
    pub fn of(place: Place) -> StoredPlace
        ensures { result ≡ place }
    {
        let (res, queue) = place.parts();
        StoredPlace { res, queue }
    }

    pub fn place(&self) -> Place
        ensures { result ≡ self.now }
    {
        Place::Queued(self.res, self.queue)
    }

    pub fn parts(&self) -> (ResAt, Queue)
        ensures { self.now ≡ Place.Queued result.0 result.1 }
    {
        (self.res, self.queue)
    }
}
