//! The record of a lock.

ghost use Rattle.std.specs.Prelude.{◌≡◌, false, refl};

use crate::handles::{Armed, LockKind, ProcAt, ResAt, StoredPlace};
use crate::rows::StoredState;
use vlm_collections::{Linked, LinkedList, Links, MaybeAt};
use vlm_words::resources::Queue;

/// Each of these types names a kind of list of locks.
pub struct InQueue;

pub struct InAboveNl;

pub struct InAboveCr;

/// Marks the wait list: the queued locks of all resources, in the order of queueing.
pub struct InWaitList;

/// Marks the lists of the locks of a process, in the order of making.
pub struct OfProcess;

/// Marks the lists of the sublocks of a lock, in the order of making.
pub struct OfParent;

/// The record of a lock, at most 144 bytes. It is in one to five lists, and has a pair of links for each kind of list.
#[derive(Clone, Copy)]
pub struct Lock {
    pub(crate) of_process: Links,
    pub owner: ProcAt,
    /// Its queue; of a loose lock the queue that it left.
    pub place: StoredPlace,
    // whether it is loose: in no queue
    pub(crate) loose: bool,
    // its neighbours in its queue; each other pair is for another list
    pub(crate) in_queue: Links,
    pub row: StoredState,
    pub parent: MaybeAt<LockKind>,
    /// Its sublocks, the direct ones only.
    pub sublocks: LinkedList<OfParent>,
    pub(crate) of_parent: Links,
    pub(crate) in_above_nl: Links,
    pub(crate) in_above_cr: Links,
    pub(crate) in_wait_list: Links,
}

impl Lock {
    ghost use Rattle.vlm_records.specs.Armed.{armed_of};

    /// Whether it is loose: in no queue.
    pub fn is_loose(&self) -> bool
        ensures { result ≡ self.now.loose }
    {
        self.loose
    }

    /// The resource whose list of armed locks it belongs in, if any.
    #[inline(always)]
    pub(crate) fn armed_on(&self, which: Armed) -> Option<ResAt>
        requires { self.now.loose ≡ false }
        ensures { result ≡ armed_of which self.now }
    {
        match self.place.parts() {
            (res, Queue::Granted) if which.floor() < self.row.armed_rank() => Some(res),
            _ => None,
        }
    }
}

impl Linked<InQueue> for Lock {
    ghost links = { λ l. l.in_queue };

    ghost with_links = { λ l pair. record l { in_queue = pair } };

    ghost links_written = { λ l pair. refl };

    ghost written_twice = { λ l a b. refl };

    ghost written_as_was = { λ l. refl };

    fn links(&self) -> Links {
        self.in_queue
    }

    fn set_links(&mut self, pair: Links) {
        self.in_queue = pair;
    }
}

impl Linked<InAboveNl> for Lock {
    ghost links = { λ l. l.in_above_nl };

    ghost with_links = { λ l pair. record l { in_above_nl = pair } };

    ghost links_written = { λ l pair. refl };

    ghost written_twice = { λ l a b. refl };

    ghost written_as_was = { λ l. refl };

    fn links(&self) -> Links {
        self.in_above_nl
    }

    fn set_links(&mut self, pair: Links) {
        self.in_above_nl = pair;
    }
}

impl Linked<InAboveCr> for Lock {
    ghost links = { λ l. l.in_above_cr };

    ghost with_links = { λ l pair. record l { in_above_cr = pair } };

    ghost links_written = { λ l pair. refl };

    ghost written_twice = { λ l a b. refl };

    ghost written_as_was = { λ l. refl };

    fn links(&self) -> Links {
        self.in_above_cr
    }

    fn set_links(&mut self, pair: Links) {
        self.in_above_cr = pair;
    }
}

impl Linked<InWaitList> for Lock {
    ghost links = { λ l. l.in_wait_list };

    ghost with_links = { λ l pair. record l { in_wait_list = pair } };

    ghost links_written = { λ l pair. refl };

    ghost written_twice = { λ l a b. refl };

    ghost written_as_was = { λ l. refl };

    fn links(&self) -> Links {
        self.in_wait_list
    }

    fn set_links(&mut self, pair: Links) {
        self.in_wait_list = pair;
    }
}

impl Linked<OfProcess> for Lock {
    ghost links = { λ l. l.of_process };

    ghost with_links = { λ l pair. record l { of_process = pair } };

    ghost links_written = { λ l pair. refl };

    ghost written_twice = { λ l a b. refl };

    ghost written_as_was = { λ l. refl };

    fn links(&self) -> Links {
        self.of_process
    }

    fn set_links(&mut self, pair: Links) {
        self.of_process = pair;
    }
}

impl Linked<OfParent> for Lock {
    ghost links = { λ l. l.of_parent };

    ghost with_links = { λ l pair. record l { of_parent = pair } };

    ghost links_written = { λ l pair. refl };

    ghost written_twice = { λ l a b. refl };

    ghost written_as_was = { λ l. refl };

    fn links(&self) -> Links {
        self.of_parent
    }

    fn set_links(&mut self, pair: Links) {
        self.of_parent = pair;
    }
}
