//! Memory that is allocated before any worker starts.

ghost use Rattle.std.specs.Prelude.{◌≡◌, IfOk, replicate};
ghost use Rattle.vlm_cluster.specs.Assembly.{IsRoomFor};

use crate::gate::Gate;
use crate::signals::Signals;
use crate::threads::WorkerPromise;
use crate::worker::WorkerResult;
use std::alloc::{AllocError, Global};
use std::sync::Arc;
use std::thread::PromisedHandle;
use vlm_journal::entries::Item;

/// The memory of a run, without its items and entries.
#[derive(Drop)]
pub(crate) struct Preallocated<G: Gate> {
    pub(crate) signals: Arc<Signals>,
    pub(crate) children: Vec<PromisedHandle<WorkerResult<G>, WorkerPromise<G>>>,
    pub(crate) results: Vec<WorkerResult<G>>,
    pub(crate) space: ReportSpace,
}

/// Space for what a report says of each list.
#[derive(Drop)]
pub(crate) struct ReportSpace {
    pub(crate) items: Vec<Vec<Item>>,
    /// The number of steps posted of each list, 0 until it is noted.
    pub(crate) posted: Vec<usize>,
}

impl<G: Gate> Preallocated<G> {
    pub(crate) fn new(alloc: Global, count: usize) -> Result<Preallocated<G>, AllocError>
        ensures children { IfOk result (λ r. IsRoomFor count r.children) }
        ensures results { IfOk result (λ r. IsRoomFor count r.results) }
        ensures items { IfOk result (λ r. IsRoomFor count r.space.items) }
        ensures posted { IfOk result (λ r. r.space.posted.items ≡ replicate count 0) }
    {
        Ok(Preallocated {
            signals: Arc::new(alloc, Signals::new())?,
            children: Vec::with_capacity(alloc, count)?,
            results: Vec::with_capacity(alloc, count)?,
            space: ReportSpace {
                items: Vec::with_capacity(alloc, count)?,
                posted: vec![in alloc; 0; count]?,
            },
        })
    }
}
