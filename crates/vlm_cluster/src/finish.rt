//! Making the report of a run from the results of its workers.

ghost use Rattle.std.specs.Prelude.{◌≡◌, ◌<◌, ◌≤◌, [], ℕ, IsTrue, length, map, replicate, slice_index, slice_index_or, vec_capacity, vec_len};
ghost use Rattle.vlm_cluster.specs.Gates.{moves};
ghost use Rattle.vlm_cluster.specs.Parts.{IsAccounted, bound_of};
ghost use Rattle.vlm_cluster.specs.Reports.{entries_of};
ghost use Rattle.vlm_cluster.specs.Works.{ArePortsOf, IsBegun, IsWhole, entries_at};
ghost use Rattle.vlm_cluster.specs.Assembly.{ArePostedBy, AreToldBy, HoldsAsReported, IsRoomFor, IsSoundReport};

use crate::gate::Gate;
use crate::hub_driver::HubDriver;
use crate::preallocated::ReportSpace;
use crate::report::Report;
use crate::settlement::close;
use crate::signals::Signals;
use crate::worker::WorkerResult;
use std::alloc::Global;
use std::sync::Wait;
use vlm_journal::entries::Item;

/// A report, and whether each list is whole.
#[derive(Drop)]
pub(crate) struct Finished {
    pub(crate) report: Report,
    pub(crate) whole: bool,
}

/// Serves and takes what is left on the rings, and makes the report. It allocates memory only for items and entries.
// Kept out of line: inlined, LLVM takes minutes over the moves of the hub.
#[inline(never)]
pub(crate) fn finish<G: Gate>(
    rt: &impl Wait,
    signals: &Signals,
    driver: HubDriver,
    results: Vec<WorkerResult<G>>,
    space: ReportSpace,
) -> Finished
    requires ports { ArePortsOf driver.hub results.items }
    requires accounted { IsAccounted driver.parts.items driver.hub }
    requires items { IsRoomFor (vec_len results) space.items }
    requires posted { vec_len space.posted ≡ vec_len results }
    ensures sound { IsSoundReport driver.every (bound_of driver.every driver.hub) result.report }
    ensures rest { IsTrue result.whole → length result.report.rest.entries.items < driver.every }
    ensures counts { (vec_len result.report.items ≡ vec_len results)
        × (vec_len result.report.posted ≡ vec_len results) }
    ensures posted { ArePostedBy (vec_len results) result.report results.items }
    ensures begun { HoldsAsReported (IsBegun (entries_of result.report)) (vec_len results) result.report results.items }
    ensures whole { IsTrue result.whole
        → HoldsAsReported (IsWhole (entries_of result.report)) (vec_len results) result.report results.items }
    ensures told { AreToldBy (moves G.answers G.hears) (vec_len results) result.report results.items }
{
    let mut driver = driver;
    let mut results = results;
    let ReportSpace {
        mut items,
        mut posted,
    } = space;
    let whole = close(rt, signals, &mut driver, results.as_mut_slice());
    note_posted(results.as_slice(), posted.as_mut_slice());
    take_items(results, &mut items);
    Finished {
        report: driver.report(rt, items, posted),
        whole,
    }
}

/// Makes the report if a worker after the first could not be started. The hub has made no turn, so no node got an item.
#[inline(never)]
pub(crate) fn give_up<G: Gate>(
    rt: &impl Wait,
    alloc: Global,
    driver: HubDriver,
    results: &[WorkerResult<G>],
    space: ReportSpace,
) -> Report
    requires accounted { (entries_at driver ≡ []) × IsAccounted driver.parts.items driver.hub }
    requires items { IsRoomFor (vec_len space.posted) space.items }
    requires few { length results.now ≤ vec_len space.posted }
    requires posted { space.posted.items ≡ replicate (vec_len space.posted) 0 }
    ensures entries { entries_of result ≡ [] }
    ensures sound { IsSoundReport driver.every (bound_of driver.every driver.hub) result }
    ensures counts { (vec_len result.items ≡ vec_len space.posted)
        × (vec_len result.posted ≡ vec_len space.posted) }
    ensures items { (k : ℕ) (v : _) → k < vec_len space.posted
        → (slice_index_or result.items.items k v).items ≡ [] }
    ensures posted { ArePostedBy (length results.now) result results.now }
    ensures others { (k : ℕ) → length results.now ≤ k → slice_index result.posted.items k ≡ 0 }
{
    let ReportSpace {
        mut items,
        mut posted,
    } = space;
    for _ in 0..posted.len() {
        items.push_reserved(Vec::new(alloc));
    }
    note_posted(results, posted.as_mut_slice());
    driver.report(rt, items, posted)
}

fn note_posted<G: Gate>(results: &[WorkerResult<G>], posted: &mut [usize])
    requires { length results.now ≤ length posted.old }
    ensures each { (k : ℕ) (d : _) → k < length results.now
        → slice_index posted.new k ≡ (slice_index_or results.now k d).posted }
    ensures others { (k : ℕ) → length results.now ≤ k
        → slice_index posted.new k ≡ slice_index posted.old k }
{
    for at in 0..results.len() {
        posted[at] = results[at].posted;
    }
}

fn take_items<G: Gate>(results: Vec<WorkerResult<G>>, items: &mut Vec<Vec<Item>>)
    requires none { vec_len items.old ≡ 0 }
    requires room { vec_len results ≤ vec_capacity items.old }
    ensures { items.new.items ≡ map (λ d. d.client.items) results.items }
{
    for worker in results {
        items.push_reserved(worker.into_items());
    }
}
