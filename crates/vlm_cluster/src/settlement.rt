//! After the workers are joined, this thread owns both ends of each ring: it serves and takes what
//! is left on them.

ghost use Rattle.std.specs.Prelude.{◌≡◌, ◌<◌, IsTrue, OnOk, length, map};
ghost use Rattle.vlm_ports.specs.Hubs.{IsPortOf, journal, rings};
ghost use Rattle.vlm_cluster.specs.Gates.{IsTold, moves};
ghost use Rattle.vlm_cluster.specs.Parts.{IsAccounted};
ghost use Rattle.vlm_cluster.specs.Works.{ArePortsOf, AreTold, HoldsOfWorks, IsBegun, IsWhole, entries_at, point_of, work_of};

use crate::gate::Gate;
use crate::hub_driver::HubDriver;
use crate::signals::Signals;
use crate::worker::WorkerResult;
use std::alloc::AllocError;
use std::sync::Wait;

/// Serves and takes what is left on the rings, unless the run is cancelled. Returns whether each list is whole: all its
/// posts and the departure are answered, and all items are taken.
pub(crate) fn close<G: Gate>(
    rt: &impl Wait,
    signals: &Signals,
    driver: &mut HubDriver,
    results: &mut [WorkerResult<G>],
) -> bool
    requires ports { ArePortsOf driver.old.hub results.old }
    requires accounted { IsAccounted driver.old.parts.items driver.old.hub }
    ensures rings { rings driver.new.hub ≡ rings driver.old.hub }
    ensures same { map work_of results.new ≡ map work_of results.old }
    ensures told { AreTold (moves G.answers G.hears) results.old results.new }
    ensures accounted { IsAccounted driver.new.parts.items driver.new.hub }
    ensures every { driver.new.every ≡ driver.old.every }
    ensures few { IsTrue result → length (journal driver.new.hub) < driver.new.every }
    ensures begun { HoldsOfWorks (IsBegun (entries_at driver.new)) results.new (length results.new) }
    ensures whole { IsTrue result → HoldsOfWorks (IsWhole (entries_at driver.new)) results.new (length results.new) }
{
    let served = serve_rest(rt, signals, driver, results);
    settle_all(driver, results) && served.is_ok()
}

fn serve_rest<G: Gate>(
    rt: &impl Wait,
    signals: &Signals,
    driver: &mut HubDriver,
    results: &mut [WorkerResult<G>],
) -> Result<(), AllocError>
    requires ports { ArePortsOf driver.old.hub results.old }
    requires accounted { IsAccounted driver.old.parts.items driver.old.hub }
    ensures rings { rings driver.new.hub ≡ rings driver.old.hub }
    ensures same { map work_of results.new ≡ map work_of results.old }
    ensures told { AreTold (moves G.answers G.hears) results.old results.new }
    ensures accounted { IsAccounted driver.new.parts.items driver.new.hub }
    ensures every { driver.new.every ≡ driver.old.every }
    ensures few { OnOk result (length (journal driver.new.hub) < driver.new.every) }
{
    driver.cut_off()?;
    for _ in rt.forever() {
        if signals.is_cancelled() {
            return Err(AllocError);
        }
        if settle_all(driver, results) {
            return Ok(());
        }
        driver.turn()?;
        collect_all(results)?;
    }
    unreachable!()
}

fn settle_all<G: Gate>(driver: &mut HubDriver, results: &mut [WorkerResult<G>]) -> bool
    requires ports { ArePortsOf driver.old.hub results.old }
    requires accounted { IsAccounted driver.old.parts.items driver.old.hub }
    ensures rings { rings driver.new.hub ≡ rings driver.old.hub }
    ensures same { map work_of results.new ≡ map work_of results.old }
    ensures told { AreTold (moves G.answers G.hears) results.old results.new }
    ensures accounted { IsAccounted driver.new.parts.items driver.new.hub }
    ensures journal { journal driver.new.hub ≡ journal driver.old.hub }
    ensures every { driver.new.every ≡ driver.old.every }
    ensures begun { HoldsOfWorks (IsBegun (entries_at driver.new)) results.new (length results.new) }
    ensures whole { IsTrue result → HoldsOfWorks (IsWhole (entries_at driver.new)) results.new (length results.new) }
{
    let mut all = true;
    for at in 0..results.len() {
        let worker = &mut results[at];
        if !settle(driver, worker) {
            all = false;
        }
    }
    all
}

fn settle<G: Gate>(driver: &mut HubDriver, worker: &mut WorkerResult<G>) -> bool
    requires port { IsPortOf driver.old.hub worker.old.client.port }
    requires accounted { IsAccounted driver.old.parts.items driver.old.hub }
    ensures rings { rings driver.new.hub ≡ rings driver.old.hub }
    ensures entries { entries_at driver.new ≡ entries_at driver.old }
    ensures journal { journal driver.new.hub ≡ journal driver.old.hub }
    ensures every { driver.new.every ≡ driver.old.every }
    ensures same { work_of worker.new ≡ work_of worker.old }
    ensures told { IsTold (moves G.answers G.hears) (point_of worker.old) (point_of worker.new) }
    ensures accounted { IsAccounted driver.new.parts.items driver.new.hub }
    ensures begun { IsBegun (entries_at driver.new) (work_of worker.new) worker.new.client.items.items }
    ensures whole { IsTrue result
        → IsWhole (entries_at driver.new) (work_of worker.new) worker.new.client.items.items }
{
    let settled = worker.client.settle(&mut driver.hub);
    if !worker.left {
        return false;
    }
    settled.steps == 0 && settled.items == 0
}

// Takes one item from each port that has one, and tells the gate of its list.
fn collect_all<G: Gate>(results: &mut [WorkerResult<G>]) -> Result<(), AllocError>
    ensures same { map work_of results.new ≡ map work_of results.old }
    ensures told { AreTold (moves G.answers G.hears) results.old results.new }
{
    for at in 0..results.len() {
        let worker = &mut results[at];
        collect(worker)?;
    }
    Ok(())
}

fn collect<G: Gate>(worker: &mut WorkerResult<G>) -> Result<bool, AllocError>
    ensures same { work_of worker.new ≡ work_of worker.old }
    ensures told { IsTold (moves G.answers G.hears) (point_of worker.old) (point_of worker.new) }
{
    worker.client.collect(&mut worker.gate)
}
