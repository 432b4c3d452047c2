//! Serving lists of steps: a worker thread for each list, and the hub in the caller's thread.

ghost use Rattle.std.specs.Prelude.{◌≡◌, ◌<◌, ◌≤◌, [], MatchResult, map, replicate, vec_len};
ghost use Rattle.vlm_words.specs.State.{start};
ghost use Rattle.vlm_ports.specs.Hubs.{rings};
ghost use Rattle.vlm_ports.specs.Ports.{AreNew, identity};
ghost use Rattle.vlm_cluster.specs.Gates.{moves};
ghost use Rattle.vlm_cluster.specs.Headline.{IsGatedRun, IsServing};
ghost use Rattle.vlm_cluster.specs.Parts.{IsAccounted};
ghost use Rattle.vlm_cluster.specs.Posts.{AreListsOfPosts};
ghost use Rattle.vlm_cluster.specs.Reports.{IsParted, IsPartedFault};
ghost use Rattle.vlm_cluster.specs.Works.{entries_at};
ghost use Rattle.vlm_cluster.specs.Assembly.{IsRoomFor};

use crate::finish::{finish, give_up};
use crate::gate::Gate;
use crate::hub_driver::HubDriver;
use crate::laws::{law_grants_keep_order, law_modes_stay_compatible, law_requests_end_once};
use crate::preallocated::Preallocated;
use crate::report::{Fault, Report};
use crate::threads::{WorkerInputs, join_all, start_all};
use std::alloc::Global;
use std::sync::Wait;
use std::thread::Threads;
use std::time::Clock;
use vlm_core::Core;
use vlm_journal::laws::law_departed;
use vlm_ports::{Hub, Port};
use vlm_words::steps::Step;

/// Serves one to eight lists of steps, list i for node i + 1. A worker thread posts each list, as its gate says, while
/// the hub makes its turns in the caller's thread over a new core. After a turn that leaves `every` entries or more in
/// the journal, it cuts a part off. It returns when all threads are joined.
///
/// It answers [`Fault::Memory`] if memory or a thread is refused. Without a report no worker was started. Otherwise all
/// workers have finished, and the report says what was done, which may be everything. Memory use grows with the lists
/// and the entries.
pub fn serve_lists<R: Threads + Wait + Clock + Copy + Send + 'static, G: Gate + Send + 'static>(
    rt: &R,
    alloc: Global,
    gates: Vec<G>,
    lists: Vec<Vec<Step>>,
    every: usize,
) -> Result<Report, Fault>
    requires lens { (0 < vec_len lists) × (vec_len lists ≤ 8) × (vec_len gates ≡ vec_len lists) }
    requires posts { AreListsOfPosts lists.items }
    requires every { 0 < every }
    ensures serving { IsServing G.never_stops lists.items result }
    ensures gated { IsGatedRun (moves G.answers G.hears) gates.items lists.items result }
    ensures parts { MatchResult result (IsParted every (vec_len lists)) (IsPartedFault every (vec_len lists)) }
{
    serve_lists_over(rt, alloc, Core::new(alloc), gates, lists, every)
}

/// Does the same over the given core. Use [`Core::with_keys`] if others choose the names of resources.
pub fn serve_lists_over<
    R: Threads + Wait + Clock + Copy + Send + 'static,
    G: Gate + Send + 'static,
>(
    rt: &R,
    alloc: Global,
    core: Core,
    gates: Vec<G>,
    lists: Vec<Vec<Step>>,
    every: usize,
) -> Result<Report, Fault>
    requires start { core ≡ start }
    requires lens { (0 < vec_len lists) × (vec_len lists ≤ 8) × (vec_len gates ≡ vec_len lists) }
    requires posts { AreListsOfPosts lists.items }
    requires every { 0 < every }
    ensures serving { IsServing G.never_stops lists.items result }
    ensures gated { IsGatedRun (moves G.answers G.hears) gates.items lists.items result }
    ensures parts { MatchResult result (IsParted every (vec_len lists)) (IsPartedFault every (vec_len lists)) }
{
    let Ok(preallocated) = Preallocated::new(alloc, lists.len()) else {
        return Err(Fault::Memory(None));
    };
    let Ok((hub, ports)) = Hub::with_core(alloc, core, lists.len()) else {
        return Err(Fault::Memory(None));
    };
    let driver = HubDriver::new(alloc, hub, every);
    let inputs = WorkerInputs {
        gates,
        ports,
        lists,
    };
    run(rt, alloc, driver, preallocated, inputs)
}

fn run<R: Threads + Wait + Clock + Copy + Send + 'static, G: Gate + Send + 'static>(
    rt: &R,
    alloc: Global,
    driver: HubDriver,
    preallocated: Preallocated<G>,
    inputs: WorkerInputs<G>,
) -> Result<Report, Fault>
    requires lens { (vec_len inputs.ports ≡ vec_len inputs.lists)
        × (vec_len inputs.gates ≡ vec_len inputs.lists) }
    requires posts { AreListsOfPosts inputs.lists.items }
    requires new { AreNew inputs.ports.items × (map identity inputs.ports.items ≡ rings driver.hub) }
    requires accounted { (entries_at driver ≡ []) × IsAccounted driver.parts.items driver.hub }
    requires children { IsRoomFor (vec_len inputs.lists) preallocated.children }
    requires results { IsRoomFor (vec_len inputs.lists) preallocated.results }
    requires items { IsRoomFor (vec_len inputs.lists) preallocated.space.items }
    requires posted { preallocated.space.posted.items ≡ replicate (vec_len inputs.lists) 0 }
    ensures serving { IsServing G.never_stops inputs.lists.items result }
    ensures gated { IsGatedRun (moves G.answers G.hears) inputs.gates.items inputs.lists.items result }
    ensures parts { MatchResult result (IsParted driver.every (vec_len inputs.lists))
        (IsPartedFault driver.every (vec_len inputs.lists)) }
{
    let Preallocated {
        signals,
        mut children,
        mut results,
        space,
    } = preallocated;
    let mut driver = driver;
    let count = inputs.lists.len();
    start_all(rt, alloc, &signals, &mut children, inputs);
    let started = children.len();
    if started == 0 {
        driver.close(rt);
        return Err(Fault::Memory(None));
    }
    law_departed();
    if started < count {
        join_all(rt, children, &mut results);
        let report = give_up(rt, alloc, driver, results.as_slice(), space);
        return Err(Fault::Memory(Some(report)));
    }
    driver.serve(rt, &signals, count as u64);
    join_all(rt, children, &mut results);
    let finished = finish(rt, &signals, driver, results, space);
    law_modes_stay_compatible();
    law_requests_end_once();
    law_grants_keep_order();
    if finished.whole {
        Ok(finished.report)
    } else {
        Err(Fault::Memory(Some(finished.report)))
    }
}
