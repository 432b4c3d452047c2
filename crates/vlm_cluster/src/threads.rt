//! Worker threads: how they are started and joined.

ghost use Rattle.std.specs.Prelude.{◌≡◌, ◌<◌, ◌≤◌, [], ℕ, IfOk, slice_index_or, vec_capacity, vec_len};
ghost use Rattle.vlm_ports.specs.Ports.{AreNew, posted, taken};
ghost use Rattle.vlm_cluster.specs.Gates.{moves};
ghost use Rattle.vlm_cluster.specs.Posts.{AreListsOfPosts, ArePostsOf};
ghost use Rattle.vlm_cluster.specs.Works.{IsGatedWork, IsWorkOn, work_of};
ghost use Rattle.vlm_cluster.specs.Assembly.{HaveGates, HaveInputs};

use crate::client::Client;
use crate::gate::Gate;
use crate::signals::Signals;
use crate::worker::{WorkerResult, work};
use std::alloc::{AllocError, Global};
use std::snapshot::Snapshot;
use std::sync::{Arc, Wait};
use std::thread;
use std::thread::{Promise, PromisedHandle, Threads};
use std::time::Clock;
use vlm_ports::Port;
use vlm_words::steps::Step;

/// What all workers start with.
#[derive(Drop)]
pub(crate) struct WorkerInputs<G: Gate> {
    pub(crate) gates: Vec<G>,
    pub(crate) ports: Vec<Port>,
    pub(crate) lists: Vec<Vec<Step>>,
}

#[derive(Drop)]
struct WorkerInput<G: Gate> {
    gate: G,
    port: Port,
    list: Vec<Step>,
}

/// The input that a worker's promise speaks of.
#[derive(Drop)]
pub(crate) struct WorkerPromise<G> {
    pub(crate) gate: Snapshot<G>,
    pub(crate) port: Snapshot<Port>,
    pub(crate) list: Snapshot<Vec<Step>>,
}

// A worker promises that its result is its work on this input.
impl<G: Gate> Promise<WorkerResult<G>> for WorkerPromise<G> {
    ghost kept_by = { λ p r. IsWorkOn G.never_stops p.port.value p.list.value.items (work_of r)
        × IsGatedWork (moves G.answers G.hears) p.gate.value p.list.value.items r };
}

/// Starts a worker for each list. If a thread is refused, it starts no more, and cancels the run. It needs space for
/// the handles in `children`.
pub(crate) fn start_all<
    R: Threads + Wait + Clock + Copy + Send + 'static,
    G: Gate + Send + 'static,
>(
    rt: &R,
    alloc: Global,
    signals: &Arc<Signals>,
    children: &mut Vec<PromisedHandle<WorkerResult<G>, WorkerPromise<G>>>,
    inputs: WorkerInputs<G>,
)
    requires none { vec_len children.old ≡ 0 }
    requires room { vec_len inputs.ports ≤ vec_capacity children.old }
    requires lens { (vec_len inputs.gates ≡ vec_len inputs.ports)
        × (vec_len inputs.lists ≡ vec_len inputs.ports) }
    requires new { AreNew inputs.ports.items }
    requires posts { AreListsOfPosts inputs.lists.items }
    ensures few { vec_len children.new ≤ vec_len inputs.ports }
    ensures gates { HaveGates (vec_len children.new) children.new.items inputs.gates.items }
    ensures each { HaveInputs (vec_len children.new) children.new.items inputs.ports.items
        inputs.lists.items }
{
    let WorkerInputs {
        mut gates,
        mut ports,
        mut lists,
    } = inputs;
    for _ in 0..ports.len() {
        let gate = gates.remove(0);
        let port = ports.remove(0);
        let list = lists.remove(0);
        let input = WorkerInput { gate, port, list };
        let Ok(child) = start(rt, alloc, signals, input) else {
            signals.cancel();
            return;
        };
        children.push_reserved(child);
    }
}

fn start<R: Threads + Wait + Clock + Copy + Send + 'static, G: Gate + Send + 'static>(
    rt: &R,
    alloc: Global,
    signals: &Arc<Signals>,
    input: WorkerInput<G>,
) -> Result<PromisedHandle<WorkerResult<G>, WorkerPromise<G>>, AllocError>
    requires new { (posted input.port ≡ []) × (taken input.port ≡ []) }
    requires posts { ArePostsOf input.port.node input.list.items }
    ensures gate { IfOk result (λ h. h.promise.gate.value ≡ input.gate) }
    ensures port { IfOk result (λ h. h.promise.port.value ≡ input.port) }
    ensures list { IfOk result (λ h. h.promise.list.value ≡ input.list) }
{
    let WorkerInput { gate, port, list } = input;
    let theirs = Arc::try_clone(signals)?;
    let promise = WorkerPromise {
        gate: Snapshot::of(&gate),
        port: Snapshot::of(&port),
        list: Snapshot::of(&list),
    };
    let handle = *rt;
    let child = thread::spawn_with(
        rt,
        promise,
        move || -> WorkerResult<G>
            requires { (posted port ≡ []) × (taken port ≡ []) × ArePostsOf port.node list.items }
            ensures { IsWorkOn G.never_stops port list.items (work_of result)
                × IsGatedWork (moves G.answers G.hears) gate list.items result }
        {
            let client = Client::new(alloc, port);
            let result = work(&handle, &theirs, gate, client, list.as_slice());
            theirs.end();
            result
        },
    )?;
    Ok(child)
}

/// Joins each worker, and collects the results in order. It allocates nothing.
pub(crate) fn join_all<R: Threads, G: Gate + Send + 'static>(
    rt: &R,
    children: Vec<PromisedHandle<WorkerResult<G>, WorkerPromise<G>>>,
    results: &mut Vec<WorkerResult<G>>,
)
    requires none { vec_len results.old ≡ 0 }
    requires room { vec_len children ≤ vec_capacity results.old }
    ensures len { vec_len results.new ≡ vec_len children }
    ensures each { (k : ℕ) (d : _) (h : _) → k < vec_len children
        → IsWorkOn G.never_stops (slice_index_or children.items k h).promise.port.value
        (slice_index_or children.items k h).promise.list.value.items
        (work_of (slice_index_or results.new.items k d)) }
    ensures gated { (k : ℕ) (d : _) (h : _) → k < vec_len children
        → IsGatedWork (moves G.answers G.hears)
        (slice_index_or children.items k h).promise.gate.value
        (slice_index_or children.items k h).promise.list.value.items
        (slice_index_or results.new.items k d) }
{
    for child in children {
        results.push_reserved(child.join(rt));
    }
}
