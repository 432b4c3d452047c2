//! A worker: it posts a list of steps, and then the departure of its node.

ghost use Rattle.std.specs.Prelude.{◌≡◌, ◌≤◌, ◌++◌, [], false, length, not, take, true};
ghost use Rattle.vlm_ports.specs.Ports.{identity, posted};
ghost use Rattle.vlm_cluster.specs.Gates.{IsFollowed, moves};
ghost use Rattle.vlm_cluster.specs.Posts.{ArePostsOf};
ghost use Rattle.vlm_cluster.specs.Works.{IsGatedWork, IsWorkOn, work_of};

use crate::client::Client;
use crate::gate::{Gate, Go};
use crate::signals::Signals;
use std::sync::Wait;
use std::time::Clock;
use vlm_journal::entries::Item;
use vlm_words::steps::Step;

/// What a worker hands back.
#[derive(Drop)]
pub(crate) struct WorkerResult<G: Gate> {
    pub(crate) gate: G,
    pub(crate) client: Client,
    /// The number of steps of the list that were posted.
    pub(crate) posted: usize,
    /// Whether the departure was posted after them.
    pub(crate) left: bool,
}

impl<G: Gate> WorkerResult<G> {
    pub(crate) fn into_items(self) -> Vec<Item>
        ensures { result ≡ self.client.items }
    {
        let WorkerResult { client, .. } = self;
        client.into_items()
    }
}

#[derive(Clone, Copy)]
struct Posted {
    count: usize,
    cancelled: bool,
}

impl Posted {
    // The worker came to the end of the list, or its gate stopped it.
    fn to_end(count: usize) -> Posted
        ensures count { result.count ≡ count }
        ensures cancelled { result.cancelled ≡ false }
    {
        Posted {
            count,
            cancelled: false,
        }
    }

    // The worker was cancelled.
    fn cut_short(count: usize) -> Posted
        ensures count { result.count ≡ count }
        ensures cancelled { result.cancelled ≡ true }
    {
        Posted {
            count,
            cancelled: true,
        }
    }
}

/// Posts a list and the departure, and takes items until every post is answered, or the run is cancelled.
pub(crate) fn work<R: Wait + Clock, G: Gate>(
    rt: &R,
    signals: &Signals,
    gate: G,
    client: Client,
    list: &[Step],
) -> WorkerResult<G>
    requires new { (posted client.port ≡ []) × (client.items.items ≡ []) }
    requires posts { ArePostsOf client.port.node list.now }
    ensures work { IsWorkOn G.never_stops client.port list.now (work_of result) }
    ensures gated { IsGatedWork (moves G.answers G.hears) gate list.now result }
{
    let mut gate = gate;
    let mut client = client;
    let posted = post_list(rt, signals, &mut gate, &mut client, list);
    if posted.cancelled || client.bye(rt, signals, &mut gate).is_err() {
        return WorkerResult {
            gate,
            client,
            posted: posted.count,
            left: false,
        };
    }
    let answers = posted.count.saturating_add(1);
    let _ = client.await_answers(rt, signals, &mut gate, answers);
    WorkerResult {
        gate,
        client,
        posted: posted.count,
        left: true,
    }
}

fn post_list<R: Wait + Clock, G: Gate>(
    rt: &R,
    signals: &Signals,
    gate: &mut G,
    client: &mut Client,
    list: &[Step],
) -> Posted
    requires { ArePostsOf client.old.port.node list.now }
    ensures same { identity client.new.port ≡ identity client.old.port }
    ensures posted { posted client.new.port ≡ posted client.old.port ++ take result.count list.now }
    ensures within { result.count ≤ length list.now }
    ensures whole { G.never_stops ≡ true → result.cancelled ≡ false → result.count ≡ length list.now }
    ensures gated { IsFollowed (moves G.answers G.hears)
        (gate.old, client.old.items.items) (gate.new, client.new.items.items)
        (length list.now) result.count (not result.cancelled) }
{
    let mut next = 0usize;
    for _ in rt.forever() {
        if next >= list.len() {
            return Posted::to_end(next);
        }
        if signals.is_cancelled() {
            return Posted::cut_short(next);
        }
        let round = match gate.before(next) {
            Go::Stop => return Posted::to_end(next),
            Go::Later => client.wait(rt, signals, gate),
            Go::Post => {
                let posted = client.post(rt, signals, gate, &list[next]);
                if posted.is_ok() {
                    next += 1;
                }
                posted
            }
        };
        if round.is_err() {
            return Posted::cut_short(next);
        }
    }
    unreachable!()
}
