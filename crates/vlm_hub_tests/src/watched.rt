//! A hub that is watched, with a node's port and its watchers in one hand.

ghost use Rattle.std.specs.Prelude.{◌≡◌, ◌<◌, ◌≤◌, All, length, map, vec_capacity, vec_len};
ghost use Rattle.vlm_ports.specs.Hubs.{IsPortOf};
ghost use Rattle.vlm_hub_tests.specs.Audiences.{LookedOn};
ghost use Rattle.vlm_ports.specs.Watched.{IsWatched, IsWatchedAsBefore, Watches, watched_keys};

use crate::onlookers::Onlooker;
use std::alloc::{AllocError, Global};
use std::sync::Wait;
use std::thread::{Threads, for_each_mut, join_mut};
use vlm_journal::entries::Item;
use vlm_ports::{BoardFault, Hub, Port, RootKey, Row, Watcher};
use vlm_words::steps::Step;

/// A hub of one node that is watched: its port and its watchers. End it by [`WatchedHub::close`].
pub struct WatchedHub {
    hub: Hub,
    port: Port,
    // how many resources are watched
    keys: usize,
    pub(crate) onlookers: Vec<Onlooker>,
    ghost ours: { IsPortOf hub port },
    ghost watched: { IsWatched hub },
    ghost places: { keys ≡ length (watched_keys hub) },
    ghost some: { 0 < keys },
    ghost theirs: { All (λ o. Watches hub o.watcher) onlookers.items },
}

impl WatchedHub {
    /// A hub, and this many watchers of the resources under these keys. If it is refused, there is neither.
    pub fn open<R: Wait>(
        rt: &R,
        alloc: Global,
        keys: Vec<RootKey>,
        watchers: usize,
    ) -> Result<WatchedHub, BoardFault>
        requires keys { (0 < vec_len keys) × (vec_len keys ≤ 16) }
        requires watchers { (0 < watchers) × (watchers ≤ 8) }
    {
        let Ok(mut onlookers) = Vec::with_capacity(alloc, watchers) else {
            return Err(BoardFault::Memory);
        };
        let Ok((mut hub, ports)) = Hub::make(alloc, 1) else {
            return Err(BoardFault::Memory);
        };
        let Some(port) = ports.into_iter().next() else {
            hub.close();
            return Err(BoardFault::Memory);
        };
        let count = keys.len();
        match hub.watch(rt, alloc, keys, watchers) {
            Ok(all) => {
                seat(all, &mut onlookers);
                Ok(WatchedHub {
                    hub,
                    port,
                    keys: count,
                    onlookers,
                })
            }
            Err(fault) => {
                hub.close();
                Err(fault)
            }
        }
    }

    /// Posts a step, has the hub make a turn, and takes what has come.
    pub fn make(&mut self, step: Step) -> Option<Item> {
        make(&mut self.hub, &mut self.port, &step)
    }

    /// Has the hub make one more turn, and takes what has come.
    pub fn go_on(&mut self) -> Option<Item> {
        self.hub.turn();
        self.port.take()
    }

    /// Publishes, and tells each watcher of it.
    pub fn publish<R: Wait>(&mut self, rt: &R) -> Result<(), AllocError> {
        let _told = self.hub.publish(rt)?;
        for at in 0..self.onlookers.len() {
            let told = self.hub.tell();
            self.onlookers[at].learn(told);
        }
        Ok(())
    }

    /// Publishes, and tells no watcher of it.
    pub fn publish_untold<R: Wait>(&mut self, rt: &R) -> Result<(), AllocError> {
        let _told = self.hub.publish(rt)?;
        Ok(())
    }

    /// What a watcher sees of the resource at a place.
    pub fn see(&mut self, watcher: usize, place: usize) -> Option<Row> {
        if self.onlookers.len() <= watcher || self.keys <= place {
            return None;
        }
        self.onlookers[watcher].see(place)
    }

    /// Has each watcher look this many times in a thread of its own, while the hub makes the step that often and
    /// publishes after each.
    pub fn look_in_threads<R: Threads + Wait + Sync>(
        &mut self,
        rt: &R,
        step: &Step,
        times: usize,
        looks: usize,
    ) {
        let WatchedHub {
            hub,
            port,
            keys: _,
            onlookers,
        } = self;
        let rounds = Rounds {
            step: *step,
            times,
            looks,
        };
        look_beside(rt, hub, port, onlookers, &rounds);
    }

    /// Ends it, and says what its first watcher sees then.
    pub fn close_and_look<R: Wait>(self, rt: &R) -> Option<Row> {
        let WatchedHub {
            hub,
            port: _,
            keys: _,
            mut onlookers,
        } = self;
        hub.finish(rt);
        if onlookers.is_empty() {
            return None;
        }
        onlookers[0].see(0)
    }

    /// Ends it, and hands out what the watchers have seen.
    pub fn close<R: Wait>(self, rt: &R) -> Vec<Onlooker> {
        let WatchedHub {
            hub,
            port: _,
            keys: _,
            onlookers,
        } = self;
        hub.finish(rt);
        onlookers
    }
}

// Has watchers look on, in their order.
fn seat(all: Vec<Watcher>, onlookers: &mut Vec<Onlooker>)
    requires none { vec_len onlookers.old ≡ 0 }
    requires room { vec_len all ≤ vec_capacity onlookers.old }
    ensures { map (λ o. o.watcher) onlookers.new.items ≡ all.items }
{
    for watcher in all {
        onlookers.push_reserved(Onlooker::new(watcher));
    }
}

fn make(hub: &mut Hub, port: &mut Port, step: &Step) -> Option<Item>
    requires { IsPortOf hub.old port.old }
    ensures ours { IsPortOf hub.new port.new }
    ensures watched { IsWatched hub.old → IsWatchedAsBefore hub.old hub.new }
{
    if port.may_post(step) && port.post(*step).is_err() {
        return None;
    }
    hub.turn();
    port.take()
}

// Makes the step this many times, and publishes after each.
fn serve<R: Wait>(rt: &R, hub: &mut Hub, port: &mut Port, step: &Step, times: usize)
    requires ours { IsPortOf hub.old port.old }
    requires watched { IsWatched hub.old }
    ensures ours { IsPortOf hub.new port.new }
    ensures watched { IsWatchedAsBefore hub.old hub.new }
{
    for _ in 0..times {
        let _item = make(hub, port, step);
        let _told = hub.publish(rt).is_ok();
    }
}

// Has each watcher look this many times, in a thread of its own.
fn look_all<R: Threads + Sync>(rt: &R, onlookers: &mut Vec<Onlooker>, times: usize)
    requires { All (λ o. 0 < o.watcher.keys) onlookers.old.items }
    ensures { LookedOn (λ o. o.watcher) onlookers.old.items onlookers.new.items }
{
    for_each_mut(rt, onlookers.as_mut_slice(), 8, &|_, o| o.look_often(times));
}

// How often the hub makes a step, and how often each watcher looks.
#[derive(Clone, Copy)]
struct Rounds {
    step: Step,
    times: usize,
    looks: usize,
}

// Has each watcher look, while the hub serves and publishes.
fn look_beside<R: Threads + Wait + Sync>(
    rt: &R,
    hub: &mut Hub,
    port: &mut Port,
    onlookers: &mut Vec<Onlooker>,
    rounds: &Rounds,
)
    requires ours { IsPortOf hub.old port.old }
    requires watched { IsWatched hub.old }
    requires keys { All (λ o. 0 < o.watcher.keys) onlookers.old.items }
    ensures ours { IsPortOf hub.new port.new }
    ensures watched { IsWatchedAsBefore hub.old hub.new }
    ensures looked { LookedOn (λ o. o.watcher) onlookers.old.items onlookers.new.items }
{
    join_mut(
        rt,
        &mut ||
            requires { All (λ o. 0 < o.watcher.keys) onlookers.now.items }
            ensures { LookedOn (λ o. o.watcher) onlookers.entry.now.items onlookers.exit.now.items }
        { look_all(rt, onlookers, rounds.looks) },
        &mut ||
            requires { IsPortOf hub.now port.now × IsWatched hub.now }
            ensures ours { IsPortOf hub.exit.now port.exit.now }
            ensures watched { IsWatchedAsBefore hub.entry.now hub.exit.now }
        { serve(rt, hub, port, &rounds.step, rounds.times) },
    );
}
