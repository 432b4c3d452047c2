//! A watched hub with its ports and its watcher, all in one thread.

ghost use Rattle.std.specs.Prelude.{◌≡◌, ◌++◌, ◌∷◌, ◌<◌, [], All, IfErr, IfOk, OnErr, OnOk, length, map};
ghost use Rattle.vlm_words.specs.State.{start};
ghost use Rattle.vlm_ports.specs.Hubs.{IsAsWritten, IsPortOf, journal, state};
ghost use Rattle.vlm_ports.specs.Watched.{IsWatched, Watches, watched_keys};
ghost use Rattle.vlm_script.specs.Texts.{watch_line};
ghost use Rattle.vlm.specs.Watches.{EndsSteps, EndsWatched, Makes, printed_row, row_at, steps_asked};
ghost use Rattle.vlm.specs.WatchedPorts.{HasGrown, posts_of};

use crate::monitor::ends::WatchFault;
use std::alloc::Global;
use std::sync::Wait;
use vlm_core::Core;
use vlm_journal::entries::{Entry, Item};
use vlm_ports::{Hub, Port, RootKey, Row, Turn, Watcher};
use vlm_script::{HashKeys, PlayFault, ScriptStep, WatchedRow, watch_line};
use vlm_words::ids::NODES;
use vlm_words::steps::Step;

/// The hub serves all nodes.
pub(crate) const ALL_NODES: u8 = NODES as u8;

// A port waits for at most this many turns in a row that bring it nothing.
const TURNS: usize = 10;

/// A watched hub of eight nodes, with their ports and a watcher of one resource. End it by [`MonitoredHub::finish`].
pub(crate) struct MonitoredHub {
    hub: Hub,
    ports: Vec<Port>,
    watcher: Watcher,
    key: RootKey,
    ghost watched: { IsWatched hub },
    ghost ours: { Watches hub watcher },
    ghost one: { 0 < watcher.keys },
    ghost subject: { watched_keys hub ≡ key ∷ [] },
    ghost linked: { All (IsPortOf hub) ports.items },
}

// The items that came to a port.
#[derive(Clone, Copy, PartialEq, Eq)]
enum Came {
    Nothing,
    Asts,
    // an answer, and perhaps ASTs
    Answer,
}

impl MonitoredHub {
    ghost use Rattle.vlm.specs.MonitoredHubs.{HasLeftAt, standing};

    /// A hub with nothing posted, and a watcher of the resource under this key. If it is refused, there is neither.
    pub(crate) fn open<R: Wait>(
        rt: &R,
        alloc: Global,
        keys: HashKeys,
        key: &RootKey,
    ) -> Result<MonitoredHub, WatchFault>
        ensures faults { IfErr result EndsSteps }
        ensures made { IfOk result (λ w.
            (w.key ≡ key.now) × (state w.hub ≡ start) × (journal w.hub ≡ [])) }
    {
        let subjects = Vec::from_elem(alloc, *key, 1)?;
        let (mut hub, ports) = Hub::with_core(alloc, Core::with_keys(alloc, keys), 8)?;
        let mut watchers = match hub.watch(rt, alloc, subjects, 1) {
            Ok(watchers) => watchers,
            Err(fault) => {
                hub.finish(rt);
                return Err(WatchFault::from(fault));
            }
        };
        let Some(watcher) = watchers.pop() else {
            hub.finish(rt);
            return Err(WatchFault::NoSeat);
        };
        let key = *key;
        Ok(MonitoredHub {
            hub,
            ports,
            watcher,
            key,
        })
    }

    /// Makes steps in order, and after each appends the line of the watched row to the text. Besides the step itself,
    /// its cost does not grow with what is held.
    pub(crate) fn make_all<R: Wait>(
        &mut self,
        rt: &R,
        alloc: Global,
        steps: &[ScriptStep],
        text: &mut Vec<u8>,
    ) -> Result<(), WatchFault>
        requires empty { text.old.items ≡ [] }
        requires start { state self.old.hub ≡ start }
        requires quiet { journal self.old.hub ≡ [] }
        ensures { EndsWatched self.old.key steps.now result text.new.items }
    {
        let mut line = Vec::new(alloc);
        for step in steps {
            if let Err(fault) = self.apply(rt, step, &mut line, text) {
                return Err(fault);
            }
        }
        Ok(())
    }

    // Makes a step, and appends the line of the watched row to the text. If the watch ends here, the text stays as it
    // was: the line is first in `line`, a buffer that all lines use.
    fn apply<R: Wait>(
        &mut self,
        rt: &R,
        step: &ScriptStep,
        line: &mut Vec<u8>,
        text: &mut Vec<u8>,
    ) -> Result<(), WatchFault>
        requires quiet { journal self.old.hub ≡ [] }
        ensures key { self.new.key ≡ self.old.key }
        ensures made { OnOk result (Makes step.now.step (state self.old.hub) (state self.new.hub)) }
        ensures quiet { OnOk result (journal self.new.hub ≡ []) }
        ensures line { OnOk result (text.new.items ≡ text.old.items
            ++ watch_line step.now.line (row_at (state self.new.hub) self.new.key)) }
        ensures same { OnErr result (text.new.items ≡ text.old.items) }
        ensures faults { IfErr result EndsSteps }
    {
        self.make(step.step)?;
        let row = self.publish(rt)?;
        line.clear();
        watch_line(line, step.line, &watched_row(&row))?;
        text.extend_from_slice(line)?;
        Ok(())
    }

    // Makes a step, and checks that the hub has made no other of any node.
    fn make(&mut self, step: Step) -> Result<(), WatchFault>
        requires quiet { journal self.old.hub ≡ [] }
        ensures key { self.new.key ≡ self.old.key }
        ensures made { OnOk result (Makes step (state self.old.hub) (state self.new.hub)) }
        ensures faults { IfErr result EndsSteps }
    {
        let place = self.post(step)?;
        self.turn_until_answered(place)?;
        self.settle(place)?;
        if asked_count(self.hub.journal()) == 1 {
            Ok(())
        } else {
            Err(WatchFault::NoAnswer)
        }
    }

    // Posts a step at the port of its node, and answers the place of that port. Refused if the hub has not made all
    // steps that were posted there.
    fn post(&mut self, step: Step) -> Result<usize, WatchFault>
        ensures key { self.new.key ≡ self.old.key }
        ensures written { IsAsWritten self.old.hub self.new.hub }
        ensures within { IfOk result (λ place. place < length self.new.ports.items) }
        ensures left { IfOk result (λ place. HasLeftAt self.new place (step ∷ [])) }
        ensures faults { IfErr result EndsSteps }
    {
        let place = usize::from(step.node()).wrapping_sub(1);
        if place >= self.ports.len() {
            return Err(WatchFault::NoAnswer);
        }
        self.settle(place)?;
        let port = &mut self.ports[place];
        if !port.may_post(&step) {
            return Err(WatchFault::NoAnswer);
        }
        match port.post(step) {
            Ok(()) => Ok(place),
            Err(_) => Err(WatchFault::NoAnswer),
        }
    }

    // Settles the port at a place. Refused if the hub has not made all steps that were posted there.
    fn settle(&mut self, place: usize) -> Result<(), WatchFault>
        requires within { place < length self.old.ports.items }
        ensures standing { standing self.new ≡ standing self.old }
        ensures written { IsAsWritten self.old.hub self.new.hub }
        ensures left { OnOk result (HasLeftAt self.new place []) }
        ensures faults { IfErr result EndsSteps }
    {
        let port = &mut self.ports[place];
        let settled = self.hub.settle(port);
        if settled.steps == 0 {
            Ok(())
        } else {
            Err(WatchFault::NoAnswer)
        }
    }

    // Makes turns of the hub until the port at a place has an answer.
    fn turn_until_answered(&mut self, place: usize) -> Result<(), WatchFault>
        ensures standing { standing self.new ≡ standing self.old }
        ensures grown { HasGrown self.old.hub self.new.hub }
        ensures faults { IfErr result EndsSteps }
    {
        // It never ends early: this many turns would take centuries.
        for _ in 0..u64::MAX {
            if self.turn_until_told(place)? == Came::Answer {
                return Ok(());
            }
        }
        Err(WatchFault::NoAnswer)
    }

    // Makes turns of the hub until an item comes to the port at a place.
    fn turn_until_told(&mut self, place: usize) -> Result<Came, WatchFault>
        ensures standing { standing self.new ≡ standing self.old }
        ensures grown { HasGrown self.old.hub self.new.hub }
        ensures faults { IfErr result EndsSteps }
    {
        for _ in 0..TURNS {
            let came = self.turn(place)?;
            if came != Came::Nothing {
                return Ok(came);
            }
        }
        Err(WatchFault::NoAnswer)
    }

    // Makes a turn of the hub, and says what came to the port at a place.
    fn turn(&mut self, place: usize) -> Result<Came, WatchFault>
        ensures standing { standing self.new ≡ standing self.old }
        ensures grown { HasGrown self.old.hub self.new.hub }
        ensures faults { IfErr result EndsSteps }
    {
        match self.hub.turn() {
            Turn::NoMemory(_) => Err(WatchFault::Play(PlayFault::Memory)),
            Turn::Served(_) | Turn::Idle => Ok(take_all(&mut self.ports, place)),
        }
    }

    // Publishes how the resource is used, and answers what the watcher then sees. It sees just that, since nobody else
    // publishes.
    fn publish<R: Wait>(&mut self, rt: &R) -> Result<Row, WatchFault>
        ensures key { self.new.key ≡ self.old.key }
        ensures state { state self.new.hub ≡ state self.old.hub }
        ensures quiet { OnOk result (journal self.new.hub ≡ []) }
        ensures row { IfOk result (λ row. printed_row row ≡ row_at (state self.new.hub) self.new.key) }
        ensures faults { IfErr result EndsSteps }
    {
        let told = self.hub.publish(rt)?;
        self.watcher.learn(told);
        let seen = self.watcher.see(0);
        let told = self.hub.tell();
        self.hub.cut();
        match seen {
            Some(row) if self.watcher.has_seen(&told) => Ok(row),
            _ => Err(WatchFault::NoSeat),
        }
    }

    pub(crate) fn finish<R: Wait>(self, rt: &R) {
        let MonitoredHub {
            hub,
            ports: _,
            watcher: _,
            key: _,
        } = self;
        hub.finish(rt);
    }
}

// How many of these entries are steps of nodes.
fn asked_count(entries: &[Entry]) -> usize
    ensures { result ≡ length (steps_asked entries.now) }
{
    let mut count = 0usize;
    for entry in entries {
        if entry.sender != 0 {
            count += 1;
        }
    }
    count
}

// Takes all items that wait at each port, and says what came to the port at a place.
fn take_all(ports: &mut [Port], place: usize) -> Came
    ensures { map posts_of ports.new ≡ map posts_of ports.old }
{
    let mut came = Came::Nothing;
    for at in 0..ports.len() {
        let port = &mut ports[at];
        let taken = take_items(port);
        if at == place {
            came = taken;
        }
    }
    came
}

fn take_items(port: &mut Port) -> Came
    ensures { posts_of port.new ≡ posts_of port.old }
{
    let mut came = Came::Nothing;
    // It never ends early: a port's ring holds few items, and none comes meanwhile.
    for _ in 0..u64::MAX {
        match port.take() {
            None => return came,
            Some(Item::Answer(_)) => came = Came::Answer,
            Some(Item::Ast(_, _)) => {
                if came == Came::Nothing {
                    came = Came::Asts;
                }
            }
        }
    }
    came
}

fn watched_row(row: &Row) -> WatchedRow
    ensures { result ≡ printed_row row.now }
{
    WatchedRow {
        held: row.held,
        conversions: row.conversions,
        waiters: row.waiters,
        value: row.value,
        valid: row.valid,
    }
}
