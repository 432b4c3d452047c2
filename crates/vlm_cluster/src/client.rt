//! A node's client: its port, and the items taken from it.

ghost use Rattle.std.specs.Prelude.{◌≡◌, ◌∷◌, ◌++◌, [], OnOk, OnErr};
ghost use Rattle.vlm_journal.specs.Journals.{IsPostOf};
ghost use Rattle.vlm_words.specs.declared.steps.Step.TheVariants.{Leave};
ghost use Rattle.vlm_ports.specs.Hubs.{IsPortOf};
ghost use Rattle.vlm_ports.specs.Ports.{identity, posted, taken};
ghost use Rattle.vlm_cluster.specs.Gates.{IsTold, moves};
ghost use Rattle.vlm_cluster.specs.Settling.{HasBegun, asked_by, standing, told_by};

use crate::gate::Gate;
use crate::pause::Pause;
use crate::signals::Signals;
use std::alloc::{AllocError, Global};
use std::sync::Wait;
use std::time::Clock;
use vlm_journal::entries::Item;
use vlm_ports::{Hub, Port, Settled};
use vlm_words::steps::Step;

/// A node's port, and all items taken from it.
#[derive(Drop)]
pub(crate) struct Client {
    pub(crate) port: Port,
    pub(crate) items: Vec<Item>,
    // the number of answers among the items
    answers: usize,
    pause: Pause,
    ghost collected: { items.items ≡ taken port },
}

/// The run is cancelled: memory or a thread was refused, so the worker stops early.
#[derive(Clone, Copy, Drop)]
pub(crate) struct Cancelled;

impl Client {
    pub(crate) fn new(alloc: Global, port: Port) -> Client
        requires { taken port ≡ [] }
        ensures port { result.port ≡ port }
        ensures none { result.items.items ≡ [] }
    {
        Client {
            port,
            items: Vec::new(alloc),
            answers: 0,
            pause: Pause::new(),
        }
    }

    /// Takes one item if the port has one, and tells the gate. Returns whether it took one. If memory is refused, it
    /// takes nothing.
    pub(crate) fn collect<G: Gate>(&mut self, gate: &mut G) -> Result<bool, AllocError>
        ensures same { identity self.new.port ≡ identity self.old.port }
        ensures posted { posted self.new.port ≡ posted self.old.port }
        ensures told { IsTold (moves G.answers G.hears)
            (gate.old, self.old.items.items) (gate.new, self.new.items.items) }
    {
        self.items.reserve(1)?;
        let Some(item) = self.port.take() else {
            return Ok(false);
        };
        gate.after(&item);
        if let Item::Answer(_) = item {
            self.answers = self.answers.wrapping_add(1);
        }
        self.items.push_reserved(item);
        Ok(true)
    }

    /// One round of waiting: takes an item, or rests if none has come. If memory is refused, it cancels the run.
    pub(crate) fn wait<R: Clock, G: Gate>(
        &mut self,
        rt: &R,
        signals: &Signals,
        gate: &mut G,
    ) -> Result<(), Cancelled>
        ensures same { identity self.new.port ≡ identity self.old.port }
        ensures posted { posted self.new.port ≡ posted self.old.port }
        ensures told { IsTold (moves G.answers G.hears)
            (gate.old, self.old.items.items) (gate.new, self.new.items.items) }
    {
        if signals.is_cancelled() {
            return Err(Cancelled);
        }
        match self.collect(gate) {
            Err(AllocError) => {
                signals.cancel();
                return Err(Cancelled);
            }
            Ok(true) => self.pause.end(),
            Ok(false) => self.pause.rest(rt),
        }
        Ok(())
    }

    /// Posts a step. While the ring is full, it waits.
    pub(crate) fn post<R: Wait + Clock, G: Gate>(
        &mut self,
        rt: &R,
        signals: &Signals,
        gate: &mut G,
        step: &Step,
    ) -> Result<(), Cancelled>
        requires { IsPostOf self.old.port.node step.now }
        ensures same { identity self.new.port ≡ identity self.old.port }
        ensures ok { OnOk result (posted self.new.port ≡ posted self.old.port ++ step.now ∷ []) }
        ensures cancelled { OnErr result (posted self.new.port ≡ posted self.old.port) }
        ensures told { IsTold (moves G.answers G.hears)
            (gate.old, self.old.items.items) (gate.new, self.new.items.items) }
    {
        for _ in rt.forever() {
            if let Ok(()) = self.port.post(*step) {
                return Ok(());
            }
            self.wait(rt, signals, gate)?;
        }
        unreachable!()
    }

    /// Posts the departure of the node. While the ring is full, it waits.
    pub(crate) fn bye<R: Wait + Clock, G: Gate>(
        &mut self,
        rt: &R,
        signals: &Signals,
        gate: &mut G,
    ) -> Result<(), Cancelled>
        ensures same { identity self.new.port ≡ identity self.old.port }
        ensures ok { OnOk result (posted self.new.port
            ≡ posted self.old.port ++ Leave self.old.port.node ∷ []) }
        ensures cancelled { OnErr result (posted self.new.port ≡ posted self.old.port) }
        ensures told { IsTold (moves G.answers G.hears)
            (gate.old, self.old.items.items) (gate.new, self.new.items.items) }
    {
        for _ in rt.forever() {
            if let Ok(()) = self.port.bye() {
                return Ok(());
            }
            self.wait(rt, signals, gate)?;
        }
        unreachable!()
    }

    /// Takes items until `count` answers have come in all.
    pub(crate) fn await_answers<R: Wait + Clock, G: Gate>(
        &mut self,
        rt: &R,
        signals: &Signals,
        gate: &mut G,
        count: usize,
    ) -> Result<(), Cancelled>
        ensures same { identity self.new.port ≡ identity self.old.port }
        ensures posted { posted self.new.port ≡ posted self.old.port }
        ensures told { IsTold (moves G.answers G.hears)
            (gate.old, self.old.items.items) (gate.new, self.new.items.items) }
    {
        for _ in rt.forever() {
            if self.answers >= count {
                return Ok(());
            }
            self.wait(rt, signals, gate)?;
        }
        unreachable!()
    }

    /// Has the hub settle the port: counts the posts that the hub has not taken and the items that the port has not
    /// taken.
    pub(crate) fn settle(&mut self, hub: &mut Hub) -> Settled
        requires { IsPortOf hub.old self.old.port }
        ensures standing { standing hub.new ≡ standing hub.old }
        ensures same { (identity self.new.port ≡ identity self.old.port)
            × (posted self.new.port ≡ posted self.old.port)
            × (taken self.new.port ≡ taken self.old.port) }
        ensures kept { self.new.items ≡ self.old.items }
        ensures begun { HasBegun hub.new self.new.port }
        ensures steps { result.steps ≡ 0
            → asked_by hub.new self.new.port.node ≡ posted self.new.port }
        ensures items { result.items ≡ 0
            → told_by hub.new self.new.port.node ≡ taken self.new.port }
    {
        hub.settle(&mut self.port)
    }

    pub(crate) fn into_items(self) -> Vec<Item>
        ensures { result ≡ self.items }
    {
        let Client { items, .. } = self;
        items
    }
}
