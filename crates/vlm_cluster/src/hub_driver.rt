//! The hub, and the parts cut off its journal.

ghost use Rattle.std.specs.Prelude.{◌≡◌, ◌<◌, [], OnOk, length};
ghost use Rattle.vlm_ports.specs.Hubs.{journal};
ghost use Rattle.vlm_cluster.specs.Parts.{HaveEnough, HaveFewer, bound_of};

use crate::pause::Pause;
use crate::signals::Signals;
use std::alloc::{AllocError, Global};
use std::sync::Wait;
use std::time::Clock;
use vlm_journal::entries::Part;
use vlm_ports::{Hub, Turn};

/// The hub, and the parts cut off its journal. It can't be dropped: end it with `report` or `close`.
pub(crate) struct HubDriver {
    pub(crate) hub: Hub,
    pub(crate) parts: Vec<Part>,
    /// The least number of entries of a part.
    pub(crate) every: usize,
    ghost some: { 0 < every },
    ghost enough: { HaveEnough every parts.items },
    ghost fewer: { HaveFewer (bound_of every hub) parts.items },
    ghost short: { length (journal hub) < bound_of every hub },
}

impl HubDriver {
    ghost use Rattle.vlm_ports.specs.Hubs.{IsNewHub, journal, nodes, rings};
    ghost use Rattle.vlm_cluster.specs.Parts.{IsAccounted};
    ghost use Rattle.vlm_cluster.specs.Works.{entries_at};

    pub(crate) fn new(alloc: Global, hub: Hub, every: usize) -> HubDriver
        requires hub { IsNewHub (nodes hub) hub }
        requires every { 0 < every }
        ensures every { result.every ≡ every }
        ensures hub { result.hub ≡ hub }
        ensures quiet { entries_at result ≡ [] }
        ensures accounted { IsAccounted result.parts.items result.hub }
    {
        HubDriver {
            hub,
            parts: Vec::new(alloc),
            every,
        }
    }

    /// Makes one turn of the hub, and cuts a part off if the journal is long enough. Returns whether the turn made an
    /// entry. If memory is refused, the entries already made stay.
    pub(crate) fn turn(&mut self) -> Result<bool, AllocError>
        requires accounted { IsAccounted self.old.parts.items self.old.hub }
        requires few { length (journal self.old.hub) < self.old.every }
        ensures every { self.new.every ≡ self.old.every }
        ensures few { OnOk result (length (journal self.new.hub) < self.new.every) }
        ensures rings { rings self.new.hub ≡ rings self.old.hub }
        ensures accounted { IsAccounted self.new.parts.items self.new.hub }
    {
        let turn = self.hub.turn();
        self.cut_off()?;
        match turn {
            Turn::Served(_) => Ok(true),
            Turn::Idle => Ok(false),
            Turn::NoMemory(_) => Err(AllocError),
        }
    }

    /// Cuts a part off if the hub's journal has `every` entries or more.
    pub(crate) fn cut_off(&mut self) -> Result<(), AllocError>
        requires { IsAccounted self.old.parts.items self.old.hub }
        ensures every { self.new.every ≡ self.old.every }
        ensures few { OnOk result (length (journal self.new.hub) < self.new.every) }
        ensures rings { rings self.new.hub ≡ rings self.old.hub }
        ensures accounted { IsAccounted self.new.parts.items self.new.hub }
    {
        if self.hub.journal().len() < self.every {
            return Ok(());
        }
        self.parts.reserve(1)?;
        let part = self.hub.cut();
        self.parts.push_reserved(part);
        Ok(())
    }

    /// Makes turns until `count` workers have finished. If memory is refused, it cancels the run.
    pub(crate) fn serve<R: Wait + Clock>(&mut self, rt: &R, signals: &Signals, count: u64)
        requires accounted { IsAccounted self.old.parts.items self.old.hub }
        requires few { length (journal self.old.hub) < self.old.every }
        ensures every { self.new.every ≡ self.old.every }
        ensures rings { rings self.new.hub ≡ rings self.old.hub }
        ensures accounted { IsAccounted self.new.parts.items self.new.hub }
    {
        let mut pause = Pause::new();
        for _ in rt.forever() {
            if signals.over() >= count {
                return;
            }
            match self.turn() {
                Err(AllocError) => {
                    signals.cancel();
                    return;
                }
                Ok(true) => pause.end(),
                Ok(false) => pause.rest(rt),
            }
        }
        unreachable!()
    }
}
