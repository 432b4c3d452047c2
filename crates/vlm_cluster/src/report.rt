//! The report of a run.

ghost use Rattle.std.specs.Prelude.{◌≡◌};
ghost use Rattle.vlm_journal.specs.Journals.{Journal};
ghost use Rattle.vlm_ports.specs.Hubs.{HubTakesAlone, journal};
ghost use Rattle.vlm_cluster.specs.Parts.{AreNumbered, HaveEnough, HaveFewer, IsAccounted, bound_of};
ghost use Rattle.vlm_cluster.specs.Reports.{entries_of, parts_of};
ghost use Rattle.vlm_cluster.specs.Works.{entries_at};

use crate::hub_driver::HubDriver;
use std::sync::Wait;
use vlm_core::Core;
use vlm_journal::entries::{Item, Part};

/// What happened in a run.
#[derive(Drop)]
pub struct Report {
    /// The parts cut off the journal, in order, each with `every` entries or more. If nothing was refused, the rest has
    /// fewer.
    pub parts: Vec<Part>,
    /// The rest of the journal, after all parts.
    pub rest: Part,
    /// For each list, the items that its worker took, in order.
    pub items: Vec<Vec<Item>>,
    /// For each list, the number of its steps that were posted. The departure is not counted.
    pub posted: Vec<usize>,
    /// The core after the last entry.
    pub core: Core,
}

/// Why a run failed.
#[derive(Drop)]
pub enum Fault {
    /// Memory or a thread was refused. With no report no worker was started; otherwise the report says what was done.
    Memory(Option<Report>),
}

impl HubDriver {
    /// Cuts the rest off the journal, and makes the report. It allocates nothing.
    pub(crate) fn report(self, rt: &impl Wait, items: Vec<Vec<Item>>, posted: Vec<usize>) -> Report
        requires { IsAccounted self.parts.items self.hub }
        ensures entries { entries_of result ≡ entries_at self }
        ensures legal { Journal (entries_of result) result.core }
        ensures numbered { AreNumbered (parts_of result) }
        ensures takes { HubTakesAlone (entries_of result) }
        ensures enough { HaveEnough self.every result.parts.items }
        ensures fewer { HaveFewer (bound_of self.every self.hub) result.parts.items }
        ensures rest { result.rest.entries.items ≡ journal self.hub }
        ensures items { result.items ≡ items }
        ensures posted { result.posted ≡ posted }
    {
        let HubDriver {
            mut hub,
            parts,
            every: _,
        } = self;
        let rest = hub.cut();
        let (_, core) = hub.finish(rt);
        Report {
            parts,
            rest,
            items,
            posted,
            core,
        }
    }

    pub(crate) fn close(self, rt: &impl Wait) {
        let HubDriver {
            hub,
            parts: _,
            every: _,
        } = self;
        hub.finish(rt);
    }
}
