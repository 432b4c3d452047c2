//! The machine of records, whose methods make the parts of a step.

ghost use Rattle.std.specs.Prelude.{◌≡◌, [], ◌∷◌};
ghost use Rattle.vlm_words.specs.State.{start};
ghost use Rattle.vlm_model.specs.Stepped.{Outcome};
ghost use Rattle.vlm_model.specs.Sweeps.{state_after_sweep};
ghost use Rattle.vlm_store.specs.Records.{HasResource};
ghost use Rattle.vlm_locks.specs.Sweeping.{AreStableBut};
ghost use Rattle.vlm_machine.specs.Between.{IsBetweenSteps};
ghost use Rattle.vlm_machine.specs.Machine.{plain_state};
ghost use Rattle.vlm_machine.specs.Notes.{HasRoomToMark, HasRoomToNote, IsToSweep};

use crate::nodes::Node;
use std::alloc::Global;
use std::marker::Model;
use vlm_cycle::Scratch;
use vlm_locks::{Touched, sweep, sweep_resource};
use vlm_store::{HashKeys, ResAt, Store};
use vlm_words::ids::NODES;
use vlm_words::steps::{Answer, Step};

/// The machine, with its records under their handles.
#[derive(Drop)]
pub struct Machine {
    // node k is at index k - 1
    pub(crate) nodes: [Node; NODES],
    pub store: Store,
    // how many IDs, request numbers and serials are used
    pub(crate) last_lkid: u32,
    pub(crate) last_request: u64,
    pub(crate) last_serial: u32,
}

impl Model for Machine {
    ghost use Rattle.vlm_machine.specs.Machine.{MachineState};

    ghost Value = { MachineState };

    ghost use Rattle.vlm_machine.specs.Machine.{HasRecordsAtRest, kept};

    ghost view = { kept };

    ghost invariant = { HasRecordsAtRest };
}

impl Machine {
    /// A new machine, whose index of names hashes by these keys. It takes no memory.
    pub fn with_keys(alloc: Global, keys: HashKeys) -> Machine
        ensures start { plain_state result ≡ start }
        ensures keys { result.records.keys ≡ keys }
    {
        Machine {
            nodes: [Node::new(); NODES],
            store: Store::with_keys(alloc, keys),
            last_lkid: 0,
            last_request: 0,
            last_serial: 0,
        }
    }

    pub fn step(&mut self, touched: &mut Touched, scratch: &mut Scratch, step: &Step) -> Answer
        requires between { IsBetweenSteps (plain_state self.old) }
        requires notes { HasRoomToNote touched.old self.old }
        requires marks { HasRoomToMark scratch.old self.old }
        ensures outcome { Outcome (plain_state self.old) step.now (plain_state self.new) result }
        ensures notes { HasRoomToNote touched.new self.new }
        ensures marks { HasRoomToMark scratch.new self.new }
    {
        match step {
            Step::Declare(declaration) => self.declare(scratch, *declaration),
            Step::SetValue(setting) => self.set_value(setting),
            Step::Enq(request) => self.enq(touched, request),
            Step::Convert(conversion) => self.convert(conversion),
            Step::Deq(dequeue) => self.deq(touched, dequeue),
            Step::Rundown(pid) => self.rundown(touched, *pid),
            Step::Leave(node) => self.leave(touched, *node),
            Step::Search(node) => self.search(scratch, *node),
            Step::Take(pid) => self.take(*pid),
        }
    }

    /// Ends a step that touched one resource. No other resource needs a sweep.
    pub(crate) fn sweep(&mut self, res: ResAt)
        requires there { HasResource res self.old.records }
        requires stable { AreStableBut (res ∷ []) self.old.records.resources }
        ensures { plain_state self.new ≡ state_after_sweep (plain_state self.old) }
    {
        sweep_resource(&mut self.store, res);
    }

    /// Ends a step that touched the noted resources, in the order of making, and clears the notes.
    pub(crate) fn sweep_touched(&mut self, touched: &mut Touched)
        requires { IsToSweep touched.old self.old }
        ensures swept { plain_state self.new ≡ state_after_sweep (plain_state self.old) }
        ensures none { touched.new.noted ≡ [] }
        ensures room { touched.new.room ≡ touched.old.room }
    {
        touched.in_order();
        sweep(&mut self.store, touched.notes());
        touched.clear();
    }
}
