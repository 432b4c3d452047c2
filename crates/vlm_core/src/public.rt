//! The core, which makes only whole steps.

ghost use Rattle.std.specs.Prelude.{◌≡◌};
ghost use Rattle.vlm_words.specs.declared.resources.Queue.{Queue};
ghost use Rattle.vlm_model.specs.Laws.{HeldModesAreCompatible, NothingIsLeftToGrant};
ghost use Rattle.vlm_words.specs.State.{start};
ghost use Rattle.vlm_model.specs.Stepped.{IsMade, Outcome, stepped};
ghost use Rattle.vlm_collections.specs.Lists.{IsIn};
ghost use Rattle.vlm_store.specs.Plain.{plain_processes, plain_resources};
ghost use Rattle.vlm_store.specs.Records.{IsSound, StoredResource, queued, rows_of_locks};
ghost use Rattle.vlm_queue.specs.Walks.{GivesInTurn};
ghost use Rattle.vlm_machine.specs.Between.{IsBetweenSteps};
ghost use Rattle.vlm_core.specs.Made.{IsMadeAlways};
ghost use Rattle.vlm_core.specs.Victims.{ShowsVictim};

use std::alloc::Global;
use std::marker::Model;
use vlm_cycle::victim;
use vlm_locks::Touched;
use vlm_machine::{Machine, Scratch};
use vlm_model::laws::{
    law_a_declaration_gives_a_new_id, law_a_parent_outlives_its_sublocks,
    law_each_resource_is_stable, law_held_modes_are_compatible, law_ids_are_apart,
    law_no_lock_is_more_than_15_levels_below, law_nothing_is_left_to_grant, law_process_ids_rise,
    law_rows_fit_their_queues, law_serials_rise,
};
use vlm_store::{HashKeys, Store};
use vlm_words::steps::{Answer, Conversion, Declaration, Dequeue, NewRequest, Step, ValueSetting};

/// The lock manager's core: a machine that one thread steps. Some run of the plain machine leads to its state, so each
/// law of such runs holds of it.
///
/// A value block has 64 bytes (this project's own): the 16 of VMS, and a tail of 48. Each part has a mark that says
/// whether it is valid. A request without WIDE and without a tail reads and writes only the 16.
pub struct Core {
    pub(crate) machine: Machine,
    // the resources that a step touches, for its sweep, with room for all that an ending can touch
    touched: Touched,
    // the marks of a search, with room for each living process
    scratch: Scratch,
}

// Written out: a drop is then one call in each owner of a core.
impl Drop for Core {
    fn drop(self) {
        let Core {
            machine: _,
            touched: _,
            scratch: _,
        } = self;
    }
}

impl Model for Core {
    ghost use Rattle.vlm_words.specs.State.{State};

    ghost Value = { State };

    ghost use Rattle.vlm_machine.specs.Machine.{plain_state};
    ghost use Rattle.vlm_core.specs.Core.{IsCore};

    ghost view = { λ c. plain_state c.machine };

    ghost invariant = { IsCore };
}

impl Core {
    /// A new machine. It takes no memory. Its index of names hashes by fixed keys. If others choose the names, give
    /// keys that nobody can foresee (`with_keys`).
    pub fn new(alloc: Global) -> Core
        ensures { result ≡ start }
    {
        Core::with_keys(alloc, HashKeys::fixed())
    }

    /// A new machine, whose index of names hashes by these keys. It takes no memory.
    pub fn with_keys(alloc: Global, keys: HashKeys) -> Core
        ensures { result ≡ start }
    {
        Core {
            machine: Machine::with_keys(alloc, keys),
            touched: Touched::new(alloc),
            scratch: Scratch::new(alloc),
        }
    }

    // Calls the laws of the state between two steps that a step needs.
    fn between_steps(&self)
        ensures { IsBetweenSteps self.now }
    {
        law_each_resource_is_stable();
        law_ids_are_apart();
        law_serials_rise();
        law_a_declaration_gives_a_new_id();
        law_process_ids_rise();
        law_a_parent_outlives_its_sublocks();
        law_no_lock_is_more_than_15_levels_below();
        law_rows_fit_their_queues();
        let _machine = &self.machine;
    }

    /// The records of the core: its resources and its living processes. `head` and then `next` give the locks of a
    /// queue in order. No two locks of a resource hold incompatible modes, and no request is left to grant.
    pub fn store(&self) -> &Store
        ensures resources { plain_resources result.now ≡ self.now.resources }
        ensures processes { plain_processes result.now ≡ self.now.processes }
        ensures queues { (r : StoredResource) → IsIn r result.now.resources
            → (queue : Queue) → GivesInTurn r.at queue (rows_of_locks (queued queue r)) result.now }
        ensures sound { IsSound result.now }
        ensures held { HeldModesAreCompatible self.now }
        ensures served { NothingIsLeftToGrant self.now }
    {
        law_held_modes_are_compatible();
        law_nothing_is_left_to_grant();
        &self.machine.store
    }

    /// Makes one step of any kind. Each request that ends in the step queues an AST for its completion routine, if it
    /// names one. A grant at once with SYNCSTS queues none, since the answer reports it. Then each granted lock that is
    /// in the way of a queued request is warned, once for each grant of it: an AST for its blocking routine is queued,
    /// if its request names one. The cost grows with the locks that the step takes away, grants and warns, and with
    /// nothing else that is held.
    pub fn step(&mut self, step: Step) -> Answer
        ensures { Outcome self.old step self.new result }
    {
        self.apply(&step)
    }

    /// As [`Core::step`], for a borrowed step: it is not copied.
    pub fn apply(&mut self, step: &Step) -> Answer
        ensures { Outcome self.old step.now self.new result }
    {
        self.between_steps();
        self.machine
            .step(&mut self.touched, &mut self.scratch, step)
    }

    /// Declares a process (this project's own). Refusals, in this order: BADPARAM if the node is not 1 to 8; DEPARTED;
    /// BADPARAM if the node has declared 65,535 processes; INSFMEM.
    pub fn declare(&mut self, declaration: Declaration) -> Answer
        ensures { Outcome self.old (Step.Declare declaration) self.new result }
    {
        self.step(Step::Declare(declaration))
    }

    /// Writes the value part of a status block of the caller, and its tail if one is given (this project's own). It
    /// takes no memory, and answers NORMAL. Refusals, in this order: DEPARTED, NONEXPR, ACCVIO.
    pub fn set_value(&mut self, setting: ValueSetting) -> Answer
        ensures { IsMadeAlways self.old (Step.SetValue setting) self.new result }
    {
        self.step(Step::SetValue(setting))
    }

    /// Takes the oldest pending AST of the process (this project's own), and answers it if there is one. It
    /// queues none, and takes no memory. Refusals, in this order: DEPARTED, NONEXPR.
    pub fn take(&mut self, pid: u32) -> Answer
        ensures { IsMadeAlways self.old (Step.Take pid) self.new result }
    {
        self.step(Step::Take(pid))
    }

    /// Asks for a new lock ($ENQ). With a parent lock of the caller, the resource is below the parent's resource.
    /// Without one it is a root: in the caller's group, or with SYSTEM in the system's domain. The answer is NORMAL, or
    /// SYNCH if the lock is granted at once with SYNCSTS.
    ///
    /// With VALBLK the grant returns the resource's value block: the 16 bytes, and with WIDE the tail too (this
    /// project's own). The status block then has VALNOTVALID if the 16 bytes are invalid. With WIDE it has WIDENOTVALID
    /// if only the tail is. If the request names a completion routine, its end queues an AST for that routine to the
    /// caller, except a grant at once with SYNCSTS. If it names a blocking routine, an AST for that routine is queued
    /// to the caller once, as soon as the granted lock is in the way of a queued request. The locks in the way of this
    /// request are warned in the same way.
    ///
    /// Refusals, in this order: DEPARTED; NONEXPR; BADPARAM for an unknown flag; ACCVIO; IVBUFLEN; UNSUPPORTED for
    /// EXPEDITE at a mode other than NL; IVLOCKID if the parent is not a lock of the caller; PARNOTGRANT if the parent
    /// waits; EXDEPTH if the parent is on level 15 (this project's own limit); NOSYSLCK for a root with SYSTEM without
    /// the privilege; EXENQLM if the caller has as many locks as its quota; NOLOCKID; NOTQUEUED if the request must not
    /// queue and is not granted at once; INSFMEM.
    pub fn enq(&mut self, request: NewRequest) -> Answer
        ensures { Outcome self.old (Step.Enq request) self.new result }
    {
        self.step(Step::Enq(request))
    }

    /// Asks for another mode of a granted lock ($ENQ with LCK$M_CONVERT). The answer is NORMAL, or SYNCH if the
    /// conversion is granted at once with SYNCSTS.
    ///
    /// With VALBLK the grant returns the resource's value block, writes it, or does neither, by the held and the wanted
    /// mode. A return is reported as for a new request. A write takes the value part of the status block, and with WIDE
    /// its tail (this project's own). The written bytes are valid; without WIDE the tail keeps its bytes and becomes
    /// invalid. If the request names a completion routine, its end queues an AST for that routine to the caller, except
    /// a grant at once with SYNCSTS. With the grant its blocking routine replaces the lock's own; if it names none, the
    /// lock has none. An AST for the routine is queued to the caller once, as soon as the granted lock is in the way of
    /// a queued request. The locks in the way of this request are warned in the same way.
    ///
    /// Refusals, in this order: DEPARTED; NONEXPR; BADPARAM for an unknown flag; ACCVIO, also if the status block that
    /// names the lock does not exist; IVLOCKID; CVTUNGRANT if the lock waits or converts; BADPARAM if QUECVT does not
    /// go with the two modes; NOLOCKID; NOTQUEUED if the request must not queue and is not granted at once; INSFMEM,
    /// only if the request names a routine: without one it takes no memory.
    pub fn convert(&mut self, conversion: Conversion) -> Answer
        ensures outcome { Outcome self.old (Step.Convert conversion) self.new result }
        ensures state { conversion.ast ≡ None → conversion.bast ≡ None
            → self.new ≡ (stepped self.old (Step.Convert conversion) None).state }
        ensures answer { conversion.ast ≡ None → conversion.bast ≡ None
            → result ≡ (stepped self.old (Step.Convert conversion) None).answer }
    {
        self.step(Step::Convert(conversion))
    }

    /// Gives a lock up, or with CANCEL ends its request ($DEQ). A lock that is held at PW or EX writes a given value to
    /// the value block, and a given tail with it (this project's own). The written bytes are valid; without a tail the
    /// tail of the value block keeps its bytes and becomes invalid. With INVVALBLK the whole value block is then marked
    /// invalid. Value, tail and INVVALBLK are ignored with CANCEL, at lower modes, and for a waiting lock (this
    /// project's own).
    ///
    /// With DEQALL several locks are given up together: all locks of the caller if 0 is named, else all locks below the
    /// named one, which stays. A request that ends with its lock, by abort or cancel, queues an AST for its completion
    /// routine, if it names one; the ASTs of one step are queued by rising ID. It queues none for its
    /// blocking routine, and a lock that goes is no longer warned.
    ///
    /// It takes no memory. Refusals, in this order: DEPARTED; NONEXPR; BADPARAM for an unknown flag, for DEQALL with
    /// CANCEL or with a value, and for a tail without a value; ACCVIO if the status block that names the lock does not
    /// exist; IVLOCKID, except for DEQALL of 0; CANCELGRANT if a granted lock is to be cancelled; SUBLOCKS if a lock
    /// that has sublocks is to be given up without DEQALL. With DEQALL the cost grows with the locks that go times the
    /// logarithm of their number, since they and their resources are put in order.
    pub fn deq(&mut self, dequeue: Dequeue) -> Answer
        ensures { IsMadeAlways self.old (Step.Deq dequeue) self.new result }
    {
        self.step(Step::Deq(dequeue))
    }

    /// Ends a process (process rundown). All its locks are given up together. Its requests end without a status or an
    /// AST. On each resource on which it held PW or EX, granted or converting, the whole value block is marked invalid.
    /// Then the process is gone, with its status blocks and all its ASTs, and the requests that its locks blocked are
    /// granted. It takes no memory, and answers NORMAL. Refusals, in this order: DEPARTED, NONEXPR. The cost grows with
    /// the locks that go, and with their resources times the logarithm of the number of resources, since these are put
    /// in order.
    pub fn rundown(&mut self, pid: u32) -> Answer
        ensures { IsMadeAlways self.old (Step.Rundown pid) self.new result }
    {
        self.step(Step::Rundown(pid))
    }

    /// Lets a node depart (this project's own). All its processes end as by a rundown, and all their locks go before
    /// anything is granted. From then on each step of the node is answered DEPARTED. It takes no memory, and answers
    /// NORMAL. Refusals, in this order: BADPARAM if the node is not 1 to 8; DEPARTED if it has departed before. The
    /// cost grows with the processes and the locks that go, like the cost of a rundown.
    pub fn leave(&mut self, node: u8) -> Answer
        ensures { IsMadeAlways self.old (Step.Leave node) self.new result }
    {
        self.step(Step::Leave(node))
    }

    /// Searches for a deadlock: processes that wait for each other in a cycle ($ENQ, lock conversion deadlocks and
    /// multiple resource deadlocks). A queued request waits for each other lock of its resource that is held in an
    /// incompatible mode, unless that mode was asked for with NODLCKBLK. It waits for each request before it,
    /// conversions first, unless that request has NODLCKBLK. With NODLCKWT it waits for no lock. A request that leads
    /// back to its own process is deadlocked.
    ///
    /// The most recent deadlocked request is the victim. It ends with DEADLOCK, and its completion AST is queued. A
    /// waiting lock goes, and a converting lock stays as it was granted. Then the requests that it blocked are granted.
    /// The answer is the ID of the victim's lock; without a victim it says so, and nothing is changed. It
    /// takes no memory. Refusals, in this order: BADPARAM if the node is not 1 to 8; DEPARTED.
    pub fn search(&mut self, node: u8) -> Answer
        ensures { IsMade self.old (Step.Search node) self.new result }
    {
        self.step(Step::Search(node))
    }

    /// The lock whose request a search would end now, or `None` if no request is deadlocked (this project's own). It
    /// changes nothing, takes no memory, and costs what the search for a victim costs.
    pub fn find_victim(&mut self) -> Option<u32>
        ensures same { self.new ≡ self.old }
        ensures shown { ShowsVictim self.old result }
    {
        self.between_steps();
        let located = victim(&self.machine.store, &mut self.scratch)?;
        Some(located.row.lkid())
    }
}
