//! A node's ends of its two rings.

ghost use Rattle.std.specs.Prelude.{◌≡◌, ◌<◌, ◌≤◌, ◌+◌, ◌∷◌, ◌++◌, [], length, OnOk, IfErr, OnErr, IfSome, IfNone, IsSome, IsOk};
ghost use Rattle.std.specs.Bool.{OnFalse, OnTrue};
ghost use mathlib.Core.List.{IsPrefix};
ghost use Rattle.rtrb.specs.Ring.{producer_capacity};
ghost use Rattle.vlm_journal.specs.Journals.{IsPostOf};

use rtrb::{Consumer, Producer, PushError};
use vlm_journal::entries::Item;
use vlm_journal::posts::is_post_of;
use vlm_words::steps::Step;

/// The port knows no free place, and has posted nothing. It gives the step back.
#[derive(Clone, Copy)]
pub struct Full(pub Step);

/// The port of a node, for a thread of its own. Its calls never wait, and take no memory.
#[derive(Drop)]
pub struct Port {
    pub(crate) node: u8,
    pub(crate) requests: Producer<Step>,
    pub(crate) items: Consumer<Item>,
    ghost places: { producer_capacity requests ≡ 64 },
}

impl Port {
    ghost use Rattle.vlm_ports.specs.Ports.{arrived, free_places, identity, posted, taken};

    /// The node of the port, 1 to 8.
    pub fn node(&self) -> u8
        ensures { result ≡ self.now.node }
    {
        self.node
    }

    /// Whether it may post the step: the step is of its own node, and not a take.
    pub fn may_post(&self, step: &Step) -> bool
        ensures yes { OnTrue result (IsPostOf self.now.node step.now) }
        ensures no { OnFalse result (¬ IsPostOf self.now.node step.now) }
    {
        is_post_of(self.node, step)
    }

    /// Posts a step of its own node. It is refused with [`Full`] only if the port knows no free place, and then only
    /// what the port knows changes (this project's own).
    pub fn post(&mut self, step: Step) -> Result<(), Full>
        requires { IsPostOf self.old.node step }
        ensures same { identity self.new ≡ identity self.old }
        ensures taken { taken self.new ≡ taken self.old }
        ensures arrived { arrived self.new ≡ arrived self.old }
        ensures ok { OnOk result (posted self.new ≡ posted self.old ++ step ∷ []) }
        ensures full { IfErr result (λ f.
            (f.0 ≡ step) × (posted self.new ≡ posted self.old) × (free_places self.new ≡ 0)) }
        ensures known { 0 < free_places self.old → IsOk result }
        ensures fewer { OnOk result (free_places self.old ≤ free_places self.new + 1) }
    {
        match self.requests.push(step) {
            Ok(()) => Ok(()),
            Err(PushError::Full(back)) => Err(Full(back)),
        }
    }

    /// Posts the departure of its own node. It is refused as [`Port::post`] is.
    pub fn bye(&mut self) -> Result<(), Full>
        ensures same { identity self.new ≡ identity self.old }
        ensures taken { taken self.new ≡ taken self.old }
        ensures arrived { arrived self.new ≡ arrived self.old }
        ensures ok { OnOk result (posted self.new
            ≡ posted self.old ++ Step.Leave self.old.node ∷ []) }
        ensures full { OnErr result (
            (posted self.new ≡ posted self.old) × (free_places self.new ≡ 0)) }
        ensures known { 0 < free_places self.old → IsOk result }
        ensures fewer { OnOk result (free_places self.old ≤ free_places self.new + 1) }
    {
        self.post(Step::Leave(self.node))
    }

    /// How many items have come that it has not taken. It looks at the ring.
    pub fn items_waiting(&mut self) -> usize
        ensures same { identity self.new ≡ identity self.old }
        ensures posted { posted self.new ≡ posted self.old }
        ensures free { free_places self.new ≡ free_places self.old }
        ensures taken { taken self.new ≡ taken self.old }
        ensures count { result ≡ length (arrived self.new) }
        ensures known { IsPrefix (arrived self.old) (arrived self.new) }
    {
        self.items.slots()
    }

    /// Takes the next item; `None` if the port knows of no item that has come.
    pub fn take(&mut self) -> Option<Item>
        ensures same { identity self.new ≡ identity self.old }
        ensures posted { posted self.new ≡ posted self.old }
        ensures free { free_places self.new ≡ free_places self.old }
        ensures some { IfSome result (λ x. taken self.new ≡ taken self.old ++ x ∷ []) }
        ensures none { IfNone result ((taken self.new ≡ taken self.old) × (arrived self.new ≡ [])) }
        ensures known { 0 < length (arrived self.old) → IsSome result }
        ensures more { IfSome result (λ x. IsPrefix (arrived self.old) (x ∷ arrived self.new)) }
    {
        self.items.pop().ok()
    }
}
