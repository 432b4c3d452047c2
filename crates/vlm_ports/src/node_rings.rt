//! The hub's ends of the two rings of a node.

ghost use Rattle.std.specs.Prelude.{◌≡◌, ◌+◌, ◌<◌, ◌≤◌, ◌∷◌, ◌++◌, [], length, IsTrue, IsFalse, IfOk};
ghost use Rattle.rtrb.specs.Ring.{producer_capacity};
ghost use mathlib.Core.List.{IsPrefix};
ghost use Rattle.vlm_ports.specs.Posts.{on_behalf};

use crate::port::Port;
use rtrb::{Consumer, Producer, RingBuffer};
use std::alloc::{AllocError, Global};
use vlm_journal::entries::Item;
use vlm_words::steps::Step;

const PLACES: usize = 64;

#[derive(Drop)]
pub(crate) struct NodeRings {
    pub(crate) node: u8,
    pub(crate) requests: Consumer<Step>,
    pub(crate) items: Producer<Item>,
    ghost places: { producer_capacity items ≡ 64 },
}

/// The counts of a settled port.
#[derive(Clone, Copy, Debug, PartialEq, Eq)]
pub struct Settled {
    /// How many posts the hub has not taken.
    pub steps: usize,
    /// How many items the port has not taken.
    pub items: usize,
}

impl NodeRings {
    ghost use Rattle.vlm_ports.specs.Links.{Lasts, has_taken, has_told, knows, node_rings_identity, places};
    ghost use Rattle.vlm_ports.specs.Ports.{arrived, free_places, identity, posted, taken};
    ghost use Rattle.vlm_ports.specs.Settling.{HaveMovedNothing, IsSamePort, PortKnowsMore};

    pub(crate) fn make(alloc: Global, node: u8) -> Result<(NodeRings, Port), AllocError>
        ensures rings { IfOk result (λ r. node_rings_identity r.0 ≡ identity r.1) }
        ensures node_rings { IfOk result (λ r.
            (r.0.node ≡ node) × (has_taken r.0 ≡ []) × (has_told r.0 ≡ [])) }
        ensures port { IfOk result (λ r. (r.1.node ≡ node) × (posted r.1 ≡ []) × (taken r.1 ≡ [])) }
        ensures places { IfOk result (λ r.
            (producer_capacity r.0.items ≡ 64) × (producer_capacity r.1.requests ≡ 64)) }
    {
        let (to_hub, requests) = RingBuffer::new(alloc, PLACES)?;
        let (items, from_hub) = RingBuffer::new(alloc, PLACES)?;
        let node_rings = NodeRings {
            node,
            requests,
            items,
        };
        let port = Port {
            node,
            requests: to_hub,
            items: from_hub,
        };
        Ok((node_rings, port))
    }

    /// Whether a place for an item is known to be free. If none is, it looks at the ring.
    pub(crate) fn has_place(&mut self) -> bool
        ensures rings { node_rings_identity self.new ≡ node_rings_identity self.old }
        ensures taken { has_taken self.new ≡ has_taken self.old }
        ensures told { has_told self.new ≡ has_told self.old }
        ensures knows { knows self.new ≡ knows self.old }
        ensures lasts { Lasts self.old self.new }
        ensures place { IsTrue result → 0 < places self.new }
        ensures none { IsFalse result → places self.new ≡ 0 }
    {
        !self.items.is_full()
    }

    /// Whether a post is known to be on the ring. If none is, it looks at the ring.
    pub(crate) fn has_request(&mut self) -> bool
        ensures rings { node_rings_identity self.new ≡ node_rings_identity self.old }
        ensures taken { has_taken self.new ≡ has_taken self.old }
        ensures told { has_told self.new ≡ has_told self.old }
        ensures places { places self.new ≡ places self.old }
        ensures lasts { Lasts self.old self.new }
        ensures some { IsTrue result → 0 < length (knows self.new) }
        ensures none { IsFalse result → knows self.new ≡ [] }
    {
        !self.requests.is_empty()
    }

    /// How many posts are on the ring. It looks at the ring.
    pub(crate) fn requests_waiting(&mut self) -> usize
        ensures rings { node_rings_identity self.new ≡ node_rings_identity self.old }
        ensures unmoved { HaveMovedNothing self.old self.new }
        ensures places { places self.new ≡ places self.old }
        ensures lasts { Lasts self.old self.new }
        ensures count { result ≡ length (knows self.new) }
    {
        self.requests.slots()
    }

    /// The next known post, as the node posted it. It stays on the ring.
    pub(crate) fn next_request(&self) -> &Step
        requires { 0 < length (knows self.now) }
        ensures { IsPrefix (on_behalf self.now.node result.now ∷ []) (knows self.now) }
    {
        self.requests.peek_known()
    }

    pub(crate) fn take_request(&mut self)
        requires { 0 < length (knows self.old) }
        ensures rings { node_rings_identity self.new ≡ node_rings_identity self.old }
        ensures taken { (step : Step) → IsPrefix (step ∷ []) (knows self.old)
            → has_taken self.new ≡ has_taken self.old ++ step ∷ [] }
        ensures told { has_told self.new ≡ has_told self.old }
        ensures places { places self.new ≡ places self.old }
        ensures lasts { Lasts self.old self.new }
    {
        let _taken = self.requests.pop_known();
    }

    pub(crate) fn tell(&mut self, item: Item)
        requires { 0 < places self.old }
        ensures rings { node_rings_identity self.new ≡ node_rings_identity self.old }
        ensures taken { has_taken self.new ≡ has_taken self.old }
        ensures told { has_told self.new ≡ has_told self.old ++ item ∷ [] }
        ensures lasts { Lasts self.old self.new }
    {
        self.items.push_reserved(item);
    }

    /// Counts from both ends: the posts that the hub has not taken, and the items that the port has not taken, at most
    /// 64 each. Then each empty place is known to be free.
    pub(crate) fn settle(&mut self, port: &mut Port) -> Settled
        requires { node_rings_identity self.old ≡ identity port.old }
        ensures rings { node_rings_identity self.new ≡ node_rings_identity self.old }
        ensures unmoved { HaveMovedNothing self.old self.new }
        ensures same { IsSamePort port.old port.new }
        ensures posted { posted port.new ≡ has_taken self.new ++ knows self.new }
        ensures steps { (result.steps ≡ length (knows self.new)) × (result.steps ≤ 64) }
        ensures arrived { has_told self.new ≡ taken port.new ++ arrived port.new }
        ensures items { (result.items ≡ length (arrived port.new)) × (result.items ≤ 64) }
        ensures places { 64 ≤ places self.new + result.items }
        ensures free { 64 ≤ free_places port.new + result.steps }
        ensures lasts { Lasts self.old self.new }
        ensures known { PortKnowsMore port.old port.new }
    {
        let _places = port.requests.slots_beside(&mut self.requests);
        let steps = self.requests.slots_beside(&mut port.requests);
        let _free = self.items.slots_beside(&mut port.items);
        let items = port.items.slots_beside(&mut self.items);
        Settled { steps, items }
    }
}
