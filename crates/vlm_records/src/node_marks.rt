//! Sets of processes, one for each node.

ghost use Rattle.std.specs.Prelude.{◌≡◌, ◌/◌, ◌<◌, ◌≤◌, ℕ, false, true, IfSome, IsOk, OnErr, OnOk};
ghost use Rattle.vlm_records.specs.NodeMarks.{Grows, HasRoomFor, IsFirstMarked, Writes, is_marked, place_of};

use std::alloc::{AllocError, Global};
use std::marker::Model;
use vlm_collections::Marks;
use vlm_words::ids::{NODES, process_id, process_node, process_ordinal};

/// Sets of processes of the nodes 1 to 8. A process of another node is never marked and needs no room.
#[derive(Drop)]
pub struct NodeMarks {
    // the marked ordinals of node k, at index k - 1
    nodes: [Marks; NODES],
}

impl Model for NodeMarks {
    ghost use Rattle.std.specs.Prelude.{Bool, List};

    ghost Value = { List (List Bool) };

    ghost use Rattle.vlm_records.specs.NodeMarks.{AreEight};

    ghost view = { λ m. m.nodes };

    ghost invariant = { λ m. AreEight m.nodes };
}

#[tactic(auto, unfolding(crate::specs::NodeMarks::place_of))]
fn place_of(pid: u32) -> Option<usize>
    ensures place { result ≡ place_of pid }
    ensures below { IfSome result (λ place. place < 8) }
{
    let node = usize::from(process_node(pid));
    if 1 <= node && node <= NODES {
        Some(node - 1)
    } else {
        None
    }
}

impl NodeMarks {
    /// Empty sets without room. It takes no memory.
    pub fn new(alloc: Global) -> Self
        ensures { (pid : ℕ) → is_marked result pid ≡ false }
    {
        NodeMarks {
            nodes: [
                Marks::new(alloc),
                Marks::new(alloc),
                Marks::new(alloc),
                Marks::new(alloc),
                Marks::new(alloc),
                Marks::new(alloc),
                Marks::new(alloc),
                Marks::new(alloc),
            ],
        }
    }

    /// Makes room for a process, as `Marks::make_room` does. If memory is refused, nothing is changed.
    pub fn make_room(&mut self, pid: u32) -> Result<(), AllocError>
        ensures room { OnOk result (HasRoomFor self.new pid) }
        ensures kept { OnOk result (Grows self.old self.new) }
        ensures succeeds { (other : ℕ) → other / 65536 ≡ pid / 65536 → pid / 64 ≤ other / 64
            → HasRoomFor self.old other → IsOk result }
        ensures refused { OnErr result (self.new ≡ self.old) }
    {
        match place_of(pid) {
            Some(place) => self.nodes[place].make_room(process_ordinal(pid)),
            None => Ok(()),
        }
    }

    pub fn mark(&mut self, pid: u32)
        requires { HasRoomFor self.old pid }
        ensures { Writes pid true self.old self.new }
    {
        if let Some(place) = place_of(pid) {
            self.nodes[place].mark(process_ordinal(pid));
        }
    }

    pub fn unmark(&mut self, pid: u32)
        requires { HasRoomFor self.old pid }
        ensures { Writes pid false self.old self.new }
    {
        if let Some(place) = place_of(pid) {
            self.nodes[place].unmark(process_ordinal(pid));
        }
    }

    pub fn has(&self, pid: u32) -> bool
        ensures { result ≡ is_marked self.now pid }
    {
        match place_of(pid) {
            Some(place) => self.nodes[place].has(process_ordinal(pid)),
            None => false,
        }
    }

    pub fn clear(&mut self)
        ensures none { (pid : ℕ) → is_marked self.new pid ≡ false }
        ensures room { (pid : ℕ) → HasRoomFor self.old pid → HasRoomFor self.new pid }
    {
        for place in 0..NODES {
            self.nodes[place].clear();
        }
    }

    /// The least marked ID of the node, if one is marked.
    pub fn first(&self, node: u8) -> Option<u32>
        ensures { IsFirstMarked self.now node result }
    {
        let place = place_of(process_id(node, 0))?;
        let ordinal = self.nodes[place].first()?;
        Some(process_id(node, ordinal))
    }
}
