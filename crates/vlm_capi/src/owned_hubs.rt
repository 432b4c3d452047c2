//! What the calls of a hub do with the hub of a handle.

ghost use Rattle.std.specs.Prelude.{◌≡◌, ◌<◌, ◌≤◌, IfOk, Some, length, slice_get};
ghost use Rattle.std.specs.Option.{option_map};
ghost use Rattle.vlm_capi.specs.Entries.{entry_of};
ghost use Rattle.vlm_capi.specs.Shown.{block_shown};
ghost use Rattle.vlm_capi.specs.Hubs.{BoxesPort, GivesPort, HasCounted, HasCut, HasLost, HasTurned, IsNewHeld};
ghost use Rattle.vlm_ports.specs.Hubs.{journal, nodes, state};

use crate::entries::{VlmEntry, entry_of};
use crate::held::{Held, OwnedHub};
use std::alloc::{AllocError, Global};
use vlm_collections::HashKeys;
use vlm_core::Core;
use vlm_ports::{Hub, Part, Port, Turn};
use vlm_words::blocks::Block;
use vlm_words::conditions::Cond;

/// Makes a hub of 1 to 8 nodes, with a port of each.
pub(crate) fn new_hub(alloc: Global, keys: HashKeys, count: usize) -> Result<Box<Held>, AllocError>
    requires { (0 < count) × (count ≤ 8) }
    ensures { IfOk result (λ b. IsNewHeld count b.value) }
{
    let (hub, ports) = Hub::with_core(alloc, Core::with_keys(alloc, keys), count)?;
    let Ok(ports) = ports.into_iter().map(|port| Some(port)).collect(alloc) else {
        hub.close();
        return Err(AllocError);
    };
    let owned = Box::new(alloc, OwnedHub { hub, ports })?;
    Ok(Box::new(alloc, Held::Hub(owned))?)
}

// Takes the port of a place, in a block of its own. BADPARAM if it has none. INSFMEM: the place keeps it.
fn box_port(alloc: Global, place: &mut Option<Port>) -> Result<Box<Held>, Cond>
    ensures { BoxesPort place.old result place.new }
{
    let Some(port) = place.take() else {
        return Err(Cond::Badparam);
    };
    match Box::new(alloc, Held::Port(port)) {
        Ok(held) => Ok(held),
        Err(refused) => {
            match refused.value {
                Held::Port(port) => *place = Some(port),
                Held::Core(_core) => {}
                Held::Hub(_hub) => {}
            }
            Err(Cond::Insfmem)
        }
    }
}

impl OwnedHub {
    /// Gives the port of a node. BADPARAM if it has no such port, or has given it already. INSFMEM if there is no
    /// memory for the handle: then it keeps the port.
    #[tactic(auto, unfolding(crate::specs::Hubs::GivesPort))]
    pub(crate) fn give_port(&mut self, alloc: Global, node: u32) -> Result<Box<Held>, Cond>
        ensures { GivesPort node self.old result self.new }
    {
        if node == 0 {
            return Err(Cond::Badparam);
        }
        let Some(place) = self.ports.get_mut(node as usize - 1) else {
            return Err(Cond::Badparam);
        };
        box_port(alloc, place)
    }

    pub(crate) fn turn(&mut self) -> Turn
        ensures { HasTurned self.old result self.new }
    {
        self.hub.turn()
    }

    /// Makes the departure of a lost node. `None` if it is not 1 to 8.
    pub(crate) fn depart(&mut self, node: u32) -> Option<Result<Cond, AllocError>>
        ensures { HasLost node self.old result self.new }
    {
        if node == 0 || node > 8 {
            return None;
        }
        Some(self.hub.lost(node as u8))
    }

    /// How many posts of a node it has not made. `None` if it has no such node.
    pub(crate) fn posts_waiting(&mut self, node: u32) -> Option<usize>
        ensures { HasCounted node self.old result self.new }
    {
        if node == 0 || node > 8 || node as usize > self.hub.nodes() {
            return None;
        }
        Some(self.hub.posts_waiting(node as u8))
    }

    pub(crate) fn node_count(&mut self) -> usize
        ensures told { result ≡ nodes self.old.hub }
        ensures same { self.new ≡ self.old }
    {
        self.hub.nodes()
    }

    pub(crate) fn entry_count(&mut self) -> usize
        ensures told { result ≡ length (journal self.old.hub) }
        ensures same { self.new ≡ self.old }
    {
        self.hub.journal().len()
    }

    /// A status block of a process. Numbers start at 1.
    #[tactic(auto, unfolding(crate::specs::Shown::block_shown))]
    pub(crate) fn block(&mut self, pid: u32, number: u32) -> Option<Block>
        ensures told { result ≡ block_shown (Some (state self.old.hub)) pid number }
        ensures same { self.new ≡ self.old }
    {
        if number > 255 {
            return None;
        }
        self.hub.block(pid, number as u8)
    }

    pub(crate) fn entry(&mut self, place: usize) -> Option<VlmEntry>
        ensures told { result ≡ option_map entry_of (slice_get (journal self.old.hub) place) }
        ensures same { self.new ≡ self.old }
    {
        match self.hub.journal().get(place) {
            Some(entry) => Some(entry_of(entry)),
            None => None,
        }
    }

    /// Cuts the journal, if it has at most this many entries.
    pub(crate) fn cut_within(&mut self, most: usize) -> Option<Part>
        ensures { HasCut most self.old result self.new }
    {
        if self.hub.journal().len() > most {
            return None;
        }
        Some(self.hub.cut())
    }
}
