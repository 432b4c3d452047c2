//! What a handle holds.

ghost use Rattle.vlm_ports.specs.Watched.{IsUnwatched};

use vlm_core::Core;
use vlm_ports::{Hub, Port};

/// A core, a hub, or the port of a node.
#[derive(Drop)]
pub enum Held {
    /// A core. A call of it then goes through one pointer.
    Core(Core),
    /// A hub, in a block of its own: it is large.
    Hub(Box<OwnedHub>),
    /// A port.
    Port(Port),
}

/// A hub that nobody watches, and its ports.
pub struct OwnedHub {
    pub(crate) hub: Hub,
    /// The port of node k is at place k - 1, until the hub gives it.
    pub(crate) ports: Vec<Option<Port>>,
    ghost unwatched: { IsUnwatched hub },
}

// A hub that is not watched ends without waiting.
impl Drop for OwnedHub {
    fn drop(self) {
        let OwnedHub { hub, ports: _ } = self;
        let _ended = hub.close();
    }
}
