//! A hub of one node, with its port in the same hand.

ghost use Rattle.std.specs.Prelude.{◌≡◌, [], IfOk};
ghost use Rattle.vlm_ports.specs.Hubs.{IsPortOf, journal};
ghost use Rattle.vlm_ports.specs.Watched.{IsUnwatched};

use crate::pair::post;
use std::alloc::{AllocError, Global};
use vlm_journal::entries::Item;
use vlm_ports::{Full, Hub, Port, Settled, Turn};
use vlm_words::steps::Step;

/// A hub that serves one node, and its port. End it by [`Single::close`].
pub struct Single {
    hub: Hub,
    port: Port,
    ghost ours: { IsPortOf hub port },
    ghost unwatched: { IsUnwatched hub },
}

impl Single {
    /// A hub and its port, with nothing posted. If memory is refused, there is neither.
    pub fn new(alloc: Global) -> Result<Single, AllocError>
        ensures { IfOk result (λ s. journal s.hub ≡ []) }
    {
        let (hub, ports) = Hub::make(alloc, 1)?;
        let Some(port) = ports.into_iter().next() else {
            hub.close();
            return Err(AllocError);
        };
        Ok(Single { hub, port })
    }

    pub fn post(&mut self, step: Step) -> Result<(), Full> {
        post(&mut self.port, step)
    }

    pub fn take(&mut self) -> Option<Item> {
        self.port.take()
    }

    pub fn turn(&mut self) -> Turn {
        self.hub.turn()
    }

    pub fn settle(&mut self) -> Settled {
        self.hub.settle(&mut self.port)
    }

    /// The status of this process's first status block; `None` if it has none.
    pub fn status(&self, pid: u32) -> Option<u8> {
        Some(self.hub.block(pid, 1)?.status)
    }

    /// Ends it. It waits for nobody.
    pub fn close(self) {
        let Single { hub, port: _ } = self;
        hub.close();
    }
}
