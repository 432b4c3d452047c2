//! A hub of two nodes, with their ports in one hand.

ghost use Rattle.std.specs.Prelude.{◌≡◌, ◌<◌, ◌≤◌, [], IfOk};
ghost use Rattle.vlm_ports.specs.Hubs.{IsPortOf, journal};
ghost use Rattle.vlm_ports.specs.Ports.{identity};
ghost use Rattle.vlm_ports.specs.Watched.{IsUnwatched};

use std::alloc::{AllocError, Global};
use vlm_journal::entries::{Item, Part};
use vlm_ports::{Full, Hub, Port, Settled, Turn};
use vlm_words::conditions::Cond;
use vlm_words::steps::Step;

/// One of two nodes.
#[derive(Clone, Copy)]
pub enum Node {
    First,
    Second,
}

/// A hub that serves two nodes, and their ports. End it by [`Pair::close`].
pub struct Pair {
    pub(crate) hub: Hub,
    pub(crate) first: Port,
    pub(crate) second: Port,
    ghost ours: { IsPortOf hub first × IsPortOf hub second },
    ghost unwatched: { IsUnwatched hub },
}

impl Pair {
    /// A hub and its ports, with nothing posted. If memory is refused, there is neither.
    pub fn new(alloc: Global) -> Result<Pair, AllocError>
        ensures { IfOk result (λ p. journal p.hub ≡ []) }
    {
        let (hub, ports) = Hub::make(alloc, 2)?;
        let mut ports = ports.into_iter();
        let (Some(first), Some(second)) = (ports.next(), ports.next()) else {
            hub.close();
            return Err(AllocError);
        };
        Ok(Pair { hub, first, second })
    }

    pub fn post(&mut self, node: Node, step: Step) -> Result<(), Full> {
        match node {
            Node::First => post(&mut self.first, step),
            Node::Second => post(&mut self.second, step),
        }
    }

    pub fn bye(&mut self, node: Node) -> Result<(), Full> {
        match node {
            Node::First => self.first.bye(),
            Node::Second => self.second.bye(),
        }
    }

    pub fn take(&mut self, node: Node) -> Option<Item> {
        match node {
            Node::First => self.first.take(),
            Node::Second => self.second.take(),
        }
    }

    pub fn turn(&mut self) -> Turn {
        self.hub.turn()
    }

    pub fn settle(&mut self, node: Node) -> Settled {
        match node {
            Node::First => self.hub.settle(&mut self.first),
            Node::Second => self.hub.settle(&mut self.second),
        }
    }

    /// How many posts of a node the hub has not made, and how many items the node has not taken.
    pub fn waiting(&mut self, node: Node) -> (usize, usize) {
        let items = match node {
            Node::First => self.first.items_waiting(),
            Node::Second => self.second.items_waiting(),
        };
        let number = number_of(node);
        if usize::from(number) > self.hub.nodes() {
            return (0, items);
        }
        (self.hub.posts_waiting(number), items)
    }

    /// Reports that a node is lost.
    pub fn lost(&mut self, node: Node) -> Result<Cond, AllocError> {
        self.hub.lost(number_of(node))
    }

    /// Hands out the entries since the last cut.
    pub fn cut(&mut self) -> Part {
        self.hub.cut()
    }

    /// Ends it. It waits for nobody.
    pub fn close(self) {
        let Pair {
            hub,
            first: _,
            second: _,
        } = self;
        hub.close();
    }

    /// How many entries there are since the last cut.
    pub fn entries(&self) -> usize {
        self.hub.journal().len()
    }
}

fn number_of(node: Node) -> u8
    ensures { (0 < result) × (result ≤ 2) }
{
    match node {
        Node::First => 1,
        Node::Second => 2,
    }
}

/// Posts a step on a port, if the port may.
pub(crate) fn post(port: &mut Port, step: Step) -> Result<(), Full>
    ensures { identity port.new ≡ identity port.old }
{
    if port.may_post(&step) {
        port.post(step)
    } else {
        Err(Full(step))
    }
}
