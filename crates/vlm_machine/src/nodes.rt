//! The nodes.

ghost use Rattle.std.specs.Prelude.{◌≡◌, ◌+◌, ◌<◌, ◌≤◌, true};
ghost use Rattle.vlm_model.specs.Checks.{has_departed};
ghost use Rattle.vlm_model.specs.Rundown.{nodes_after_departure};
ghost use Rattle.vlm_words.specs.State.{new_node};

use std::marker::Model;
use vlm_words::ids::NODES;

#[derive(Clone, Copy)]
pub(crate) struct Node {
    // how many processes it has declared, counting ended ones
    declared: u16,
    departed: bool,
}

impl Model for Node {
    ghost use Rattle.vlm_words.specs.State.{Node as PlainNode};

    ghost Value = { PlainNode };

    ghost view = { λ n. record { declared = n.declared; departed = n.departed } };

    ghost inverse = { λ n. record { declared = n.declared; departed = n.departed } };
}

impl Node {
    pub(crate) fn new() -> Self
        ensures { result ≡ new_node }
    {
        Node {
            declared: 0,
            departed: false,
        }
    }

    pub(crate) fn declared(&self) -> u16
        ensures { result ≡ self.now.declared }
    {
        self.declared
    }

    fn departed(&self) -> bool
        ensures { result ≡ self.now.departed }
    {
        self.departed
    }

    fn after_departure(&self) -> Self
        ensures { result ≡ record self.now { departed = true } }
    {
        Node {
            declared: self.declared,
            departed: true,
        }
    }

    pub(crate) fn counted(&self) -> Self
        requires { self.now.declared < 65535 }
        ensures { result ≡ record self.now { declared = self.now.declared + 1 } }
    {
        Node {
            declared: self.declared + 1,
            departed: self.departed,
        }
    }
}

/// Whether the node exists and has departed.
pub(crate) fn has_departed(nodes: &[Node; NODES], node: u16) -> bool
    ensures { result ≡ has_departed nodes.now node }
{
    let node = usize::from(node);
    0 < node && node <= NODES && nodes[node - 1].departed()
}

pub(crate) fn depart(nodes: &mut [Node; NODES], node: u8)
    requires first { 1 ≤ node }
    requires last { node ≤ 8 }
    ensures { nodes.new ≡ nodes_after_departure nodes.old node }
{
    let place = usize::from(node) - 1;
    nodes[place] = nodes[place].after_departure();
}
