//! Nodes, and the IDs of their processes.
//!
//! A node numbers its processes as it declares them, from 1. A process is known everywhere by the number of its node
//! times 65,536, plus its own number there, the ordinal (this project's own).

ghost use Rattle.std.specs.Prelude.{◌≡◌, ◌+◌, ◌*◌, ◌/◌, ◌%◌};

/// How many nodes there are. They are numbered from 1.
pub const NODES: usize = 8;

/// The last ordinal of a node, and so how many processes it may declare, ended ones included.
pub const LAST_ORDINAL: u16 = 65_535;

// How many IDs each node has.
const ORDINALS: u32 = 65_536;

/// The node of a process.
pub fn process_node(pid: u32) -> u16
    ensures { result ≡ pid / 65536 }
{
    (pid / ORDINALS) as u16
}

/// The ordinal of a process.
pub fn process_ordinal(pid: u32) -> u16
    ensures { result ≡ pid % 65536 }
{
    (pid % ORDINALS) as u16
}

/// The ID of a process, by its node and its ordinal.
pub fn process_id(node: u8, ordinal: u16) -> u32
    ensures { result ≡ node * 65536 + ordinal }
{
    u32::from(node) * ORDINALS + u32::from(ordinal)
}
