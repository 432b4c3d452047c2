//! The processes with a pending AST.

ghost use Rattle.vlm_store.specs.Pending.{IsFirstPending};

use crate::store::Store;

impl Store {
    /// The first process of a node with a pending AST: the least ID. Nodes are 1 to 8.
    pub fn pending_of(&self, node: u8) -> Option<u32>
        ensures { IsFirstPending node self.now.processes result }
    {
        self.pending.first(node)
    }
}
